use sq_base::{List, Name, Place};

/// A name as it is looked up: the folded word, or what stands between the quotes.
#[derive(Drop)]
pub struct Identifier {
    pub name: Name,
    pub is_quoted: bool,
    pub place: Place,
}

/// The name of a table or of a type.
#[derive(Drop)]
pub struct QualifiedName {
    pub schema: Option<Identifier>,
    pub name: Identifier,
}

/// The name of a column, of one to three parts.
#[derive(Drop)]
pub enum ColumnName {
    /// `column`
    Bare(Identifier),
    /// `range.column`
    OfRange(Identifier, Identifier),
    /// `schema.table.column`
    OfTable(Identifier, Identifier, Identifier),
}

/// The words of a type.
#[derive(Drop)]
pub enum TypeWord {
    Named(QualifiedName),
    /// `DOUBLE PRECISION`, and the place of the first word.
    DoublePrecision(Place),
    /// `CHARACTER VARYING`, and the place of the first word.
    CharacterVarying(Place),
}

/// What is said of a time zone.
#[derive(Clone, Copy, PartialEq, Eq)]
pub enum TimeZone {
    Unsaid,
    With,
    Without,
}

/// A type as it is written (PostgreSQL manual, chapter 8).
#[derive(Drop)]
pub struct TypeName {
    pub word: TypeWord,
    /// The numbers in brackets, none where there are no brackets.
    pub size: List<List<u8>>,
    pub zone: TimeZone,
    /// The number within each pair of square brackets, empty where there is none.
    pub arrays: List<List<u8>>,
}
