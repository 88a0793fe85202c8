use sq_base::{List, Name, PgType};

/// What the written method gives its caller (sqlc documentation, query annotations).
#[derive(Clone, Copy, Debug, PartialEq, Eq)]
pub enum Command {
    /// One row.
    One,
    /// All rows.
    Many,
    /// Nothing but an error.
    Exec,
    /// The number of rows that were touched.
    ExecRows,
}

/// The language in which a writer writes.
#[derive(Clone, Copy, Debug, PartialEq, Eq)]
pub enum Language {
    Go,
    Python,
    Plain,
}

/// A parameter of a query.
#[derive(Debug, Drop)]
pub struct Param {
    /// Its number in the text, from 1.
    pub number: u32,
    pub name: Name,
    pub of: PgType,
    pub nullable: bool,
}

/// A column of a query's rows, or of a model.
#[derive(Debug, Drop)]
pub struct Output {
    pub name: Name,
    pub of: PgType,
    pub nullable: bool,
}

/// A query with its name, its command, its printed text, its parameters and its columns.
#[derive(Debug, Drop)]
pub struct Signature {
    pub name: Name,
    pub command: Command,
    pub text: List<u8>,
    pub params: List<Param>,
    pub columns: List<Output>,
}

/// A parameter or a column as a written file shows it: its identifier and its type's form.
#[derive(Debug, Drop)]
pub struct ShownField {
    pub name: Name,
    pub of: Name,
}

/// A signature as the written files show it.
#[derive(Debug, Drop)]
pub struct Shown {
    pub name: Name,
    pub command: Command,
    pub text: List<u8>,
    pub params: List<ShownField>,
    pub columns: List<ShownField>,
}
