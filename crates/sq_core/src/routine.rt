use sq_base::{List, Name, PgType};

/// A row of the table of built-in operators, functions and aggregates as it was picked: the row's
/// name and marks, with the types that its inputs were given and the type of its result.
#[derive(Drop)]
pub struct Routine {
    pub name: Name,
    pub given: List<PgType>,
    pub of: PgType,
    /// Whether the result is null where an input is.
    pub strict: bool,
    /// Whether the result may be null where no input is.
    pub may_null: bool,
}

/// A column's place: how many queries out, which range of that query's FROM and which column of
/// it, each from 0. The merged columns of a FROM stand in one further range, the last.
#[derive(Clone, Copy, Debug, PartialEq, Eq)]
pub struct Slot {
    pub depth: usize,
    pub range: usize,
    pub column: usize,
}

/// How several truth values are joined.
#[derive(Clone, Copy, Debug, PartialEq, Eq)]
pub enum Junction {
    /// By OR.
    Any,
    /// By AND.
    All,
}

/// What IS asks of a truth value.
#[derive(Clone, Copy, Debug, PartialEq, Eq)]
pub enum Truth {
    True,
    False,
    Unknown,
}

/// Which of several values GREATEST and LEAST give.
#[derive(Clone, Copy, Debug, PartialEq, Eq)]
pub enum Extremum {
    Greatest,
    Least,
}

/// An operation over operands.
#[derive(Drop)]
pub enum Operation {
    /// A call of an operator or function over its inputs.
    Call(Routine),
    /// A cast of the one operand, from a type to a type.
    Convert(PgType, PgType),
    /// EXTRACT of a field, as its word is read, by its row over the one input.
    Extract(List<u8>, Routine),
    /// COLLATE with a collation, over an operand of this type.
    Collate(Name, PgType),
    And,
    Or,
    Not,
    /// CASE: each condition with its result behind it, and at the end the result of ELSE, where
    /// there is one. The results have this type.
    Case(PgType),
    /// CASE over a subject of this type, which is the first operand: each value with its result
    /// behind it, compared by its own row, and at the end the result of ELSE, where there is one.
    /// The results have the second type.
    Switch(PgType, List<Routine>, PgType),
    Coalesce(PgType),
    /// GREATEST and LEAST.
    Extreme(Extremum, PgType),
    /// NULLIF, with the row of `=`.
    NullIf(Routine),
    /// IS NULL, or IS NOT NULL where it is negated.
    NullTest(bool),
    /// IS TRUE and its like, negated or not.
    TruthTest(Truth, bool),
    /// IS DISTINCT FROM, negated or not, with the row of `=`.
    Distinct(Routine, bool),
    /// The first operand, of this type, compared with each of the others by its own row: IN over
    /// a list, and BETWEEN.
    InList(Junction, PgType, List<Routine>),
    /// BETWEEN SYMMETRIC: the first operand, of this type, compared with the second and third by the
    /// first two rows, or with the third and second by the last two.
    Symmetric(PgType, List<Routine>),
    /// `x operator ANY (array)` and ALL.
    AnyArray(Routine, Junction),
    /// ARRAY of operands of this type.
    ArrayList(PgType),
    /// `x[i]` with elements of this type.
    Subscript(PgType),
}

/// What is asked of a query inside an expression.
#[derive(Drop)]
pub enum Inner {
    Exists,
    /// The one value of the query's one column, of this type.
    Scalar(PgType),
    /// ARRAY over a query of one column of this type.
    ArrayQuery(PgType),
    /// `x operator ANY (query)` and ALL, and IN over a query: the operand, by the row.
    AnyQuery(Routine, Junction),
}

/// An aggregate as it was picked, and whether DISTINCT is written.
#[derive(Drop)]
pub struct Aggregation {
    pub routine: Routine,
    pub distinct: bool,
}

#[derive(Clone, Copy, Debug, PartialEq, Eq)]
pub enum JoinKind {
    Inner,
    Left,
    Right,
    Full,
}

/// A merged column of USING: where it stands in the two sides, with its type on the left, its type
/// on the right, and its own type.
#[derive(Clone, Copy, Debug, PartialEq, Eq)]
pub struct Merged {
    pub left: Slot,
    pub right: Slot,
    pub left_of: PgType,
    pub right_of: PgType,
    pub of: PgType,
}

/// A join, and the columns that its USING merges.
#[derive(Drop)]
pub struct Joining {
    pub kind: JoinKind,
    pub merged: List<Merged>,
}

/// The words of a SELECT.
#[derive(Clone, Copy, Debug, PartialEq, Eq)]
pub struct Manner {
    /// Whether all rows are one group where neither GROUP BY nor HAVING is written: an aggregate stands
    /// in an output or a key.
    pub grouped: bool,
    /// Whether DISTINCT or DISTINCT ON is written.
    pub distinct: bool,
    /// Whether ORDER BY is written.
    pub ordered: bool,
}

#[derive(Clone, Copy, Debug, PartialEq, Eq)]
pub enum SetKind {
    Union,
    Intersect,
    Except,
}

/// What a column of a side is converted from and to.
#[derive(Clone, Copy, Debug, PartialEq, Eq)]
pub struct Change {
    pub from: PgType,
    pub to: PgType,
}

/// A set operation over what stands before it and the next query, with each column's conversion on
/// either side.
#[derive(Drop)]
pub struct SetLink {
    pub kind: SetKind,
    /// Whether ALL is written.
    pub all: bool,
    pub left: List<Change>,
    pub right: List<Change>,
}
