use sq_base::PgType;

/// What an input of a row takes (PostgreSQL manual, section 38.2.5, polymorphic types).
#[derive(Clone, Copy, Debug, PartialEq, Eq)]
pub enum Pattern {
    /// This type, and what converts to it.
    Is(PgType),
    /// Any array: `anyarray`.
    AnyArray,
    /// Any type: `anyelement`.
    AnyElement,
    /// Any type but an array: `anynonarray`.
    AnyNonArray,
    /// Any enumeration: `anyenum`.
    AnyEnum,
    /// Any type, whatever the other inputs are: `any`.
    Any,
}

/// The type of a row's result.
#[derive(Clone, Copy, Debug, PartialEq, Eq)]
pub enum Shape {
    /// This type.
    Is(PgType),
    /// The type of the array that is an input.
    SameArray,
    /// The type of the element, non-array or enumeration that is an input.
    SameElement,
    /// The array of the type of the element or non-array that is an input.
    ArrayOf,
}

/// What a row is of.
#[derive(Clone, Copy, Debug, PartialEq, Eq)]
pub enum Kind {
    Operator,
    Function,
    Aggregate,
}

/// One way to call a built-in operator, function or aggregate.
#[derive(Clone, Copy, Debug)]
pub struct Row {
    pub name: &'static str,
    pub inputs: &'static [Pattern],
    pub result: Shape,
    /// Whether the result is null where an input is. Of an aggregate, which may pass over nulls: whether the result may be
    /// null where there is no row, or an input of a row is null.
    pub strict: bool,
    /// Whether the result may be null where no input is, and an aggregate has a row.
    pub may_null: bool,
    pub kind: Kind,
}
