use sq_syntax::{Moment, Pool};

/// How a primary goes on that begins with a symbol.
#[derive(Clone, Copy, Debug, PartialEq, Eq)]
pub enum Start {
    True,
    False,
    Null,
    Moment(Moment),
    Brackets,
    Exists,
    Array,
    Case,
    Cast,
    /// A name where no bracket follows, as the next two are.
    Pooled(Pool),
    NullIf,
    Extract,
    Sqlc,
    /// A name where a bracket follows.
    Side,
    Named,
    Nothing,
}
