use sq_base::PgType;

/// What resolution picks among rows.
#[derive(Clone, Copy, Debug, PartialEq, Eq)]
pub enum Picked {
    /// The row at this place.
    One(usize),
    /// No row accepts the arguments.
    Nothing,
    /// Several rows do, and none of them is better.
    Several,
}

/// The common type of a list.
#[derive(Clone, Copy, Debug, PartialEq, Eq)]
pub enum Common {
    /// They have this type.
    Agreed(PgType),
    /// The candidate, and the first type that does not agree with it.
    Differ(PgType, PgType),
}
