/// A category of types (PostgreSQL manual, chapter 10 and the page of `pg_type`).
#[derive(Clone, Copy, Debug, PartialEq, Eq)]
pub enum Category {
    /// N: numbers.
    Numbers,
    /// B: truth values.
    Booleans,
    /// S: strings.
    Strings,
    /// U: types with no category of their own.
    UserDefined,
    /// D: dates and times.
    DatesAndTimes,
    /// T: spans of time.
    Timespans,
    /// E: enumerations.
    Enumerations,
    /// A: arrays.
    Arrays,
}

/// How a type converts to another (PostgreSQL manual, the page of CREATE CAST).
#[derive(Clone, Copy, Debug, PartialEq, Eq)]
pub enum Cast {
    /// The two are one type.
    Same,
    /// It converts in every context.
    Implicit,
    /// It converts where a value is assigned to a column, and by an explicit cast.
    Assignment,
    /// It converts by an explicit cast alone.
    Explicit,
    /// It does not convert.
    Nothing,
}
