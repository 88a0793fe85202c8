/// A type of PostgreSQL: a scalar type, or an array of one.
#[derive(Clone, Copy, Debug, PartialEq, Eq)]
pub struct PgType {
    pub scalar: Scalar,
    pub array: bool,
}

/// A type that is no array (PostgreSQL manual, chapter 8).
#[derive(Clone, Copy, Debug, PartialEq, Eq)]
pub enum Scalar {
    SmallInt,
    Integer,
    BigInt,
    Real,
    DoublePrecision,
    Numeric,
    Boolean,
    Text,
    Varchar,
    Character,
    Bytea,
    Date,
    Time,
    Timestamp,
    TimestampTz,
    Interval,
    Uuid,
    Json,
    Jsonb,
    /// A type of which nothing is known but its name, by its place in the list of those types.
    Opaque(u8),
    /// An enumeration, by its id in the catalogue.
    Enum(u32),
    /// A domain, by its id in the catalogue.
    Domain(u32),
    /// The type of a constant or parameter that nothing has given a type yet.
    Unknown,
}

/// The place of inet in the list of types of which nothing is known but their name.
pub const INET: u8 = 0;
/// The place of cidr in that list.
pub const CIDR: u8 = 1;
/// The place of macaddr in that list.
pub const MACADDR: u8 = 2;
/// The place of citext in that list.
pub const CITEXT: u8 = 3;
/// The place of xml in that list.
pub const XML: u8 = 4;
/// The place of money in that list.
pub const MONEY: u8 = 5;
/// The place of point in that list.
pub const POINT: u8 = 6;
/// The place of tsvector in that list.
pub const TSVECTOR: u8 = 7;
/// The place of ltree in that list.
pub const LTREE: u8 = 8;
/// The place of hstore in that list.
pub const HSTORE: u8 = 9;
