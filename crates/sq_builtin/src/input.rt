//! What an input takes, in the short words of the table.

use crate::row::Pattern;
use sq_base::{PgType, Scalar};

pub const INT2: Pattern = Pattern::Is(PgType {
    scalar: Scalar::SmallInt,
    array: false,
});

pub const INT4: Pattern = Pattern::Is(PgType {
    scalar: Scalar::Integer,
    array: false,
});

pub const INT8: Pattern = Pattern::Is(PgType {
    scalar: Scalar::BigInt,
    array: false,
});

pub const FLOAT4: Pattern = Pattern::Is(PgType {
    scalar: Scalar::Real,
    array: false,
});

pub const FLOAT8: Pattern = Pattern::Is(PgType {
    scalar: Scalar::DoublePrecision,
    array: false,
});

pub const NUM: Pattern = Pattern::Is(PgType {
    scalar: Scalar::Numeric,
    array: false,
});

pub const BOOL: Pattern = Pattern::Is(PgType {
    scalar: Scalar::Boolean,
    array: false,
});

pub const TEXT: Pattern = Pattern::Is(PgType {
    scalar: Scalar::Text,
    array: false,
});

pub const BPCHAR: Pattern = Pattern::Is(PgType {
    scalar: Scalar::Character,
    array: false,
});

pub const BYTEA: Pattern = Pattern::Is(PgType {
    scalar: Scalar::Bytea,
    array: false,
});

pub const DATE: Pattern = Pattern::Is(PgType {
    scalar: Scalar::Date,
    array: false,
});

pub const TIME: Pattern = Pattern::Is(PgType {
    scalar: Scalar::Time,
    array: false,
});

pub const TS: Pattern = Pattern::Is(PgType {
    scalar: Scalar::Timestamp,
    array: false,
});

pub const TSTZ: Pattern = Pattern::Is(PgType {
    scalar: Scalar::TimestampTz,
    array: false,
});

pub const IV: Pattern = Pattern::Is(PgType {
    scalar: Scalar::Interval,
    array: false,
});

pub const UUID: Pattern = Pattern::Is(PgType {
    scalar: Scalar::Uuid,
    array: false,
});

pub const JSON: Pattern = Pattern::Is(PgType {
    scalar: Scalar::Json,
    array: false,
});

pub const JSONB: Pattern = Pattern::Is(PgType {
    scalar: Scalar::Jsonb,
    array: false,
});

pub const INET: Pattern = Pattern::Is(PgType {
    scalar: Scalar::Opaque(sq_base::INET),
    array: false,
});

pub const CIDR: Pattern = Pattern::Is(PgType {
    scalar: Scalar::Opaque(sq_base::CIDR),
    array: false,
});

pub const MACADDR: Pattern = Pattern::Is(PgType {
    scalar: Scalar::Opaque(sq_base::MACADDR),
    array: false,
});

pub const CITEXT: Pattern = Pattern::Is(PgType {
    scalar: Scalar::Opaque(sq_base::CITEXT),
    array: false,
});

pub const MONEY: Pattern = Pattern::Is(PgType {
    scalar: Scalar::Opaque(sq_base::MONEY),
    array: false,
});

pub const TSVECTOR: Pattern = Pattern::Is(PgType {
    scalar: Scalar::Opaque(sq_base::TSVECTOR),
    array: false,
});

pub const LTREE: Pattern = Pattern::Is(PgType {
    scalar: Scalar::Opaque(sq_base::LTREE),
    array: false,
});

pub const HSTORE: Pattern = Pattern::Is(PgType {
    scalar: Scalar::Opaque(sq_base::HSTORE),
    array: false,
});

pub const TEXTS: Pattern = Pattern::Is(PgType {
    scalar: Scalar::Text,
    array: true,
});

pub const A: Pattern = Pattern::AnyArray;

pub const X: Pattern = Pattern::AnyElement;

pub const N: Pattern = Pattern::AnyNonArray;

pub const E: Pattern = Pattern::AnyEnum;

pub const Y: Pattern = Pattern::Any;
