//! The types of results, in the short words of the table.

use crate::row::Shape;
use sq_base::{PgType, Scalar};

pub const INT2: Shape = Shape::Is(PgType {
    scalar: Scalar::SmallInt,
    array: false,
});

pub const INT4: Shape = Shape::Is(PgType {
    scalar: Scalar::Integer,
    array: false,
});

pub const INT8: Shape = Shape::Is(PgType {
    scalar: Scalar::BigInt,
    array: false,
});

pub const FLOAT4: Shape = Shape::Is(PgType {
    scalar: Scalar::Real,
    array: false,
});

pub const FLOAT8: Shape = Shape::Is(PgType {
    scalar: Scalar::DoublePrecision,
    array: false,
});

pub const NUM: Shape = Shape::Is(PgType {
    scalar: Scalar::Numeric,
    array: false,
});

pub const BOOL: Shape = Shape::Is(PgType {
    scalar: Scalar::Boolean,
    array: false,
});

pub const TEXT: Shape = Shape::Is(PgType {
    scalar: Scalar::Text,
    array: false,
});

pub const BPCHAR: Shape = Shape::Is(PgType {
    scalar: Scalar::Character,
    array: false,
});

pub const BYTEA: Shape = Shape::Is(PgType {
    scalar: Scalar::Bytea,
    array: false,
});

pub const DATE: Shape = Shape::Is(PgType {
    scalar: Scalar::Date,
    array: false,
});

pub const TIME: Shape = Shape::Is(PgType {
    scalar: Scalar::Time,
    array: false,
});

pub const TS: Shape = Shape::Is(PgType {
    scalar: Scalar::Timestamp,
    array: false,
});

pub const TSTZ: Shape = Shape::Is(PgType {
    scalar: Scalar::TimestampTz,
    array: false,
});

pub const IV: Shape = Shape::Is(PgType {
    scalar: Scalar::Interval,
    array: false,
});

pub const UUID: Shape = Shape::Is(PgType {
    scalar: Scalar::Uuid,
    array: false,
});

pub const JSON: Shape = Shape::Is(PgType {
    scalar: Scalar::Json,
    array: false,
});

pub const JSONB: Shape = Shape::Is(PgType {
    scalar: Scalar::Jsonb,
    array: false,
});

pub const TEXTS: Shape = Shape::Is(PgType {
    scalar: Scalar::Text,
    array: true,
});

pub const A: Shape = Shape::SameArray;

pub const X: Shape = Shape::SameElement;

pub const ARRAY: Shape = Shape::ArrayOf;
