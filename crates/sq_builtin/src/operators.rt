//! The rows of operators.

use crate::group::Group;
use crate::row::{Kind, Row};
use crate::table::{is_strict, may_be_null, rows};
use crate::{input, output};

// A comparison, with the types that have it beside those that have every comparison.
macro_rules! comparison {
    ($name:literal $(, $of:ident)*) => {
        rows!(Operator strict $name:
            (INT2, INT2) -> BOOL,
            (INT4, INT4) -> BOOL,
            (INT8, INT8) -> BOOL,
            (FLOAT4, FLOAT4) -> BOOL,
            (FLOAT8, FLOAT8) -> BOOL,
            (NUM, NUM) -> BOOL,
            (TEXT, TEXT) -> BOOL,
            (BPCHAR, BPCHAR) -> BOOL,
            (BYTEA, BYTEA) -> BOOL,
            (BOOL, BOOL) -> BOOL,
            (UUID, UUID) -> BOOL,
            (JSONB, JSONB) -> BOOL,
            (DATE, DATE) -> BOOL,
            (TIME, TIME) -> BOOL,
            (TS, TS) -> BOOL,
            (TSTZ, TSTZ) -> BOOL,
            (IV, IV) -> BOOL,
            (INT2, INT4) -> BOOL,
            (INT2, INT8) -> BOOL,
            (INT4, INT2) -> BOOL,
            (INT4, INT8) -> BOOL,
            (INT8, INT2) -> BOOL,
            (INT8, INT4) -> BOOL,
            (FLOAT4, FLOAT8) -> BOOL,
            (FLOAT8, FLOAT4) -> BOOL,
            (DATE, TS) -> BOOL,
            (DATE, TSTZ) -> BOOL,
            (TS, DATE) -> BOOL,
            (TS, TSTZ) -> BOOL,
            (TSTZ, DATE) -> BOOL,
            (TSTZ, TS) -> BOOL,
            (E, E) -> BOOL,
            (A, A) -> BOOL,
            $(($of, $of) -> BOOL,)*
        )
    };
}

// An equation: a comparison that some types have alone.
macro_rules! equation {
    ($name:literal) => {
        comparison!($name, INET, CIDR, MACADDR, CITEXT, MONEY, TSVECTOR, LTREE, HSTORE)
    };
}

// A pattern match that bytes have too.
macro_rules! like {
    ($name:literal) => {
        rows!(Operator strict $name:
            (TEXT, TEXT) -> BOOL,
            (BPCHAR, TEXT) -> BOOL,
            (BYTEA, BYTEA) -> BOOL,
        )
    };
}

// A pattern match of texts.
macro_rules! pattern_match {
    ($name:literal) => {
        rows!(Operator strict $name: (TEXT, TEXT) -> BOOL, (BPCHAR, TEXT) -> BOOL)
    };
}

// Arithmetic, with the rows that are not of numbers.
macro_rules! arithmetic {
    ($name:literal: $(($one:ident, $other:ident) -> $result:ident),* $(,)?) => {
        rows!(Operator strict $name:
            (INT2, INT2) -> INT2,
            (INT4, INT4) -> INT4,
            (INT8, INT8) -> INT8,
            (FLOAT4, FLOAT4) -> FLOAT4,
            (FLOAT8, FLOAT8) -> FLOAT8,
            (NUM, NUM) -> NUM,
            (INT2, INT4) -> INT4,
            (INT2, INT8) -> INT8,
            (INT4, INT2) -> INT4,
            (INT4, INT8) -> INT8,
            (INT8, INT2) -> INT8,
            (INT8, INT4) -> INT8,
            (FLOAT4, FLOAT8) -> FLOAT8,
            (FLOAT8, FLOAT4) -> FLOAT8,
            $(($one, $other) -> $result,)*
        )
    };
}

/// The operators before an operand.
pub const UNARY: &[Group] = &[
    rows!(Operator strict "-":
        (INT2) -> INT2,
        (INT4) -> INT4,
        (INT8) -> INT8,
        (FLOAT4) -> FLOAT4,
        (FLOAT8) -> FLOAT8,
        (NUM) -> NUM,
        (IV) -> IV,
    ),
    rows!(Operator strict "+":
        (INT2) -> INT2,
        (INT4) -> INT4,
        (INT8) -> INT8,
        (FLOAT4) -> FLOAT4,
        (FLOAT8) -> FLOAT8,
        (NUM) -> NUM,
    ),
];

/// The binary operators that begin with `=`.
pub const EQUAL: &[Group] = &[equation!("=")];

/// The binary operators that begin with `<`.
pub const LESS: &[Group] = &[
    equation!("<>"),
    comparison!("<"),
    comparison!("<="),
    rows!(Operator strict "<@": (JSONB, JSONB) -> BOOL, (A, A) -> BOOL),
];

/// The binary operators that begin with `>`.
pub const GREATER: &[Group] = &[comparison!(">"), comparison!(">=")];

/// The binary operators that begin with `+` or `-`.
pub const SUMS: &[Group] = &[
    arithmetic!("+":
        (DATE, INT4) -> DATE,
        (INT4, DATE) -> DATE,
        (DATE, IV) -> TS,
        (IV, DATE) -> TS,
        (DATE, TIME) -> TS,
        (TIME, DATE) -> TS,
        (TS, IV) -> TS,
        (IV, TS) -> TS,
        (TSTZ, IV) -> TSTZ,
        (IV, TSTZ) -> TSTZ,
        (TIME, IV) -> TIME,
        (IV, TIME) -> TIME,
        (IV, IV) -> IV,
    ),
    arithmetic!("-":
        (DATE, INT4) -> DATE,
        (DATE, DATE) -> INT4,
        (DATE, IV) -> TS,
        (TS, TS) -> IV,
        (TSTZ, TSTZ) -> IV,
        (TS, IV) -> TS,
        (TSTZ, IV) -> TSTZ,
        (TIME, TIME) -> IV,
        (TIME, IV) -> TIME,
        (IV, IV) -> IV,
        (JSONB, TEXT) -> JSONB,
        (JSONB, INT4) -> JSONB,
    ),
    rows!(Operator strict_may_null "->":
        (JSON, TEXT) -> JSON,
        (JSON, INT4) -> JSON,
        (JSONB, TEXT) -> JSONB,
        (JSONB, INT4) -> JSONB,
    ),
    rows!(Operator strict_may_null "->>":
        (JSON, TEXT) -> TEXT,
        (JSON, INT4) -> TEXT,
        (JSONB, TEXT) -> TEXT,
        (JSONB, INT4) -> TEXT,
    ),
];

/// The binary operators that begin with `*`, `/`, `%` or `^`.
pub const PRODUCTS: &[Group] = &[
    arithmetic!("*": (IV, FLOAT8) -> IV, (FLOAT8, IV) -> IV),
    arithmetic!("/": (IV, FLOAT8) -> IV),
    rows!(Operator strict "%":
        (INT2, INT2) -> INT2,
        (INT4, INT4) -> INT4,
        (INT8, INT8) -> INT8,
        (NUM, NUM) -> NUM,
    ),
    rows!(Operator strict "^": (FLOAT8, FLOAT8) -> FLOAT8, (NUM, NUM) -> NUM),
];

/// Every other binary operator.
pub const MATCHES: &[Group] = &[
    like!("~~"),
    like!("!~~"),
    pattern_match!("~~*"),
    pattern_match!("!~~*"),
    pattern_match!("~"),
    pattern_match!("~*"),
    pattern_match!("!~"),
    pattern_match!("!~*"),
    rows!(Operator strict "@>": (JSONB, JSONB) -> BOOL, (A, A) -> BOOL),
    rows!(Operator strict "&&": (A, A) -> BOOL),
    rows!(Operator strict "?": (JSONB, TEXT) -> BOOL),
    rows!(Operator strict "?|": (JSONB, TEXTS) -> BOOL),
    rows!(Operator strict "?&": (JSONB, TEXTS) -> BOOL),
    rows!(Operator strict "||":
        (TEXT, TEXT) -> TEXT,
        (TEXT, N) -> TEXT,
        (N, TEXT) -> TEXT,
        (BYTEA, BYTEA) -> BYTEA,
        (JSONB, JSONB) -> JSONB,
    ),
    rows!(Operator strict_may_null "#>": (JSON, TEXTS) -> JSON, (JSONB, TEXTS) -> JSONB),
    rows!(Operator strict_may_null "#>>": (JSON, TEXTS) -> TEXT, (JSONB, TEXTS) -> TEXT),
];
