//! The rows of functions and aggregates, by the count of their inputs.

use crate::group::Group;
use crate::row::{Kind, Row};
use crate::table::{is_strict, may_be_null, rows};
use crate::{input, output};

/// The functions and aggregates of no input.
pub const NONE: &[Group] = &[
    // of the clock and of chance
    rows!(Function never_null "now": () -> TSTZ),
    rows!(Function never_null "transaction_timestamp": () -> TSTZ),
    rows!(Function never_null "statement_timestamp": () -> TSTZ),
    rows!(Function never_null "clock_timestamp": () -> TSTZ),
    rows!(Function never_null "current_date": () -> DATE),
    rows!(Function never_null "current_timestamp": () -> TSTZ),
    rows!(Function never_null "localtimestamp": () -> TS),
    rows!(Function never_null "random": () -> FLOAT8),
    rows!(Function never_null "gen_random_uuid": () -> UUID),
    // of JSON
    rows!(Function never_null "json_build_object": () -> JSON),
    rows!(Function never_null "jsonb_build_object": () -> JSONB),
    // aggregates
    rows!(Aggregate never_null "count": () -> INT8),
];

/// The functions and aggregates of one input.
pub const ONE: &[Group] = &[
    // of texts and bytes
    rows!(Function strict "lower": (TEXT) -> TEXT),
    rows!(Function strict "upper": (TEXT) -> TEXT),
    rows!(Function strict "initcap": (TEXT) -> TEXT),
    rows!(Function strict "btrim": (TEXT) -> TEXT),
    rows!(Function strict "ltrim": (TEXT) -> TEXT),
    rows!(Function strict "rtrim": (TEXT) -> TEXT),
    rows!(Function strict "reverse": (TEXT) -> TEXT),
    rows!(Function strict "md5": (TEXT) -> TEXT, (BYTEA) -> TEXT),
    rows!(Function strict "length": (TEXT) -> INT4, (BPCHAR) -> INT4, (BYTEA) -> INT4),
    rows!(Function strict "octet_length": (TEXT) -> INT4, (BPCHAR) -> INT4, (BYTEA) -> INT4),
    rows!(Function strict "char_length": (TEXT) -> INT4, (BPCHAR) -> INT4),
    rows!(Function strict "sha256": (BYTEA) -> BYTEA),
    rows!(Function never_null "concat": (Y) -> TEXT),
    // of numbers
    rows!(Function strict "abs":
        (INT2) -> INT2,
        (INT4) -> INT4,
        (INT8) -> INT8,
        (FLOAT4) -> FLOAT4,
        (FLOAT8) -> FLOAT8,
        (NUM) -> NUM,
    ),
    rows!(Function strict "ceil": (NUM) -> NUM, (FLOAT8) -> FLOAT8),
    rows!(Function strict "ceiling": (NUM) -> NUM, (FLOAT8) -> FLOAT8),
    rows!(Function strict "floor": (NUM) -> NUM, (FLOAT8) -> FLOAT8),
    rows!(Function strict "sqrt": (NUM) -> NUM, (FLOAT8) -> FLOAT8),
    rows!(Function strict "round": (NUM) -> NUM, (FLOAT8) -> FLOAT8),
    // of dates and times
    rows!(Function strict "age": (TS) -> IV, (TSTZ) -> IV),
    rows!(Function strict "to_timestamp": (FLOAT8) -> TSTZ),
    rows!(Function strict_may_null "extract":
        (DATE) -> NUM,
        (TIME) -> NUM,
        (TS) -> NUM,
        (TSTZ) -> NUM,
        (IV) -> NUM,
    ),
    // of JSON and of arrays
    rows!(Function strict "to_json": (X) -> JSON),
    rows!(Function strict "to_jsonb": (X) -> JSONB),
    rows!(Function strict "json_typeof": (JSON) -> TEXT),
    rows!(Function strict "jsonb_typeof": (JSONB) -> TEXT),
    rows!(Function strict "json_array_length": (JSON) -> INT4),
    rows!(Function strict "jsonb_array_length": (JSONB) -> INT4),
    rows!(Function strict "cardinality": (A) -> INT4),
    // aggregates
    rows!(Aggregate never_null "count": (Y) -> INT8),
    rows!(Aggregate strict "sum":
        (INT2) -> INT8,
        (INT4) -> INT8,
        (INT8) -> NUM,
        (FLOAT4) -> FLOAT4,
        (FLOAT8) -> FLOAT8,
        (NUM) -> NUM,
        (IV) -> IV,
    ),
    rows!(Aggregate strict "avg":
        (INT2) -> NUM,
        (INT4) -> NUM,
        (INT8) -> NUM,
        (NUM) -> NUM,
        (FLOAT4) -> FLOAT8,
        (FLOAT8) -> FLOAT8,
        (IV) -> IV,
    ),
    rows!(Aggregate strict "min":
        (INT2) -> INT2,
        (INT4) -> INT4,
        (INT8) -> INT8,
        (FLOAT4) -> FLOAT4,
        (FLOAT8) -> FLOAT8,
        (NUM) -> NUM,
        (TEXT) -> TEXT,
        (BPCHAR) -> BPCHAR,
        (DATE) -> DATE,
        (TIME) -> TIME,
        (TS) -> TS,
        (TSTZ) -> TSTZ,
        (IV) -> IV,
        (E) -> X,
        (A) -> A,
    ),
    rows!(Aggregate strict "max":
        (INT2) -> INT2,
        (INT4) -> INT4,
        (INT8) -> INT8,
        (FLOAT4) -> FLOAT4,
        (FLOAT8) -> FLOAT8,
        (NUM) -> NUM,
        (TEXT) -> TEXT,
        (BPCHAR) -> BPCHAR,
        (DATE) -> DATE,
        (TIME) -> TIME,
        (TS) -> TS,
        (TSTZ) -> TSTZ,
        (IV) -> IV,
        (E) -> X,
        (A) -> A,
    ),
    rows!(Aggregate strict "bool_and": (BOOL) -> BOOL),
    rows!(Aggregate strict "bool_or": (BOOL) -> BOOL),
    rows!(Aggregate strict "every": (BOOL) -> BOOL),
    rows!(Aggregate strict "array_agg": (N) -> ARRAY),
    rows!(Aggregate strict "json_agg": (Y) -> JSON),
    rows!(Aggregate strict "jsonb_agg": (Y) -> JSONB),
];

/// The functions and aggregates of two inputs.
pub const TWO: &[Group] = &[
    // of texts and bytes
    rows!(Function strict "substr": (TEXT, INT4) -> TEXT, (BYTEA, INT4) -> BYTEA),
    rows!(Function strict "substring": (TEXT, INT4) -> TEXT, (BYTEA, INT4) -> BYTEA),
    rows!(Function strict "left": (TEXT, INT4) -> TEXT),
    rows!(Function strict "right": (TEXT, INT4) -> TEXT),
    rows!(Function strict "repeat": (TEXT, INT4) -> TEXT),
    rows!(Function strict "lpad": (TEXT, INT4) -> TEXT),
    rows!(Function strict "rpad": (TEXT, INT4) -> TEXT),
    rows!(Function strict "strpos": (TEXT, TEXT) -> INT4),
    rows!(Function strict "starts_with": (TEXT, TEXT) -> BOOL),
    rows!(Function strict "encode": (BYTEA, TEXT) -> TEXT),
    rows!(Function strict "decode": (TEXT, TEXT) -> BYTEA),
    rows!(Function never_null "concat": (Y, Y) -> TEXT),
    // of numbers
    rows!(Function strict "round": (NUM, INT4) -> NUM),
    rows!(Function strict "power": (FLOAT8, FLOAT8) -> FLOAT8, (NUM, NUM) -> NUM),
    rows!(Function strict "mod":
        (INT2, INT2) -> INT2,
        (INT4, INT4) -> INT4,
        (INT8, INT8) -> INT8,
        (NUM, NUM) -> NUM,
    ),
    // of dates and times
    rows!(Function strict "date_trunc": (TEXT, TS) -> TS, (TEXT, TSTZ) -> TSTZ, (TEXT, IV) -> IV),
    rows!(Function strict "age": (TS, TS) -> IV, (TSTZ, TSTZ) -> IV),
    rows!(Function strict "timezone": (TEXT, TS) -> TSTZ, (TEXT, TSTZ) -> TS),
    rows!(Function strict_may_null "date_part":
        (TEXT, DATE) -> FLOAT8,
        (TEXT, TIME) -> FLOAT8,
        (TEXT, TS) -> FLOAT8,
        (TEXT, TSTZ) -> FLOAT8,
        (TEXT, IV) -> FLOAT8,
    ),
    rows!(Function strict_may_null "to_char":
        (TS, TEXT) -> TEXT,
        (TSTZ, TEXT) -> TEXT,
        (IV, TEXT) -> TEXT,
        (INT4, TEXT) -> TEXT,
        (INT8, TEXT) -> TEXT,
        (NUM, TEXT) -> TEXT,
        (FLOAT8, TEXT) -> TEXT,
    ),
    rows!(Function strict_may_null "to_timestamp": (TEXT, TEXT) -> TSTZ),
    rows!(Function strict_may_null "to_date": (TEXT, TEXT) -> DATE),
    // of JSON and of arrays
    rows!(Function never_null "json_build_object": (Y, Y) -> JSON),
    rows!(Function never_null "jsonb_build_object": (Y, Y) -> JSONB),
    rows!(Function strict_may_null "array_length": (A, INT4) -> INT4),
    rows!(Function may_null "array_append": (A, X) -> A),
    rows!(Function may_null "array_remove": (A, X) -> A),
    rows!(Function may_null "array_cat": (A, A) -> A),
    rows!(Function may_null "array_position": (A, X) -> INT4),
    rows!(Function may_null "array_to_string": (A, TEXT) -> TEXT),
    rows!(Function may_null "string_to_array": (TEXT, TEXT) -> TEXTS),
    // aggregates
    rows!(Aggregate strict "string_agg": (TEXT, TEXT) -> TEXT, (BYTEA, BYTEA) -> BYTEA),
    rows!(Aggregate strict "json_object_agg": (Y, Y) -> JSON),
    rows!(Aggregate strict "jsonb_object_agg": (Y, Y) -> JSONB),
];

/// The functions and aggregates of three inputs.
pub const THREE: &[Group] = &[
    // of texts and bytes
    rows!(Function strict "substr": (TEXT, INT4, INT4) -> TEXT, (BYTEA, INT4, INT4) -> BYTEA),
    rows!(Function strict "substring": (TEXT, INT4, INT4) -> TEXT, (BYTEA, INT4, INT4) -> BYTEA),
    rows!(Function strict "replace": (TEXT, TEXT, TEXT) -> TEXT),
    rows!(Function strict "lpad": (TEXT, INT4, TEXT) -> TEXT),
    rows!(Function strict "rpad": (TEXT, INT4, TEXT) -> TEXT),
    rows!(Function strict "split_part": (TEXT, TEXT, INT4) -> TEXT),
    rows!(Function strict "regexp_replace": (TEXT, TEXT, TEXT) -> TEXT),
    rows!(Function never_null "concat": (Y, Y, Y) -> TEXT),
    // of JSON
    rows!(Function strict_may_null "jsonb_set": (JSONB, TEXTS, JSONB) -> JSONB),
];

/// The functions and aggregates of four inputs.
pub const FOUR: &[Group] = &[
    // of texts
    rows!(Function strict "regexp_replace": (TEXT, TEXT, TEXT, TEXT) -> TEXT),
    rows!(Function never_null "concat": (Y, Y, Y, Y) -> TEXT),
    // of JSON
    rows!(Function strict_may_null "jsonb_set": (JSONB, TEXTS, JSONB, BOOL) -> JSONB),
    rows!(Function never_null "json_build_object": (Y, Y, Y, Y) -> JSON),
    rows!(Function never_null "jsonb_build_object": (Y, Y, Y, Y) -> JSONB),
];

/// The functions and aggregates of five inputs.
pub const FIVE: &[Group] = &[
    // of texts
    rows!(Function never_null "concat": (Y, Y, Y, Y, Y) -> TEXT),
];

/// The functions and aggregates of six inputs.
pub const SIX: &[Group] = &[
    // of texts and of JSON
    rows!(Function never_null "concat": (Y, Y, Y, Y, Y, Y) -> TEXT),
    rows!(Function never_null "json_build_object": (Y, Y, Y, Y, Y, Y) -> JSON),
    rows!(Function never_null "jsonb_build_object": (Y, Y, Y, Y, Y, Y) -> JSONB),
];

/// The functions and aggregates of seven inputs.
pub const SEVEN: &[Group] = &[
    // of texts
    rows!(Function never_null "concat": (Y, Y, Y, Y, Y, Y, Y) -> TEXT),
];

/// The functions and aggregates of eight inputs.
pub const EIGHT: &[Group] = &[
    // of texts and of JSON
    rows!(Function never_null "concat": (Y, Y, Y, Y, Y, Y, Y, Y) -> TEXT),
    rows!(Function never_null "json_build_object": (Y, Y, Y, Y, Y, Y, Y, Y) -> JSON),
    rows!(Function never_null "jsonb_build_object": (Y, Y, Y, Y, Y, Y, Y, Y) -> JSONB),
];

/// The functions and aggregates of ten inputs.
pub const TEN: &[Group] = &[
    // of JSON
    rows!(Function never_null "json_build_object": (Y, Y, Y, Y, Y, Y, Y, Y, Y, Y) -> JSON),
    rows!(Function never_null "jsonb_build_object": (Y, Y, Y, Y, Y, Y, Y, Y, Y, Y) -> JSONB),
];

/// The functions and aggregates of twelve inputs.
pub const TWELVE: &[Group] = &[
    // of JSON
    rows!(Function never_null "json_build_object": (Y, Y, Y, Y, Y, Y, Y, Y, Y, Y, Y, Y) -> JSON),
    rows!(Function never_null "jsonb_build_object": (Y, Y, Y, Y, Y, Y, Y, Y, Y, Y, Y, Y) -> JSONB),
];

/// The functions and aggregates of fourteen inputs.
pub const FOURTEEN: &[Group] = &[
    // of JSON
    rows!(Function never_null "json_build_object":
        (Y, Y, Y, Y, Y, Y, Y, Y, Y, Y, Y, Y, Y, Y) -> JSON,
    ),
    rows!(Function never_null "jsonb_build_object":
        (Y, Y, Y, Y, Y, Y, Y, Y, Y, Y, Y, Y, Y, Y) -> JSONB,
    ),
];

/// The functions and aggregates of sixteen inputs.
pub const SIXTEEN: &[Group] = &[
    // of JSON
    rows!(Function never_null "json_build_object":
        (Y, Y, Y, Y, Y, Y, Y, Y, Y, Y, Y, Y, Y, Y, Y, Y) -> JSON,
    ),
    rows!(Function never_null "jsonb_build_object":
        (Y, Y, Y, Y, Y, Y, Y, Y, Y, Y, Y, Y, Y, Y, Y, Y) -> JSONB,
    ),
];
