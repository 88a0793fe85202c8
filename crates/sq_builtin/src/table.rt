//! How the table is written: `rows!(KIND MARK "name": (inputs) -> result, ..)`. The marks are
//! `strict` for what is null exactly where an input is null, `strict_may_null` for what may be null
//! elsewhere too, `never_null`, and `may_null` for what may be null whatever the inputs are. A strict
//! aggregate may be null where it has no row or an input of a row is null, and nowhere else.

macro_rules! is_strict {
    (strict) => {
        true
    };
    (strict_may_null) => {
        true
    };
    (never_null) => {
        false
    };
    (may_null) => {
        false
    };
}

macro_rules! may_be_null {
    (strict) => {
        false
    };
    (strict_may_null) => {
        true
    };
    (never_null) => {
        false
    };
    (may_null) => {
        true
    };
}

macro_rules! rows {
    ($kind:ident $mark:ident $name:literal: $(($($input:ident),*) -> $result:ident),* $(,)?) => {
        Group {
            name: $name,
            rows: &[$(Row {
                name: $name,
                inputs: &[$(input::$input),*],
                result: output::$result,
                strict: is_strict!($mark),
                may_null: may_be_null!($mark),
                kind: Kind::$kind,
            }),*],
        }
    };
}

pub(crate) use is_strict;
pub(crate) use may_be_null;
pub(crate) use rows;
