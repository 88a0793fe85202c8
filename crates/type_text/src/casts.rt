//! The categories of types, and the casts between them.

use crate::types::{show_type, type_named};
use case_files::Subject;
use sq_base::{Cast, Category, PgType, cast, category, is_base, preferred};
use std::alloc::{AllocError, Global};

/// The types that casts are shown to.
const TARGETS: [&str; 36] = [
    "smallint",
    "integer",
    "bigint",
    "real",
    "double precision",
    "numeric",
    "boolean",
    "text",
    "varchar",
    "character",
    "bytea",
    "date",
    "time",
    "timestamp",
    "timestamptz",
    "interval",
    "uuid",
    "json",
    "jsonb",
    "inet",
    "cidr",
    "macaddr",
    "citext",
    "xml",
    "money",
    "point",
    "tsvector",
    "ltree",
    "hstore",
    "mood",
    "colour",
    "integer[]",
    "bigint[]",
    "text[]",
    "citext[]",
    "mood[]",
];

/// Writes the category of a type, and whether it is the preferred type of it.
fn show_category(text: &mut String, of: PgType) -> Result<(), AllocError> {
    if !is_base(of) {
        return text.push_str("no category\n");
    }
    let name = match category(of) {
        Category::Numbers => "numbers",
        Category::Booleans => "booleans",
        Category::Strings => "strings",
        Category::UserDefined => "no category of its own",
        Category::DatesAndTimes => "dates and times",
        Category::Timespans => "timespans",
        Category::Enumerations => "enumerations",
        Category::Arrays => "arrays",
    };
    text.push_str(name)?;
    text.push_str(if preferred(of) { ", preferred\n" } else { "\n" })
}

/// Writes the types that a type converts to in one way, or nothing where there is none.
fn show_casts(text: &mut String, way: &str, from: PgType, how: Cast) -> Result<(), AllocError> {
    let mut is_first = true;
    for target in TARGETS {
        if let Some(to) = type_named(target) {
            if is_base(from) && is_base(to) && cast(from, to) == how {
                text.push_str(if is_first { way } else { ", " })?;
                show_type(text, to)?;
                is_first = false;
            }
        }
    }
    text.push_str(if is_first { "" } else { "\n" })
}

/// A type, answered by its category and by the types that it converts to in each way.
#[derive(Drop)]
pub struct Casts;

impl Subject for Casts {
    fn answer(&mut self, alloc: Global, input: &str) -> Result<String, AllocError> {
        let Some(from) = type_named(input.trim_end()) else {
            return String::from_str(alloc, "no type");
        };
        let mut text = String::new(alloc);
        show_category(&mut text, from)?;
        show_casts(&mut text, "same: ", from, Cast::Same)?;
        show_casts(&mut text, "implicit: ", from, Cast::Implicit)?;
        show_casts(&mut text, "assignment: ", from, Cast::Assignment)?;
        show_casts(&mut text, "explicit: ", from, Cast::Explicit)?;
        show_casts(&mut text, "none: ", from, Cast::Nothing)?;
        Ok(text)
    }
}
