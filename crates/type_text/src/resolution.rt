//! The resolution of operators and calls, and the common types of lists.

use crate::rows::show_inputs;
use crate::types::{show_type, types_named};
use case_files::Subject;
use sq_base::{PgType, Scalar};
use sq_builtin::{Kind, Pattern, Row, Shape, rows};
use sq_overload::{Common, Picked, common, has_no_domain, has_no_domain_unless_one, pick};
use std::alloc::{AllocError, Global};

const INTEGER: PgType = PgType {
    scalar: Scalar::Integer,
    array: false,
};

const SMALLINT: PgType = PgType {
    scalar: Scalar::SmallInt,
    array: false,
};

/// A function of two rows, of which the last assumption alone decides.
const ASSUMED: &[Row] = &[
    Row {
        name: "assumed",
        inputs: &[Pattern::Is(INTEGER), Pattern::Is(SMALLINT)],
        result: Shape::Is(INTEGER),
        strict: true,
        may_null: false,
        kind: Kind::Function,
    },
    Row {
        name: "assumed",
        inputs: &[Pattern::Is(INTEGER), Pattern::Is(INTEGER)],
        result: Shape::Is(INTEGER),
        strict: true,
        may_null: false,
        kind: Kind::Function,
    },
];

/// The rows of a name: those of `assumed` are the cases' own.
fn candidates(name: &str, count: usize) -> &'static [Row] {
    if name == "assumed" {
        ASSUMED
    } else {
        rows(name, count)
    }
}

/// Writes the inputs of the row that a call takes, or why it takes none.
fn show_picked(text: &mut String, name: &str, args: &[PgType]) -> Result<(), AllocError> {
    let rows = candidates(name, args.len());
    if rows.len() > 128 {
        return text.push_str("too many rows");
    }
    if !has_no_domain(args) {
        return text.push_str("a domain");
    }
    match pick(rows, args) {
        Picked::One(place) => match rows.get(place) {
            Some(row) => show_inputs(text, row.inputs),
            None => text.push_str("no such row"),
        },
        Picked::Nothing => text.push_str("no row"),
        Picked::Several => text.push_str("several rows"),
    }
}

/// Writes what is picked for a call: a name, and the types of the arguments in brackets.
fn show_call(alloc: Global, text: &mut String, call: &str) -> Result<(), AllocError> {
    let Some((name, list)) = call.split_once('(') else {
        return text.push_str("no call");
    };
    match types_named(alloc, list.strip_suffix(')').unwrap_or(list))? {
        Some(args) => show_picked(text, name, args.as_slice()),
        None => text.push_str("no type"),
    }
}

/// Calls, one a line: each is answered by the inputs of the row that it takes.
#[derive(Drop)]
pub struct Resolution;

impl Subject for Resolution {
    fn answer(&mut self, alloc: Global, input: &str) -> Result<String, AllocError> {
        let mut text = String::new(alloc);
        for line in input.lines() {
            text.push_str(line)?;
            text.push_str(" takes ")?;
            show_call(alloc, &mut text, line)?;
            text.push('\n')?;
        }
        Ok(text)
    }
}

/// Writes the common type of a list, or the two types that differ.
fn show_common(text: &mut String, types: &[PgType]) -> Result<(), AllocError> {
    if !has_no_domain_unless_one(types) {
        return text.push_str("a domain beside other types");
    }
    match common(types) {
        Common::Agreed(of) => show_type(text, of),
        Common::Differ(candidate, other) => {
            show_type(text, candidate)?;
            text.push_str(" and ")?;
            show_type(text, other)?;
            text.push_str(" differ")
        }
    }
}

/// Lists of types, one a line: each is answered by their common type.
#[derive(Drop)]
pub struct CommonTypes;

impl Subject for CommonTypes {
    fn answer(&mut self, alloc: Global, input: &str) -> Result<String, AllocError> {
        let mut text = String::new(alloc);
        for line in input.lines() {
            text.push_str(line)?;
            text.push_str(": ")?;
            match types_named(alloc, line)? {
                Some(types) => show_common(&mut text, types.as_slice())?,
                None => text.push_str("no type")?,
            }
            text.push('\n')?;
        }
        Ok(text)
    }
}
