//! The rows of built-in operators, functions and aggregates.

use crate::types::show_type;
use case_files::Subject;
use sq_builtin::{Kind, Pattern, Row, Shape, known, rows};
use std::alloc::{AllocError, Global};

/// Writes what an input of a row takes.
fn show_pattern(text: &mut String, pattern: Pattern) -> Result<(), AllocError> {
    match pattern {
        Pattern::Is(of) => show_type(text, of),
        Pattern::AnyArray => text.push_str("anyarray"),
        Pattern::AnyElement => text.push_str("anyelement"),
        Pattern::AnyNonArray => text.push_str("anynonarray"),
        Pattern::AnyEnum => text.push_str("anyenum"),
        Pattern::Any => text.push_str("any"),
    }
}

/// Writes the inputs of a row in brackets.
pub fn show_inputs(text: &mut String, inputs: &[Pattern]) -> Result<(), AllocError> {
    let mut before = "(";
    for &pattern in inputs {
        text.push_str(before)?;
        show_pattern(text, pattern)?;
        before = ", ";
    }
    text.push_str(if inputs.is_empty() { "()" } else { ")" })
}

/// Writes a row: its kind, name, inputs and result, and its marks.
fn show_row(text: &mut String, row: Row) -> Result<(), AllocError> {
    text.push_str(match row.kind {
        Kind::Operator => "operator ",
        Kind::Function => "function ",
        Kind::Aggregate => "aggregate ",
    })?;
    text.push_str(row.name)?;
    show_inputs(text, row.inputs)?;
    text.push_str(" gives ")?;
    match row.result {
        Shape::Is(of) => show_type(text, of)?,
        Shape::SameArray => text.push_str("the array")?,
        Shape::SameElement => text.push_str("the element")?,
        Shape::ArrayOf => text.push_str("an array of it")?,
    }
    if row.strict {
        text.push_str(", strict")?;
    }
    if row.may_null {
        text.push_str(", may be null")?;
    }
    Ok(())
}

/// Writes the row at a place among those of a name and a count of inputs.
fn show_row_at(text: &mut String, found: &[Row], place: &str) -> Result<(), AllocError> {
    let Ok(place) = place.parse::<usize>() else {
        return text.push_str("no place");
    };
    match found.get(place) {
        Some(row) => show_row(text, *row),
        None => text.push_str("no row"),
    }
}

/// Writes how many rows there are.
fn show_count(alloc: Global, text: &mut String, count: usize) -> Result<(), AllocError> {
    text.push_str(format!(in alloc; "{count}")?.as_str())?;
    text.push_str(if count == 1 { " row" } else { " rows" })
}

/// Writes what is known of a line: a name, a count of inputs and a place.
fn show_line(alloc: Global, text: &mut String, line: &str) -> Result<(), AllocError> {
    let mut words = line.split(' ');
    let name = words.next().unwrap_or("");
    let Some(count) = words.next() else {
        return text.push_str(if known(name) { "known" } else { "not known" });
    };
    let Ok(count) = count.parse::<usize>() else {
        return text.push_str("no count");
    };
    let found = rows(name, count);
    match words.next() {
        Some(place) => show_row_at(text, found, place),
        None => show_count(alloc, text, found.len()),
    }
}

/// Lines. A name is answered by whether it is known as that of a function or aggregate; a name and
/// a count of inputs by how many rows they have; with a place behind them, by the row at it.
#[derive(Drop)]
pub struct Rows;

impl Subject for Rows {
    fn answer(&mut self, alloc: Global, input: &str) -> Result<String, AllocError> {
        let mut text = String::new(alloc);
        for line in input.lines() {
            text.push_str(line)?;
            text.push_str(": ")?;
            show_line(alloc, &mut text, line)?;
            text.push('\n')?;
        }
        Ok(text)
    }
}
