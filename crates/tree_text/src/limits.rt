//! Long texts: whether they are read.

use crate::subjects::{no_tree, schema};
use crate::tokens::tokens_of;
use case_files::Subject;
use sq_base::Fault;
use sq_parse_expr::{expression, query};
use sq_parse_stmt::statement;
use sq_syntax::Token;
use std::alloc::{AllocError, Global};

/// Of an answer that is longer only the first word is shown.
const MOST_SHOWN: usize = 16;

/// Whether a text is read, or its refusal. The first line names what it is read as: `expression`,
/// `query`, `statement` or `schema statement`. Of the others a line `64 times TEXT` stands for 64 times
/// this text. Of the long short text of a schema statement only the first word is shown.
#[derive(Drop)]
pub struct Limits;

/// The text that the lines stand for.
fn written_out(alloc: Global, lines: &str) -> Result<String, AllocError> {
    let mut text = String::new(alloc);
    for line in lines.lines() {
        let (count, part) = line.split_once(" times ").unwrap_or(("1", line));
        for _turn in 0..count.parse::<u32>().unwrap_or(1) {
            text.push_str(part)?;
            text.push(' ')?;
        }
        text.push('\n')?;
    }
    Ok(text)
}

fn read<T: Drop>(alloc: Global, answer: Result<T, Fault>) -> Result<String, AllocError> {
    match answer {
        Ok(_) => String::from_str(alloc, "read"),
        Err(fault) => no_tree(alloc, &fault),
    }
}

/// The first word of a long text.
fn shortened(text: &str) -> &str {
    match text.split_once(' ') {
        Some((word, _)) if text.len() > MOST_SHOWN => word,
        _ => text,
    }
}

fn answer(alloc: Global, kind: &str, tokens: &[Token]) -> Result<String, AllocError> {
    match kind {
        "expression" => read(alloc, expression(alloc, tokens)),
        "query" => read(alloc, query(alloc, tokens)),
        "statement" => read(alloc, statement(alloc, tokens)),
        "schema statement" => {
            let shown = schema(alloc, tokens, false)?;
            String::from_str(alloc, shortened(shown.as_str()))
        }
        _ => String::from_str(alloc, "nothing is read as this"),
    }
}

impl Subject for Limits {
    fn answer(&mut self, alloc: Global, input: &str) -> Result<String, AllocError> {
        let (kind, lines) = input.split_once('\n').unwrap_or((input, ""));
        let text = written_out(alloc, lines)?;
        match tokens_of(alloc, text.as_bytes()) {
            Ok(found) => answer(alloc, kind, found.as_slice()),
            Err(fault) => no_tree(alloc, &fault),
        }
    }
}
