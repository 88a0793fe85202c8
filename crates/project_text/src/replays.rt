//! The replay of schema statements.

use crate::catalogue::show_catalogue;
use case_files::Subject;
use sq_base::{Fault, List, Refusal, limits};
use sq_catalog::Catalogue;
use sq_lexer::tokens;
use sq_migrate::replay;
use sq_parse_ddl::ddl;
use sq_syntax::{Ddl, Token, TokenKind};
use std::alloc::{AllocError, Global};

/// The catalogue that statements make, and then what was refused of them.
#[derive(Drop)]
pub struct Replays;

fn is_semicolon(token: &Token) -> bool {
    token.kind == TokenKind::Punct && token.bytes.as_slice() == b";".as_slice()
}

/// The statements of a text. A text that is too long has none.
pub fn statements(alloc: Global, text: &str) -> Result<List<Ddl>, Fault> {
    let mut read = List::new(alloc);
    if text.len() > limits::MOST_FILE_BYTES {
        return Ok(read);
    }
    let found = tokens(alloc, 0, text.as_bytes())?;
    for part in found.as_slice().split(is_semicolon) {
        if part.is_empty() {
            continue;
        }
        if let Some(statement) = ddl(alloc, part)? {
            read.push(statement.into_inner())?;
        }
    }
    Ok(read)
}

fn show_refusal(alloc: Global, text: &mut String, refusal: &Refusal) -> Result<(), AllocError> {
    let (place, code) = (&refusal.place, refusal.code);
    let line = format!(in alloc;
        "{}:{}: [{}] {} {}\n",
        place.line,
        place.column,
        code.number(),
        code.word(),
        refusal.first.as_str()
    )?;
    text.push_str(line.as_str())
}

fn replayed(alloc: Global, text: &mut String, statements: &List<Ddl>) -> Result<(), AllocError> {
    let mut catalogue = Catalogue::new(alloc)?;
    let refusals = replay(alloc, &mut catalogue, statements)?;
    show_catalogue(alloc, text, &catalogue)?;
    for refusal in refusals.as_slice() {
        show_refusal(alloc, text, refusal)?;
    }
    Ok(())
}

impl Subject for Replays {
    fn answer(&mut self, alloc: Global, input: &str) -> Result<String, AllocError> {
        let mut text = String::new(alloc);
        match statements(alloc, input) {
            Ok(statements) => replayed(alloc, &mut text, &statements)?,
            Err(Fault::Refused(refusal)) => show_refusal(alloc, &mut text, &refusal)?,
            Err(Fault::Memory) => return Err(AllocError),
        }
        Ok(text)
    }
}
