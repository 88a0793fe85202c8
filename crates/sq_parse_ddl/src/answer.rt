//! All the tokens of a schema statement.

ghost use Rattle.std.specs.Prelude.{◌≡◌};
ghost use Rattle.sq_parse_ddl.specs.Answers.{AnswersDdl};

use crate::passed_over::is_passed_over;
use crate::whole::ddl_of;
use sq_base::{Code, Fault};
use sq_lexemes::error::ParseError;
use sq_lexemes::lexemes::lexemes;
use sq_lexemes::prepare::{exceeded, refused};
use sq_syntax::{Ddl, Token};
use sqlite_items::Boxed;
use std::alloc::Global;

/// The schema statement that all of the tokens spell (PostgreSQL manual, CREATE SCHEMA, CREATE
/// TABLE, CREATE TYPE, CREATE DOMAIN, DROP and ALTER), and None for a statement that its leading
/// words tell to change nothing that queries see, whatever stands behind them.
///
/// Refused at the first token, where it is not passed over: [4] more than 16,384 tokens; [5]
/// brackets and CASE that nest more than 64 deep; [6] tokens that spell no schema statement.
#[tactic(auto, using(sq_lexemes::proofs::Bounds::few, crate::proofs::Exactly::read, crate::proofs::Exactly::not_read))]
pub fn ddl(alloc: Global, tokens: &[Token]) -> Result<Option<Boxed<Ddl>>, Fault>
    ensures { AnswersDdl tokens.now result }
{
    let found = lexemes(alloc, tokens)?;
    if is_passed_over(found.as_slice()) {
        return Ok(None);
    }
    if let Some(code) = exceeded(tokens, found.as_slice()) {
        return Err(refused(alloc, code, tokens));
    }
    match ddl_of(alloc, found.as_slice()) {
        Ok(found) => Ok(Some(found)),
        Err(ParseError::Syntax) => Err(refused(alloc, Code::Syntax, tokens)),
        Err(ParseError::Memory) => Err(Fault::Memory),
    }
}
