//! All the tokens of a statement.

ghost use Rattle.std.specs.Prelude.{◌≡◌};
ghost use Rattle.sq_syntax.specs.Statements as syntax;
ghost use Rattle.sq_syntax.specs.Statements.{IsStatement};
ghost use Rattle.sq_lexemes.specs.Answers.{Answers};

use crate::statements::statement_of;
use sq_base::limits::MOST_HEIGHT;
use sq_base::{Code, Fault};
use sq_lexemes::error::ParseError;
use sq_lexemes::prepare::{prepared, refused};
use sq_statements::{HeldStatement, statement_height};
use sq_syntax::Token;
use std::alloc::Global;

/// The query, INSERT, UPDATE or DELETE that all of the tokens spell (PostgreSQL manual, SELECT,
/// INSERT, UPDATE and DELETE).
///
/// Refused at the first token: [4] more than 16,384 tokens; [5] brackets and CASE that nest more
/// than 64 deep; [6] tokens that spell no statement, DO UPDATE without a conflict target among
/// them; [7] a statement with an expression higher than 256.
pub fn statement(alloc: Global, tokens: &[Token]) -> Result<HeldStatement, Fault>
    ensures { Answers IsStatement syntax.statement_height tokens.now result }
{
    let lexemes = prepared(alloc, tokens)?;
    match statement_of(alloc, lexemes.as_slice()) {
        Ok(found) if statement_height(found.part()) <= MOST_HEIGHT => Ok(found),
        Ok(_) => Err(refused(alloc, Code::TooDeep, tokens)),
        Err(ParseError::Syntax) => Err(refused(alloc, Code::Syntax, tokens)),
        Err(ParseError::Memory) => Err(Fault::Memory),
    }
}
