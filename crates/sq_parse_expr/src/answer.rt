//! All the tokens of an expression or of a query.

ghost use Rattle.std.specs.Prelude.{◌≡◌};
ghost use Rattle.sq_syntax.specs.Grammar as grammar;
ghost use Rattle.sq_syntax.specs.Grammar.{IsExpression, IsQuery};
ghost use Rattle.sq_lexemes.specs.Answers.{Answers};

use crate::whole::{expression_at, query_at};
use sq_base::limits::{MOST_DEPTH, MOST_HEIGHT};
use sq_base::{Code, Fault};
use sq_lexemes::error::ParseError;
use sq_lexemes::prepare::{prepared, refused};
use sq_measures::{height, query_height};
use sq_parts::{HeldExpression, HeldQuery};
use sq_syntax::Token;
use std::alloc::Global;

/// The expression that all of the tokens spell (PostgreSQL manual, section 4.2).
///
/// Refused at the first token: [4] more than 16,384 tokens; [5] brackets and CASE that nest more
/// than 64 deep; [6] tokens that spell no expression; [7] an expression that is higher than 256.
#[tactic(auto, using(crate::proofs::Exactly::expression_found, crate::proofs::Exactly::no_expression, crate::proofs::Exactly::not_high, crate::proofs::Exactly::high))]
pub fn expression(alloc: Global, tokens: &[Token]) -> Result<HeldExpression, Fault>
    ensures { Answers IsExpression grammar.height tokens.now result }
{
    let lexemes = prepared(alloc, tokens)?;
    match expression_at(alloc, lexemes.as_slice(), MOST_DEPTH + 1) {
        Ok(found) if height(found.part()) <= MOST_HEIGHT => Ok(found),
        Ok(_) => Err(refused(alloc, Code::TooDeep, tokens)),
        Err(ParseError::Syntax) => Err(refused(alloc, Code::Syntax, tokens)),
        Err(ParseError::Memory) => Err(Fault::Memory),
    }
}

/// The query that all of the tokens spell (PostgreSQL manual, SELECT), with the refusals of
/// `expression`.
#[tactic(auto, using(crate::proofs::Exactly::query_found, crate::proofs::Exactly::no_query, crate::proofs::Exactly::not_high, crate::proofs::Exactly::high))]
pub fn query(alloc: Global, tokens: &[Token]) -> Result<HeldQuery, Fault>
    ensures { Answers IsQuery grammar.query_height tokens.now result }
{
    let lexemes = prepared(alloc, tokens)?;
    match query_at(alloc, lexemes.as_slice(), MOST_DEPTH + 1) {
        Ok(found) if query_height(found.part()) <= MOST_HEIGHT => Ok(found),
        Ok(_) => Err(refused(alloc, Code::TooDeep, tokens)),
        Err(ParseError::Syntax) => Err(refused(alloc, Code::Syntax, tokens)),
        Err(ParseError::Memory) => Err(Fault::Memory),
    }
}
