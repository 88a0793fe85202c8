//! The tokens that are read, within the limits.

ghost use Rattle.std.specs.Prelude.{◌≡◌, map, MatchOption};
ghost use Rattle.sq_base.specs.declared.refusal.Fault.TheVariants.{Refused};
ghost use Rattle.sq_syntax.specs.Symbols.{lexeme};
ghost use Rattle.sq_base.specs.Refusals as refusals;
ghost use Rattle.sq_lexemes.specs.Answers.{first_place, Exceeds, Prepares, Readable};

use crate::lexemes::lexemes;
use crate::nesting::nesting_depth;
use sq_base::limits::{MOST_DEPTH, MOST_TOKENS};
use sq_base::{Code, Fault, List, Place, Refusal};
use sq_syntax::{Lexeme, Token};
use std::alloc::Global;

/// The place of the first token.
fn first_place(tokens: &[Token]) -> Place
    ensures { result ≡ first_place tokens.now }
{
    match tokens.first() {
        Some(token) => token.place,
        None => Place {
            file: 0,
            line: 0,
            column: 0,
        },
    }
}

/// A refusal at the first token, without texts.
pub fn refused(alloc: Global, code: Code, tokens: &[Token]) -> Fault
    ensures { result ≡ Refused (refusals.refused code (first_place tokens.now)) }
{
    Fault::Refused(Refusal::at(alloc, code, first_place(tokens)))
}

/// The refusal of tokens that are too many or nest too deep: [4] more than 16,384 tokens; [5]
/// brackets and CASE that nest more than 64 deep.
#[tactic(auto, using(crate::proofs::Bounds::depth_of))]
pub fn exceeded(tokens: &[Token], found: &[Lexeme]) -> Option<Code>
    requires { found.now ≡ map lexeme tokens.now }
    ensures { MatchOption result (Readable tokens.now) (λ code. Exceeds tokens.now code) }
{
    if tokens.len() > MOST_TOKENS {
        return Some(Code::TooLong);
    }
    if nesting_depth(found) > MOST_DEPTH {
        return Some(Code::TooNested);
    }
    None
}

/// The tokens as the grammar sees them, within the limits; else the refusal [4] or [5] at the first
/// token.
#[tactic(auto, using(crate::proofs::Bounds::few))]
pub fn prepared(alloc: Global, tokens: &[Token]) -> Result<List<Lexeme>, Fault>
    ensures { Prepares tokens.now result }
{
    let found = lexemes(alloc, tokens)?;
    match exceeded(tokens, found.as_slice()) {
        Some(code) => Err(refused(alloc, code, tokens)),
        None => Ok(found),
    }
}
