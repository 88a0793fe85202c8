//! Operators.

ghost use Rattle.std.specs.Prelude.{◌≡◌, Option, None, Some};
ghost use Rattle.sq_syntax.specs.ExpressionPieces.{is_level};
ghost use Rattle.sq_grammar.specs.Ahead as ahead;
ghost use Rattle.sq_grammar.specs.Levels as spec;
ghost use Rattle.sq_grammar.specs.Tests as tests;
ghost use Rattle.sq_lexemes.specs.Levels.{level_in};
ghost use Rattle.sq_lexemes.specs.Reads.{Reads};

use crate::cursor::{Cursor, begins, split};
use crate::error::ParseError;
use sq_base::List;
use sq_syntax::{Comparison, Lexeme, Operator, Quantifier, Reading, Symbol};
use std::alloc::Global;

fn symbol_operator(symbol: Symbol) -> Option<Operator>
    ensures { result ≡ ahead.symbol_operator symbol }
{
    Some(match symbol {
        Symbol::Power => Operator::Power,
        Symbol::Times => Operator::Times,
        Symbol::Divide => Operator::Divide,
        Symbol::Modulo => Operator::Modulo,
        Symbol::Plus => Operator::Plus,
        Symbol::Minus => Operator::Minus,
        Symbol::Less => Operator::Comparison(Comparison::Less),
        Symbol::Greater => Operator::Comparison(Comparison::Greater),
        Symbol::Equal => Operator::Comparison(Comparison::Equal),
        Symbol::LessEqual => Operator::Comparison(Comparison::LessEqual),
        Symbol::GreaterEqual => Operator::Comparison(Comparison::GreaterEqual),
        Symbol::NotEqual => Operator::Comparison(Comparison::NotEqual),
        _ => return None,
    })
}

/// Takes an operator. Every other token is a Syntax error.
#[tactic(auto, unfolding(crate::specs::Words::an_operator))]
pub fn operator(alloc: Global, tokens: &mut Cursor<'_>) -> Result<Operator, ParseError>
    ensures { Reads (spec.an_operator tokens.old) result tokens.new }
{
    match &tokens.take()?.reading {
        Reading::Symbol(symbol) => symbol_operator(*symbol).ok_or(ParseError::Syntax),
        Reading::Operator(bytes) => {
            Ok(Operator::Other(List::from_slice(alloc, bytes.as_slice())?))
        }
        _ => Err(ParseError::Syntax),
    }
}

/// The level of the chains that an operator stands in.
fn link_level(reading: &Reading) -> Option<u8>
    ensures { result ≡ level_in (ahead.operator_of reading.now) }
{
    match reading {
        Reading::Symbol(Symbol::Power) => Some(9),
        Reading::Symbol(Symbol::Times | Symbol::Divide | Symbol::Modulo) => Some(8),
        Reading::Symbol(Symbol::Plus | Symbol::Minus) => Some(7),
        Reading::Operator(_) => Some(6),
        _ => None,
    }
}

fn has_level(level: u8, found: Option<u8>) -> bool
    ensures { result ≡ is_level level found }
{
    match found {
        Some(found) => found == level,
        None => false,
    }
}

/// ANY, SOME or ALL stands here.
fn begins_quantifier(tokens: &[Lexeme]) -> bool
    ensures { result ≡ ahead.begins_quantifier tokens.now }
{
    begins(Symbol::Any, tokens) || begins(Symbol::Some, tokens) || begins(Symbol::All, tokens)
}

/// An operator of the chains of this level comes next, and no ANY, SOME or ALL behind it.
#[tactic(auto, using(crate::proofs::Chains::links_at_is), unfolding(crate::specs::Words::sees_link))]
pub fn sees_link(tokens: &Cursor<'_>, level: u8) -> bool
    ensures { result ≡ spec.sees_link level tokens.now }
{
    match split(tokens.rest()) {
        Some((lexeme, rest)) => {
            has_level(level, link_level(&lexeme.reading)) && !begins_quantifier(rest)
        }
        None => false,
    }
}

fn is_operator(reading: &Reading) -> bool
    ensures { result ≡ ahead.is_some (ahead.operator_of reading.now) }
{
    match reading {
        Reading::Symbol(symbol) => symbol_operator(*symbol).is_some(),
        Reading::Operator(_) => true,
        _ => false,
    }
}

/// An operator before ANY, SOME or ALL.
#[tactic(auto, using(crate::proofs::Chains::is_quantified_is))]
pub fn begins_quantified(tokens: &[Lexeme]) -> bool
    ensures { result ≡ tests.begins_quantified tokens.now }
{
    match split(tokens) {
        Some((lexeme, rest)) => is_operator(&lexeme.reading) && begins_quantifier(rest),
        None => false,
    }
}

fn comparison_of(reading: &Reading) -> Option<Comparison>
    ensures { result ≡ tests.as_comparison (ahead.operator_of reading.now) }
{
    match reading {
        Reading::Symbol(Symbol::Less) => Some(Comparison::Less),
        Reading::Symbol(Symbol::Greater) => Some(Comparison::Greater),
        Reading::Symbol(Symbol::Equal) => Some(Comparison::Equal),
        Reading::Symbol(Symbol::LessEqual) => Some(Comparison::LessEqual),
        Reading::Symbol(Symbol::GreaterEqual) => Some(Comparison::GreaterEqual),
        Reading::Symbol(Symbol::NotEqual) => Some(Comparison::NotEqual),
        _ => None,
    }
}

/// The first token compares.
pub fn begins_comparison(tokens: &[Lexeme]) -> bool
    ensures { result ≡ tests.begins_comparison tokens.now }
{
    match split(tokens) {
        Some((lexeme, _)) => comparison_of(&lexeme.reading).is_some(),
        None => false,
    }
}

/// Takes an operator that compares. Every other token is a Syntax error.
#[tactic(auto, unfolding(crate::specs::Words::a_comparison))]
pub fn comparison(tokens: &mut Cursor<'_>) -> Result<Comparison, ParseError>
    ensures { Reads (tests.a_comparison tokens.old) result tokens.new }
{
    comparison_of(&tokens.take()?.reading).ok_or(ParseError::Syntax)
}

/// Takes ANY, SOME or ALL. Every other token is a Syntax error.
#[tactic(auto, unfolding(crate::specs::Words::a_quantifier))]
pub fn quantifier(tokens: &mut Cursor<'_>) -> Result<Quantifier, ParseError>
    ensures { Reads (tests.a_quantifier tokens.old) result tokens.new }
{
    match tokens.take()?.reading {
        Reading::Symbol(Symbol::Any) => Ok(Quantifier::Any),
        Reading::Symbol(Symbol::Some) => Ok(Quantifier::Some),
        Reading::Symbol(Symbol::All) => Ok(Quantifier::All),
        _ => Err(ParseError::Syntax),
    }
}
