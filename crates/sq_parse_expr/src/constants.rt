//! Constants, parameters, columns and words that stand for a value.

ghost use Rattle.std.specs.Prelude.{◌≡◌, Option, None, Some};
ghost use Rattle.sq_syntax.specs.ExpressionPieces.{moment_symbol};
ghost use Rattle.sq_grammar.specs.Primaries as spec;
ghost use Rattle.sq_grammar.specs.Ahead.{is_some};
ghost use Rattle.sq_grammar.specs.Reading.{choose};
ghost use Rattle.sq_parse_expr.specs.Levels as ahead;
ghost use Rattle.sq_lexemes.specs.Reads.{Reads};

use sq_lexemes::cursor::{Cursor, begins, is, split};
use sq_lexemes::error::ParseError;
use sq_lexemes::names::{column_name, name};
use sq_lexemes::texts::text;
use sq_lexemes::types::type_name;
use sq_parts::{HeldExpression, nodes};
use sq_syntax::{Constant, Lexeme, Moment, Parameter, ParameterName, Purpose, Reading, Symbol};
use std::alloc::Global;

pub fn constant(
    alloc: Global,
    tokens: &mut Cursor<'_>,
    constant: Constant,
) -> Result<HeldExpression, ParseError>
    ensures { Reads (spec.constant_at constant tokens.old) result tokens.new }
{
    let begun = tokens.copy();
    tokens.take()?;
    let mark = tokens.node(&begun, begun.here(), ());
    Ok(nodes::constant(alloc, mark, constant)?)
}

pub fn parameter(
    alloc: Global,
    tokens: &mut Cursor<'_>,
    parameter: Parameter,
) -> Result<HeldExpression, ParseError>
    ensures { Reads (spec.parameter_at parameter tokens.old) result tokens.new }
{
    let begun = tokens.copy();
    tokens.take()?;
    let mark = tokens.node(&begun, begun.here(), ());
    Ok(nodes::parameter(alloc, mark, parameter)?)
}

fn begins_text(tokens: &[Lexeme]) -> bool
    ensures { result ≡ spec.begins_text tokens.now }
{
    match split(tokens) {
        Some((lexeme, _)) => matches!(lexeme.reading, Reading::Text(_)),
        None => false,
    }
}

fn purpose_of(lexeme: &Lexeme) -> Option<Purpose>
    ensures { result ≡ spec.purpose_of lexeme.now.reading lexeme.now.place }
{
    match lexeme.reading {
        Reading::Symbol(Symbol::Arg) => Some(Purpose::Arg),
        Reading::Symbol(Symbol::Narg) => Some(Purpose::Narg),
        Reading::Symbol(Symbol::Slice) => Some(Purpose::Slice),
        _ => None,
    }
}

fn begins_call_of_purpose(tokens: &[Lexeme]) -> bool
    ensures { result ≡ ahead.begins_call_of_purpose tokens.now }
{
    match split(tokens) {
        Some((lexeme, rest)) => purpose_of(lexeme).is_some() && begins(Symbol::Open, rest),
        None => false,
    }
}

fn begins_dotted_purpose(tokens: &[Lexeme]) -> bool
    ensures { result ≡ ahead.begins_dotted_purpose tokens.now }
{
    match split(tokens) {
        Some((lexeme, rest)) => is(Symbol::Dot, &lexeme.reading) && begins_call_of_purpose(rest),
        None => false,
    }
}

/// `sqlc.arg(` and its like stand here.
#[tactic(auto, using(crate::proofs::Fronts::begins_purpose_is))]
pub fn begins_purpose(tokens: &[Lexeme]) -> bool
    ensures { result ≡ spec.begins_purpose tokens.now }
{
    match split(tokens) {
        Some((_, rest)) => begins_dotted_purpose(rest),
        None => false,
    }
}

fn parameter_name(alloc: Global, tokens: &mut Cursor<'_>) -> Result<ParameterName, ParseError>
    ensures { Reads (choose (λ now. spec.begins_text now.tokens) spec.text_name spec.word_name tokens.old) result tokens.new }
{
    if begins_text(tokens.rest()) {
        Ok(ParameterName::Text(text(alloc, tokens)?))
    } else {
        Ok(ParameterName::Identifier(name(alloc, tokens)?))
    }
}

#[tactic(auto, unfolding(crate::specs::Words::purposed))]
pub fn purposed(alloc: Global, tokens: &mut Cursor<'_>) -> Result<HeldExpression, ParseError>
    ensures { Reads (spec.purposed tokens.old) result tokens.new }
{
    let begun = tokens.copy();
    tokens.expect(Symbol::Sqlc)?;
    tokens.expect(Symbol::Dot)?;
    let purpose = purpose_of(tokens.take()?).ok_or(ParseError::Syntax)?;
    tokens.expect(Symbol::Open)?;
    let name = parameter_name(alloc, tokens)?;
    tokens.expect(Symbol::Close)?;
    let mark = tokens.node(&begun, begun.here(), ());
    Ok(nodes::parameter(alloc, mark, Parameter::Called(purpose, name))?)
}

#[tactic(auto, unfolding(crate::specs::Words::typed_text))]
pub fn typed_text(alloc: Global, tokens: &mut Cursor<'_>) -> Result<HeldExpression, ParseError>
    ensures { Reads (spec.typed_text tokens.old) result tokens.new }
{
    let begun = tokens.copy();
    let to = type_name(alloc, tokens)?;
    let bytes = text(alloc, tokens)?;
    let mark = tokens.node(&begun, begun.here(), ());
    Ok(nodes::typed_text(alloc, mark, to, bytes)?)
}

#[tactic(auto, unfolding(crate::specs::Words::column))]
pub fn column(alloc: Global, tokens: &mut Cursor<'_>) -> Result<HeldExpression, ParseError>
    ensures { Reads (spec.column tokens.old) result tokens.new }
{
    let begun = tokens.copy();
    let name = column_name(alloc, tokens)?;
    let mark = tokens.node(&begun, begun.here(), ());
    Ok(nodes::column(alloc, mark, name)?)
}

fn symbol_of(word: Moment) -> Symbol
    ensures { result ≡ moment_symbol word }
{
    match word {
        Moment::CurrentDate => Symbol::CurrentDate,
        Moment::CurrentTimestamp => Symbol::CurrentTimestamp,
        Moment::LocalTimestamp => Symbol::LocalTimestamp,
    }
}

pub fn moment(
    alloc: Global,
    tokens: &mut Cursor<'_>,
    word: Moment,
) -> Result<HeldExpression, ParseError>
    ensures { Reads (spec.moment_at word tokens.old) result tokens.new }
{
    let begun = tokens.copy();
    tokens.expect(symbol_of(word))?;
    let mark = tokens.node(&begun, begun.here(), ());
    Ok(nodes::moment(alloc, mark, word)?)
}
