//! What the tokens ahead decide: whether brackets hold a query, and whether a type and a text
//! follow.

ghost use Rattle.std.specs.Prelude.{◌≡◌, ◌∷◌, ◌+◌, ◌<◌, ◌≤◌, ◌^◌, [], None, Some, drop, length, MatchOption, if◌then◌else◌};
ghost use Rattle.sq_syntax.specs.Facts as facts;
ghost use Rattle.sq_grammar.specs.Ahead as ahead;
ghost use Rattle.sq_parse_expr.specs.Brackets.{close_all};

use sq_lexemes::cursor::{Cursor, begins, is, split};
use sq_syntax::{Lexeme, Reading, Symbol};

/// How many brackets are open after a token, where one more than these was before it.
fn turned(reading: &Reading, below: usize) -> usize
    requires { below < 2 ^ 33 }
    ensures { result ≡ ahead.turned (facts.turn reading.now) below }
{
    match reading {
        Reading::Symbol(Symbol::Open | Symbol::OpenSquare | Symbol::Case) => below + 2,
        Reading::Symbol(Symbol::Close | Symbol::CloseSquare | Symbol::End) => below,
        _ => below + 1,
    }
}

/// The tokens after those that close this many brackets.
#[tactic(auto, using(crate::proofs::Fronts::closed_none, crate::proofs::Fronts::closed_end, crate::proofs::Fronts::closed_step, crate::proofs::Fronts::turned_few))]
fn closed(tokens: &[Lexeme], count: usize) -> Option<&[Lexeme]>
    requires { count + length tokens.now < 2 ^ 33 }
    ensures { MatchOption result (ahead.closed tokens.now count ≡ None) (λ rest. (ahead.closed tokens.now count ≡ Some rest.now) × (length rest.now ≤ length tokens.now)) }
{
    let mut rest = tokens;
    let mut depth = count;
    while depth > 0 {
        let (lexeme, after) = split(rest)?;
        depth = turned(&lexeme.reading, depth - 1);
        rest = after;
    }
    Some(rest)
}

fn begins_core(tokens: &[Lexeme]) -> bool
    ensures { result ≡ ahead.begins_core tokens.now }
{
    begins(Symbol::Select, tokens) || begins(Symbol::With, tokens)
}

/// The bracketed query before these tokens is a part of a query.
fn goes_on_query(tokens: &[Lexeme]) -> bool
    ensures { result ≡ ahead.goes_on_query tokens.now }
{
    match split(tokens) {
        Some((lexeme, _)) => matches!(
            lexeme.reading,
            Reading::Symbol(
                Symbol::Close
                    | Symbol::Union
                    | Symbol::Except
                    | Symbol::Intersect
                    | Symbol::Order
                    | Symbol::Limit
                    | Symbol::Offset
                    | Symbol::For
            )
        ),
        None => false,
    }
}

/// What stands behind an opening bracket.
fn opened(tokens: &[Lexeme]) -> Option<&[Lexeme]>
    ensures { MatchOption result (ahead.queried tokens.now ≡ None) (λ rest. (ahead.queried tokens.now ≡ (if ahead.begins_core rest.now then ahead.closed rest.now 1 else ahead.close_query (ahead.queried rest.now))) × (length rest.now < length tokens.now)) }
{
    if !begins(Symbol::Open, tokens) {
        return None;
    }
    let (_, rest) = split(tokens)?;
    Some(rest)
}

/// What stands behind the brackets before a query, and how many they are beside the first.
#[tactic(auto, using(crate::proofs::Fronts::close_within))]
fn within(tokens: &[Lexeme]) -> Option<(usize, &[Lexeme])>
    requires { length tokens.now < 2 ^ 32 }
    ensures { MatchOption result (ahead.queried tokens.now ≡ None) (λ p. (ahead.queried tokens.now ≡ close_all p.0 (ahead.closed p.1.now 1)) × (length p.1.now ≤ length tokens.now)) }
{
    let mut rest = opened(tokens)?;
    let mut count = 0;
    while !begins_core(rest) {
        rest = opened(rest)?;
        count += 1;
    }
    Some((count, rest))
}

/// What closes the brackets of a query and these many around it.
#[tactic(auto, using(crate::proofs::Fronts::close_none, crate::proofs::Fronts::close_step, crate::proofs::Fronts::close_over))]
fn are_closed(tokens: &[Lexeme], count: usize) -> bool
    requires { length tokens.now < 2 ^ 32 }
    ensures { result ≡ ahead.is_some (close_all count (ahead.closed tokens.now 1)) }
{
    let Some(mut rest) = closed(tokens, 1) else {
        return false;
    };
    for _turn in 0..count {
        if !goes_on_query(rest) {
            return false;
        }
        let Some(after) = closed(rest, 1) else {
            return false;
        };
        rest = after;
    }
    true
}

/// A query stands in the brackets that open here.
#[tactic(auto, unfolding(crate::specs::Words::holds_query))]
pub fn holds_query(tokens: &Cursor<'_>) -> bool
    ensures { result ≡ ahead.holds_query tokens.now.tokens }
{
    match within(tokens.rest()) {
        Some((count, rest)) => are_closed(rest, count),
        None => false,
    }
}

fn is_text(reading: &Reading) -> bool
    ensures { result ≡ ahead.is_text reading.now }
{
    matches!(reading, Reading::Text(_))
}

/// A text follows, or follows after brackets.
#[tactic(auto, using(crate::proofs::Fronts::text_step, crate::proofs::Fronts::text_first, crate::proofs::Fronts::text_end, crate::proofs::Fronts::turned_few))]
fn text_after_squares(tokens: &[Lexeme]) -> bool
    requires { length tokens.now < 2 ^ 32 }
    ensures { result ≡ ahead.text_after_squares tokens.now 0 }
{
    let mut rest = tokens;
    let mut depth = 0;
    while let Some((lexeme, after)) = split(rest) {
        if depth > 0 {
            depth = turned(&lexeme.reading, depth - 1);
        } else if is(Symbol::OpenSquare, &lexeme.reading) {
            depth = 1;
        } else {
            return is_text(&lexeme.reading);
        }
        rest = after;
    }
    false
}

/// What stands behind a dot and a name.
fn after_dot(tokens: &[Lexeme]) -> Option<&[Lexeme]>
    ensures { MatchOption result (ahead.skip_dots tokens.now ≡ tokens.now) (λ rest. (ahead.skip_dots tokens.now ≡ ahead.skip_dots rest.now) × (length rest.now < length tokens.now)) }
{
    let (first, rest) = split(tokens)?;
    let (_, rest) = split(rest)?;
    if is(Symbol::Dot, &first.reading) {
        Some(rest)
    } else {
        None
    }
}

fn skip_dots(tokens: &[Lexeme]) -> &[Lexeme]
    ensures value { result.now ≡ ahead.skip_dots tokens.now }
    ensures within { length result.now ≤ length tokens.now }
{
    let mut rest = tokens;
    while let Some(after) = after_dot(rest) {
        rest = after;
    }
    rest
}

fn skip_word(tokens: &[Lexeme]) -> &[Lexeme]
    ensures value { result.now ≡ ahead.skip_word tokens.now }
    ensures within { length result.now ≤ length tokens.now }
{
    match split(tokens) {
        Some((lexeme, rest))
            if is(Symbol::Precision, &lexeme.reading) || is(Symbol::Varying, &lexeme.reading) => {
            rest
        }
        _ => tokens,
    }
}

fn skip_brackets(tokens: &[Lexeme]) -> &[Lexeme]
    requires { length tokens.now < 2 ^ 32 }
    ensures value { result.now ≡ ahead.skip_brackets tokens.now }
    ensures within { length result.now ≤ length tokens.now }
{
    match split(tokens) {
        Some((lexeme, rest)) if is(Symbol::Open, &lexeme.reading) => {
            closed(rest, 1).unwrap_or(&[])
        }
        _ => tokens,
    }
}

fn after_two(tokens: &[Lexeme]) -> &[Lexeme]
    ensures value { result.now ≡ drop 2 tokens.now }
    ensures within { length result.now ≤ length tokens.now }
{
    let Some((_, rest)) = split(tokens) else {
        return tokens;
    };
    match split(rest) {
        Some((_, rest)) => rest,
        None => rest,
    }
}

fn skip_zone(tokens: &[Lexeme]) -> &[Lexeme]
    ensures value { result.now ≡ ahead.skip_zone tokens.now }
    ensures within { length result.now ≤ length tokens.now }
{
    match split(tokens) {
        Some((lexeme, rest))
            if is(Symbol::With, &lexeme.reading) || is(Symbol::Without, &lexeme.reading) => {
            after_two(rest)
        }
        _ => tokens,
    }
}

/// A type and a text stand here, where a name does.
#[tactic(auto, unfolding(crate::specs::Words::types_text))]
pub fn types_text(tokens: &Cursor<'_>) -> bool
    ensures { result ≡ ahead.types_text tokens.now.tokens }
{
    match split(tokens.rest()) {
        Some((_, rest)) => {
            text_after_squares(skip_zone(skip_brackets(skip_word(skip_dots(rest)))))
        }
        None => false,
    }
}
