//! Words that expressions and queries do not know.

ghost use Rattle.std.specs.Prelude.{◌≡◌, bytes_eq};
ghost use Rattle.std.specs.List.{list_any};
ghost use Rattle.sq_syntax.specs.Schemas as syntax;
ghost use Rattle.sq_grammar.specs.Schemas as spec;
ghost use Rattle.sq_grammar.specs.Statements as statements;
ghost use Rattle.sq_lexemes.specs.Reads.{Reads};

use sq_lexemes::cursor::{Cursor, split};
use sq_lexemes::error::ParseError;
use sq_lexemes::words::{is_among, text_of};
use sq_syntax::{Behavior, Lexeme, Reading, Symbol};

/// The letters of a word or a sign, and none of every other token.
fn letters_of(reading: &Reading) -> &[u8]
    ensures { result.now ≡ syntax.letters_of reading.now }
{
    match reading {
        Reading::Symbol(symbol) => text_of(*symbol).as_bytes(),
        Reading::Word(word) => word.as_slice(),
        _ => &[],
    }
}

/// The token is a word or a sign of these letters.
pub fn is(letters: &str, reading: &Reading) -> bool
    ensures { result ≡ syntax.is letters.now reading.now }
{
    letters_of(reading) == letters.as_bytes()
}

/// The token is one of these words.
pub fn is_one_of(words: &[&str], reading: &Reading) -> bool
    ensures { result ≡ list_any (λ w. bytes_eq w.now (syntax.letters_of reading.now)) words.now }
{
    is_among(letters_of(reading), words)
}

/// The first token is a word or a sign of these letters.
pub fn begins(letters: &str, tokens: &[Lexeme]) -> bool
    ensures { result ≡ spec.begins_sign letters.now tokens.now }
{
    match split(tokens) {
        Some((lexeme, _)) => is(letters, &lexeme.reading),
        None => false,
    }
}

/// The first two tokens are words or signs of these letters.
pub fn begins_both(first: &str, second: &str, tokens: &[Lexeme]) -> bool
    ensures { result ≡ spec.begins_letters first.now second.now tokens.now }
{
    let Some((lexeme, rest)) = split(tokens) else {
        return false;
    };
    match split(rest) {
        Some((next, _)) => is(first, &lexeme.reading) && is(second, &next.reading),
        None => false,
    }
}

pub fn sees_both(tokens: &Cursor<'_>, first: &str, second: &str) -> bool
    ensures { result ≡ spec.sees_both first.now second.now tokens.now }
{
    begins_both(first, second, tokens.rest())
}

fn is_word(word: &str, reading: &Reading) -> bool
    ensures { result ≡ statements.is_word word.now reading.now }
{
    match reading {
        Reading::Word(found) => found.as_slice() == word.as_bytes(),
        _ => false,
    }
}

/// The next token is this word.
pub fn sees_word(tokens: &Cursor<'_>, word: &str) -> bool
    ensures { result ≡ statements.sees_word word.now tokens.now }
{
    match split(tokens.rest()) {
        Some((lexeme, _)) => is_word(word, &lexeme.reading),
        None => false,
    }
}

#[tactic(auto, unfolding(crate::specs::Words::expect_word))]
pub fn expect_word(tokens: &mut Cursor<'_>, word: &str) -> Result<(), ParseError>
    ensures { Reads (statements.expect_word word.now tokens.old) result tokens.new }
{
    let lexeme = tokens.take()?;
    if is_word(word, &lexeme.reading) {
        Ok(())
    } else {
        Err(ParseError::Syntax)
    }
}

/// Takes the word, if it comes next.
pub fn optional_word(tokens: &mut Cursor<'_>, word: &str) -> Result<bool, ParseError>
    ensures { Reads (spec.optional_word word.now tokens.old) result tokens.new }
{
    if !sees_word(tokens, word) {
        return Ok(false);
    }
    expect_word(tokens, word)?;
    Ok(true)
}

#[tactic(auto, unfolding(crate::specs::Words::if_exists))]
pub fn if_exists(tokens: &mut Cursor<'_>) -> Result<bool, ParseError>
    ensures { Reads (spec.if_exists tokens.old) result tokens.new }
{
    if !sees_both(tokens, "if", "exists") {
        return Ok(false);
    }
    expect_word(tokens, "if")?;
    tokens.expect(Symbol::Exists)?;
    Ok(true)
}

#[tactic(auto, unfolding(crate::specs::Words::if_not_exists))]
pub fn if_not_exists(tokens: &mut Cursor<'_>) -> Result<bool, ParseError>
    ensures { Reads (spec.if_not_exists tokens.old) result tokens.new }
{
    if !sees_both(tokens, "if", "not") {
        return Ok(false);
    }
    expect_word(tokens, "if")?;
    tokens.expect(Symbol::Not)?;
    tokens.expect(Symbol::Exists)?;
    Ok(true)
}

#[tactic(auto, unfolding(crate::specs::Words::behavior))]
pub fn behavior(tokens: &mut Cursor<'_>) -> Result<Behavior, ParseError>
    ensures { Reads (spec.behavior tokens.old) result tokens.new }
{
    if sees_word(tokens, "cascade") {
        expect_word(tokens, "cascade")?;
        Ok(Behavior::Cascade)
    } else if sees_word(tokens, "restrict") {
        expect_word(tokens, "restrict")?;
        Ok(Behavior::Restrict)
    } else {
        Ok(Behavior::Unsaid)
    }
}
