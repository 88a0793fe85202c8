//! Tokens as the grammar sees them.

ghost use Rattle.std.specs.Prelude.{◌≡◌, ◌∷◌, ◌++◌, [], List, ℕ, false, map, IfOk};
ghost use Rattle.std.specs.Str.{IsUtf8};
ghost use Rattle.sq_base.specs.Folding.{folded, whole_front};
ghost use Rattle.sq_syntax.specs.Symbols.{kind_reading, lexeme, quoted_name, sign_reading, undoubled, word_reading};
ghost use Rattle.sq_syntax.specs.Symbols as symbols;
ghost use Rattle.sq_lexemes.specs.Cursor.{AreTexts, IsText};

use crate::look_up::{sign_symbol, word_symbol};
use sq_base::{List, Name};
use sq_syntax::{Lexeme, Reading, Token, TokenKind};
use std::alloc::{AllocError, Global};
use std::str::from_utf8;

/// The longest front of whole characters that has at most 63 bytes.
fn front_of(bytes: &[u8]) -> &str
    ensures { result.now ≡ whole_front 63 bytes.now }
{
    let front = &bytes[..bytes.len().min(63)];
    match from_utf8(front) {
        Ok(front) => front,
        Err(error) => from_utf8(&front[..error.valid_up_to()]).unwrap(),
    }
}

/// The name that a word is folded to.
fn folded(alloc: Global, bytes: &[u8]) -> Result<Name, AllocError>
    ensures { IfOk result (λ name. name ≡ folded bytes.now) }
{
    let mut name = String::from_str(alloc, front_of(bytes))?;
    name.make_ascii_lowercase();
    Ok(Name::from_string(name))
}

/// The bytes of a text.
fn bytes_of(alloc: Global, text: &str) -> Result<List<u8>, AllocError>
    ensures value { IfOk result (λ bytes. bytes ≡ text.now) }
    ensures texts { IfOk result (λ bytes. IsUtf8 bytes) }
{
    List::from_slice(alloc, text.as_bytes())
}

/// What a folded word is to the grammar.
#[tactic(auto, unfolding(sq_syntax::specs::Symbols::word_reading))]
fn word_reading(alloc: Global, word: &Name) -> Result<Reading, AllocError>
    ensures value { IfOk result (λ r. r ≡ word_reading word.now) }
    ensures texts { IfOk result (λ r. IsText r) }
{
    match word_symbol(word.as_bytes()) {
        Some(symbol) => Ok(Reading::Symbol(symbol)),
        None => Ok(Reading::Word(bytes_of(alloc, word.as_str())?)),
    }
}

/// What a sign or an operator is to the grammar.
#[tactic(auto, unfolding(sq_syntax::specs::Symbols::sign_reading))]
fn sign_reading(alloc: Global, bytes: &[u8]) -> Result<Reading, AllocError>
    ensures value { IfOk result (λ r. r ≡ sign_reading bytes.now) }
    ensures texts { IfOk result (λ r. IsText r) }
{
    match sign_symbol(bytes) {
        Some(symbol) => Ok(Reading::Symbol(symbol)),
        None => Ok(Reading::Operator(List::from_slice(alloc, bytes)?)),
    }
}

/// What stands between the first and the last byte.
fn within(bytes: &[u8]) -> &[u8]
    ensures { result.now ≡ symbols.within bytes.now }
{
    match bytes {
        [_, between @ .., _] => between,
        _ => &[],
    }
}

/// Takes a byte, unless it doubles the quote before it, and says whether the next one may double this one.
fn take_byte(name: &mut List<u8>, after: bool, byte: u8) -> Result<bool, AllocError>
    ensures { IfOk result (λ next. (rest : List ℕ) → name.new ++ undoubled next rest ≡ name.old ++ undoubled after (byte ∷ rest)) }
{
    if after && byte == b'"' {
        return Ok(false);
    }
    name.push(byte)?;
    Ok(byte == b'"')
}

/// The bytes with one double quote for two.
fn undoubled_bytes(alloc: Global, bytes: &[u8]) -> Result<List<u8>, AllocError>
    ensures { IfOk result (λ name. name ≡ undoubled false bytes.now) }
{
    let mut name = List::new(alloc);
    let mut after = false;
    for byte in bytes {
        after = take_byte(&mut name, after, *byte)?;
    }
    Ok(name)
}

/// The name of a quoted token.
fn quoted_reading(alloc: Global, bytes: &[u8]) -> Result<Reading, AllocError>
    ensures value { IfOk result (λ r. r ≡ kind_reading TokenKind.Quoted bytes.now) }
    ensures texts { IfOk result (λ r. IsText r) }
{
    let name = undoubled_bytes(alloc, within(bytes))?;
    Ok(Reading::Quoted(bytes_of(alloc, front_of(name.as_slice()))?))
}

/// The name of a named parameter, without `@`.
fn named_reading(alloc: Global, bytes: &[u8]) -> Result<Reading, AllocError>
    ensures value { IfOk result (λ r. r ≡ kind_reading TokenKind.Named bytes.now) }
    ensures texts { IfOk result (λ r. IsText r) }
{
    let name = match bytes {
        [_, name @ ..] => name,
        [] => bytes,
    };
    let name = folded(alloc, name)?;
    Ok(Reading::Named(bytes_of(alloc, name.as_str())?))
}

/// An operator or a sign; `!=` is `<>`.
fn operator_reading(alloc: Global, bytes: &[u8]) -> Result<Reading, AllocError>
    ensures value { IfOk result (λ r. r ≡ kind_reading TokenKind.Operator bytes.now) }
    ensures texts { IfOk result (λ r. IsText r) }
{
    if bytes == b"!=".as_slice() {
        sign_reading(alloc, b"<>")
    } else {
        sign_reading(alloc, bytes)
    }
}

/// What the grammar sees of a token of this kind and these bytes.
fn reading_of(alloc: Global, kind: TokenKind, bytes: &[u8]) -> Result<Reading, AllocError>
    ensures value { IfOk result (λ r. r ≡ kind_reading kind bytes.now) }
    ensures texts { IfOk result (λ r. IsText r) }
{
    match kind {
        TokenKind::Word => {
            let word = folded(alloc, bytes)?;
            word_reading(alloc, &word)
        }
        TokenKind::Quoted => quoted_reading(alloc, bytes),
        TokenKind::Text => Ok(Reading::Text(List::from_slice(alloc, bytes)?)),
        TokenKind::EText => Ok(Reading::EText(List::from_slice(alloc, bytes)?)),
        TokenKind::Dollar => Ok(Reading::Dollar(List::from_slice(alloc, bytes)?)),
        TokenKind::Number => Ok(Reading::Number(List::from_slice(alloc, bytes)?)),
        TokenKind::Parameter => Ok(Reading::Parameter(List::from_slice(alloc, bytes)?)),
        TokenKind::Named => named_reading(alloc, bytes),
        TokenKind::Operator => operator_reading(alloc, bytes),
        TokenKind::Punct => sign_reading(alloc, bytes),
        TokenKind::Note => Ok(Reading::Note),
    }
}

/// A token as the grammar sees it.
fn lexeme_of(alloc: Global, token: &Token) -> Result<Lexeme, AllocError>
    ensures value { IfOk result (λ found. found ≡ lexeme token.now) }
    ensures texts { IfOk result (λ found. IsText found.reading) }
{
    Ok(Lexeme {
        reading: reading_of(alloc, token.kind, token.bytes.as_slice())?,
        place: token.place,
    })
}

/// Tokens as the grammar sees them.
pub fn lexemes(alloc: Global, tokens: &[Token]) -> Result<List<Lexeme>, AllocError>
    ensures value { IfOk result (λ found. found ≡ map lexeme tokens.now) }
    ensures texts { IfOk result (λ found. AreTexts found) }
{
    let mut found = List::new(alloc);
    for token in tokens {
        found.push(lexeme_of(alloc, token)?)?;
    }
    Ok(found)
}
