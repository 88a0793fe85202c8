//! Texts and words that stand for themselves.

ghost use Rattle.std.specs.Prelude.{◌≡◌, IfOk};
ghost use Rattle.sq_grammar.specs.Primaries as spec;
ghost use Rattle.sq_lexemes.specs.Reads.{Reads};

use crate::cursor::Cursor;
use crate::error::ParseError;
use crate::names::folded_word;
use crate::words::is_field;
use sq_base::{List, Name};
use sq_syntax::Reading;
use std::alloc::{AllocError, Global};

/// A copy of the bytes.
pub fn copied(alloc: Global, bytes: &List<u8>) -> Result<List<u8>, AllocError>
    ensures { IfOk result (λ copy. copy ≡ bytes.now) }
{
    List::from_slice(alloc, bytes.as_slice())
}

/// Takes a text, and answers its bytes (PostgreSQL manual, section 4.1.2.1). Every other token is a
/// Syntax error.
#[tactic(auto, unfolding(crate::specs::Words::a_text))]
pub fn text(alloc: Global, tokens: &mut Cursor<'_>) -> Result<List<u8>, ParseError>
    ensures { Reads (spec.a_text tokens.old) result tokens.new }
{
    match &tokens.take()?.reading {
        Reading::Text(bytes) => Ok(copied(alloc, bytes)?),
        _ => Err(ParseError::Syntax),
    }
}

/// Takes a word, reserved or not, and answers it folded. Every other token, CASE and END are a
/// Syntax error.
#[tactic(auto, unfolding(crate::specs::Words::a_field))]
pub fn field(alloc: Global, tokens: &mut Cursor<'_>) -> Result<Name, ParseError>
    ensures { Reads (spec.a_field tokens.old) result tokens.new }
{
    let lexeme = tokens.take()?;
    if !is_field(&lexeme.reading) {
        return Err(ParseError::Syntax);
    }
    folded_word(alloc, lexeme)
}
