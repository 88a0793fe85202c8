//! The labels of enumerations.

ghost use Rattle.std.specs.Prelude.{◌≡◌, ◌++◌, ◌∷◌, IfOk, List, ℕ, false, map};
ghost use Rattle.sq_syntax.specs.Symbols as symbols;
ghost use Rattle.sq_migrate.specs.Labels as spec;
ghost use Rattle.sq_migrate.specs.Labels.{undoubled};

use sq_base::{List, Name};
use std::alloc::{AllocError, Global};
use std::str::from_utf8;

/// What stands between the first and the last byte.
fn within(bytes: &[u8]) -> &[u8]
    ensures { result.now ≡ symbols.within bytes.now }
{
    match bytes {
        [_, between @ .., _] => between,
        _ => &[],
    }
}

/// Takes a byte, unless it doubles the quote before it, and says whether the next one may double this one.
fn take_byte(text: &mut List<u8>, after: bool, byte: u8) -> Result<bool, AllocError>
    ensures { IfOk result (λ next. (rest : List ℕ) → text.new ++ undoubled next rest ≡ text.old ++ undoubled after (byte ∷ rest)) }
{
    if after && byte == b'\'' {
        return Ok(false);
    }
    text.push(byte)?;
    Ok(byte == b'\'')
}

/// The bytes with one single quote for two.
fn undoubled(alloc: Global, bytes: &[u8]) -> Result<List<u8>, AllocError>
    ensures { IfOk result (λ text. text ≡ undoubled false bytes.now) }
{
    let mut text = List::new(alloc);
    let mut after = false;
    for byte in bytes {
        after = take_byte(&mut text, after, *byte)?;
    }
    Ok(text)
}

/// Bytes as a text, and the empty text where they are none.
fn as_text(bytes: &[u8]) -> &str
    ensures { result.now ≡ spec.as_text bytes.now }
{
    match from_utf8(bytes) {
        Ok(text) => text,
        Err(_) => "",
    }
}

/// The label that a text in single quotes is (PostgreSQL manual, section 4.1.2.1).
pub fn label(alloc: Global, bytes: &[u8]) -> Result<Name, AllocError>
    ensures { IfOk result (λ label. label ≡ spec.label bytes.now) }
{
    let text = undoubled(alloc, within(bytes))?;
    Name::new(alloc, as_text(text.as_slice()))
}

/// The labels that these texts are.
pub fn labels(alloc: Global, texts: &List<List<u8>>) -> Result<List<Name>, AllocError>
    ensures { IfOk result (λ labels. labels ≡ map spec.label texts.now) }
{
    let mut labels = List::new(alloc);
    for text in texts.as_slice() {
        labels.push(label(alloc, text.as_slice())?)?;
    }
    Ok(labels)
}
