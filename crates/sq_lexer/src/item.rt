//! What an item is as a token, and why one is refused.

ghost use Rattle.std.specs.Prelude.{◌≡◌, ◌∷◌, [], ◌||◌, ◌&&◌, nat_eq, length};
ghost use Rattle.std.specs.List.{starts_with};
ghost use Rattle.sq_syntax.specs.Bytes.{class_of};
ghost use Rattle.sq_syntax.specs.Classes.{is_note, next_class, past_spaces, begins_word, continues_tag};
ghost use Rattle.sq_syntax.specs.Items.{
  fault_of,
  stop_at,
  token_kind,
  opens,
  opens_with,
  begins_tag,
  closes_tag,
  stops_word,
  is_dollar,
  is_star_next,
  is_quote_next,
};

use crate::machine::{begins_word, continues_tag};
use sq_syntax::{ByteClass, ItemKind, Stop, TokenKind, class_of};

/// The class of the byte that comes next, if one does.
pub(crate) fn next_class(bytes: &[u8]) -> Option<ByteClass>
    ensures { result ≡ next_class bytes.now }
{
    match bytes.first() {
        Some(byte) => Some(class_of(*byte)),
        None => None,
    }
}

fn stops_word(next: Option<ByteClass>) -> bool
    ensures { result ≡ stops_word next }
{
    match next {
        Some(class) => !begins_word(class),
        None => true,
    }
}

/// Why an item is refused, the rest of the file being given.
pub(crate) fn fault_of(kind: ItemKind, item: &[u8], rest: &[u8]) -> Option<Stop>
    ensures { result ≡ fault_of kind item.now rest.now }
{
    match kind {
        ItemKind::Number | ItemKind::Parameter => {
            if stops_word(next_class(rest)) {
                None
            } else {
                Some(Stop::BadByte)
            }
        }
        ItemKind::Quoted => {
            if item.len() == 2 {
                Some(Stop::Unterminated)
            } else {
                None
            }
        }
        _ => None,
    }
}

fn closes_tag(bytes: &[u8]) -> bool
    ensures { result ≡ closes_tag bytes.now }
{
    for byte in bytes {
        let class = class_of(*byte);
        if is_dollar(class) {
            return true;
        }
        if !continues_tag(class) {
            return false;
        }
    }
    false
}

fn is_dollar(class: ByteClass) -> bool
    ensures { result ≡ is_dollar class }
{
    matches!(class, ByteClass::Dollar)
}

fn begins_tag(bytes: &[u8]) -> bool
    ensures { result ≡ begins_tag bytes.now }
{
    match bytes.split_first() {
        Some((first, rest)) => {
            let class = class_of(*first);
            is_dollar(class) || (begins_word(class) && closes_tag(rest))
        }
        None => false,
    }
}

fn is_star_next(next: Option<ByteClass>) -> bool
    ensures { result ≡ is_star_next next }
{
    matches!(next, Some(ByteClass::Star))
}

fn is_quote_next(next: Option<ByteClass>) -> bool
    ensures { result ≡ is_quote_next next }
{
    matches!(next, Some(ByteClass::SingleQuote))
}

fn opens_with(class: ByteClass, bytes: &[u8]) -> bool
    ensures { result ≡ opens_with class bytes.now }
{
    match class {
        ByteClass::DoubleQuote | ByteClass::SingleQuote => true,
        ByteClass::LetterE => is_quote_next(next_class(bytes)),
        ByteClass::Slash => is_star_next(next_class(bytes)),
        ByteClass::Dollar => begins_tag(bytes),
        _ => false,
    }
}

fn opens(bytes: &[u8]) -> bool
    ensures { result ≡ opens bytes.now }
{
    match bytes.split_first() {
        Some((first, rest)) => opens_with(class_of(*first), rest),
        None => false,
    }
}

/// Why no item begins here.
pub(crate) fn stop_at(bytes: &[u8]) -> Stop
    ensures { result ≡ stop_at bytes.now }
{
    if opens(bytes) {
        Stop::Unterminated
    } else {
        Stop::BadByte
    }
}

fn begins_name(text: &[u8]) -> bool
    ensures { result ≡ starts_with nat_eq (past_spaces text.now) (110 ∷ 97 ∷ 109 ∷ 101 ∷ 58 ∷ []) }
{
    for (index, byte) in text.iter().enumerate() {
        if *byte != b' ' && *byte != b'\t' {
            return text[index..].starts_with(b"name:".as_slice());
        }
    }
    false
}

fn is_note(comment: &[u8]) -> bool
    ensures { result ≡ is_note comment.now }
{
    match comment {
        [_, _, text @ ..] => begins_name(text),
        _ => false,
    }
}

/// The token that an item is, if it is one.
pub(crate) fn token_kind(kind: ItemKind, item: &[u8]) -> Option<TokenKind>
    ensures { result ≡ token_kind kind item.now }
{
    match kind {
        ItemKind::Blank | ItemKind::BlockComment | ItemKind::BackslashLine => None,
        ItemKind::LineComment => {
            if is_note(item) {
                Some(TokenKind::Note)
            } else {
                None
            }
        }
        ItemKind::Word => Some(TokenKind::Word),
        ItemKind::Quoted => Some(TokenKind::Quoted),
        ItemKind::Text => Some(TokenKind::Text),
        ItemKind::EText => Some(TokenKind::EText),
        ItemKind::Dollar => Some(TokenKind::Dollar),
        ItemKind::Number => Some(TokenKind::Number),
        ItemKind::Parameter => Some(TokenKind::Parameter),
        ItemKind::Named => Some(TokenKind::Named),
        ItemKind::Operator => Some(TokenKind::Operator),
        ItemKind::Punct => Some(TokenKind::Punct),
    }
}
