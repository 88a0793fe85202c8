//! The token list of a text.

use crate::words::{Done, refused, write_place};
use case_files::Subject;
use sq_base::{Fault, List, fold};
use sq_lexer::tokens;
use sq_syntax::{Gap, Token, TokenKind};
use std::alloc::{AllocError, Global};

/// The longest file.
const MOST_BYTES: usize = 4_194_304;

/// Which of a token's parts are shown. In the input `<0D>` is the byte of these two digits; in the
/// answer characters that cannot be seen are written so.
#[derive(Clone, Copy)]
pub enum Tokens {
    /// Its kind and its bytes.
    Kinds,
    /// Its place and its gap.
    Places,
}

fn kind_word(kind: TokenKind) -> &'static str {
    match kind {
        TokenKind::Word => "Word",
        TokenKind::Quoted => "Quoted",
        TokenKind::Text => "Text",
        TokenKind::EText => "EText",
        TokenKind::Dollar => "Dollar",
        TokenKind::Number => "Number",
        TokenKind::Parameter => "Parameter",
        TokenKind::Named => "Named",
        TokenKind::Operator => "Operator",
        TokenKind::Punct => "Punct",
        TokenKind::Note => "Note",
    }
}

fn gap_word(gap: Gap) -> &'static str {
    match gap {
        Gap::Nothing => "Nothing",
        Gap::Blank => "Blank",
        Gap::Line => "Line",
    }
}

/// Writes the bytes so that each can be seen.
fn write_bytes(alloc: Global, text: &mut String, bytes: &[u8]) -> Done {
    let shown = String::from_utf8_lossy(alloc, bytes)?;
    for character in shown.as_str().chars() {
        match character {
            '\0' => text.push_str("<00>")?,
            '\t' => text.push_str("<09>")?,
            '\r' => text.push_str("<0D>")?,
            '\u{FEFF}' => text.push_str("<EF><BB><BF>")?,
            _ => text.push(character)?,
        }
    }
    Ok(())
}

/// The bytes that an input stands for, without its last line feed.
fn bytes_of(alloc: Global, input: &str) -> Result<Vec<u8>, AllocError> {
    let mut bytes = Vec::new(alloc);
    let written = input.strip_suffix('\n').unwrap_or(input);
    for (at, part) in written.split('<').enumerate() {
        let (digits, rest) = part.split_once('>').unwrap_or(("", part));
        match u8::from_str_radix(digits, 16) {
            Ok(byte) if at > 0 && digits.len() == 2 => {
                bytes.push(byte)?;
                bytes.extend_from_slice(rest.as_bytes())?;
            }
            _ => {
                if at > 0 {
                    bytes.push(b'<')?;
                }
                bytes.extend_from_slice(part.as_bytes())?;
            }
        }
    }
    Ok(bytes)
}

fn write_tokens(alloc: Global, tokens: &[Token], shows: Tokens, text: &mut String) -> Done {
    for token in tokens {
        if !text.is_empty() {
            text.push_str(" | ")?;
        }
        match shows {
            Tokens::Kinds => {
                text.push_str(kind_word(token.kind))?;
                text.push(' ')?;
                write_bytes(alloc, text, token.bytes.as_slice())?;
            }
            Tokens::Places => {
                write_place(text, token.place)?;
                text.push(' ')?;
                text.push_str(gap_word(token.gap))?;
            }
        }
    }
    Ok(())
}

/// The tokens of bytes that are no longer than a file.
pub fn tokens_of(alloc: Global, bytes: &[u8]) -> Result<List<Token>, Fault> {
    if bytes.len() > MOST_BYTES {
        return Ok(List::new(alloc));
    }
    tokens(alloc, 0, bytes)
}

/// A name as it is looked up.
#[derive(Drop)]
pub struct Folded;

impl Subject for Folded {
    fn answer(&mut self, alloc: Global, input: &str) -> Result<String, AllocError> {
        let name = fold(alloc, input.strip_suffix('\n').unwrap_or(input))?;
        String::from_str(alloc, name.as_str())
    }
}

impl Subject for Tokens {
    fn answer(&mut self, alloc: Global, input: &str) -> Result<String, AllocError> {
        let bytes = bytes_of(alloc, input)?;
        match tokens_of(alloc, bytes.as_slice()) {
            Ok(found) => {
                let mut text = String::new(alloc);
                write_tokens(alloc, found.as_slice(), *self, &mut text)?;
                Ok(text)
            }
            Err(fault) => refused(alloc, &fault, "[", "] "),
        }
    }
}
