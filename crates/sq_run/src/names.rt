//! The names that tokens stand for.

ghost use Rattle.std.specs.Prelude.{◌≡◌, ◌≤◌, ◌++◌, ◌∷◌, List, ℕ, true, false, length, map, string_bytes, IfOk, MatchOption};
ghost use Rattle.std.specs.Str.{is_utf8, str_to_ascii_lowercase};
ghost use Rattle.sq_run.specs.Names;
ghost use Rattle.sq_run.specs.Names.{same_word, is_name_byte, is_identifier, is_among, is_reserved, word_name, inside, undoubled, undoubled_from, quoted_name, name_text};
ghost use Rattle.sq_base.specs.Answers.{Finds};

use sq_base::{List, Name, NoForm, fold, whole_front};
use sq_syntax::TokenKind;
use std::alloc::{AllocError, Global};
use std::str::from_utf8;

/// The words that are names only where they are quoted (PostgreSQL manual, appendix C).
pub const RESERVED: [&str; 90] = [
    "all",
    "analyse",
    "analyze",
    "and",
    "any",
    "array",
    "as",
    "asc",
    "asymmetric",
    "between",
    "both",
    "case",
    "cast",
    "check",
    "collate",
    "column",
    "constraint",
    "create",
    "cross",
    "current_date",
    "current_timestamp",
    "default",
    "deferrable",
    "desc",
    "distinct",
    "do",
    "else",
    "end",
    "except",
    "exists",
    "false",
    "fetch",
    "for",
    "foreign",
    "from",
    "full",
    "grant",
    "group",
    "having",
    "ilike",
    "in",
    "initially",
    "inner",
    "intersect",
    "into",
    "is",
    "isnull",
    "join",
    "lateral",
    "leading",
    "left",
    "like",
    "limit",
    "localtime",
    "localtimestamp",
    "natural",
    "not",
    "notnull",
    "null",
    "offset",
    "on",
    "only",
    "or",
    "order",
    "outer",
    "overlaps",
    "placing",
    "primary",
    "references",
    "returning",
    "right",
    "select",
    "session_user",
    "similar",
    "some",
    "symmetric",
    "table",
    "then",
    "to",
    "trailing",
    "true",
    "union",
    "unique",
    "user",
    "using",
    "variadic",
    "when",
    "where",
    "window",
    "with",
];

/// Whether two texts are equal but for the case of ASCII letters.
#[tactic(auto, unfolding(crate::specs::Names::same_word))]
pub fn same_word(a: &[u8], b: &[u8]) -> bool
    ensures { result ≡ same_word a.now b.now }
{
    a.eq_ignore_ascii_case(b)
}

/// Whether a word is among these, in any letter case.
fn is_among(words: &[&str], word: &[u8]) -> bool
    ensures { result ≡ is_among (map (λ w. w.now) words.now) word.now }
{
    for other in words {
        if same_word(word, other.as_bytes()) {
            return true;
        }
    }
    false
}

/// Whether a word is reserved, in any letter case.
#[tactic(auto, unfolding(crate::specs::Names::is_reserved))]
fn is_reserved(word: &[u8]) -> bool
    ensures { result ≡ is_reserved word.now }
{
    is_among(&RESERVED, word)
}

/// Whether a byte is an ASCII letter, a digit or an underscore.
fn is_name_byte(byte: u8) -> bool
    ensures { result ≡ is_name_byte byte }
{
    byte.is_ascii_alphanumeric() || byte == b'_'
}

fn are_name_bytes(bytes: &[u8]) -> bool
    ensures { result ≡ Names.are_name_bytes bytes.now }
{
    bytes.iter().all(|byte| is_name_byte(*byte))
}

/// Whether a text is an ASCII letter or an underscore, and then these and digits.
pub fn is_identifier(bytes: &[u8]) -> bool
    ensures { result ≡ is_identifier bytes.now }
{
    match bytes.first() {
        Some(first) => !first.is_ascii_digit() && are_name_bytes(bytes),
        None => false,
    }
}

/// The text of ASCII bytes.
pub fn ascii(alloc: Global, bytes: &[u8]) -> Result<String, AllocError>
    requires { Names.are_name_bytes bytes.now ≡ true }
    ensures { IfOk result (λ text. string_bytes text ≡ bytes.now) }
{
    let mut text = String::new(alloc);
    for byte in bytes {
        text.push(*byte as char)?;
    }
    Ok(text)
}

/// The name of a word, which stands without quotes and is not reserved.
#[tactic(auto, unfolding(crate::specs::Names::word_name))]
fn word_name(alloc: Global, bytes: &[u8]) -> Result<Name, NoForm>
    ensures { Finds (λ r. r) result (word_name bytes.now) }
{
    match text_of(bytes) {
        Some(text) if !is_reserved(bytes) => Ok(fold(alloc, text)?),
        _ => Err(NoForm::Absent),
    }
}

/// What two quotes stand round.
fn inside(bytes: &[u8]) -> &[u8]
    ensures { result.now ≡ inside bytes.now }
{
    match bytes {
        [_, between @ .., _] => between,
        _ => &[],
    }
}

/// Takes a byte, unless it doubles the quote before it, and says whether the next one may double this one.
fn take_byte(name: &mut List<u8>, behind_quote: bool, byte: u8) -> Result<bool, AllocError>
    ensures { IfOk result (λ behind. (rest : List ℕ) → name.new ++ undoubled_from behind rest ≡ name.old ++ undoubled_from behind_quote (byte ∷ rest)) }
{
    if behind_quote {
        return Ok(false);
    }
    name.push(byte)?;
    Ok(byte == b'"')
}

/// The bytes with one double quote for two.
fn undoubled(alloc: Global, bytes: &[u8]) -> Result<List<u8>, AllocError>
    ensures { IfOk result (λ name. name ≡ undoubled bytes.now) }
{
    let mut name = List::new(alloc);
    let mut behind_quote = false;
    for byte in bytes {
        behind_quote = take_byte(&mut name, behind_quote, *byte)?;
    }
    Ok(name)
}

/// The text of bytes that are UTF-8.
fn text_of(bytes: &[u8]) -> Option<&str>
    ensures { MatchOption result (is_utf8 bytes.now ≡ false) (λ text. (is_utf8 bytes.now ≡ true) × (text.now ≡ bytes.now)) }
{
    match from_utf8(bytes) {
        Ok(text) => Some(text),
        Err(_) => None,
    }
}

/// The name in double quotes, cut as a word is.
#[tactic(auto, unfolding(crate::specs::Names::quoted_name))]
fn quoted_name(alloc: Global, bytes: &[u8]) -> Result<Name, NoForm>
    ensures { Finds (λ r. r) result (quoted_name bytes.now) }
{
    let name = undoubled(alloc, inside(bytes))?;
    match text_of(name.as_slice()) {
        Some(text) => Ok(Name::new(alloc, whole_front(text))?),
        None => Err(NoForm::Absent),
    }
}

/// The name that a token of this kind stands for.
#[tactic(auto, unfolding(crate::specs::Names::name_text))]
pub fn name_text(alloc: Global, kind: TokenKind, bytes: &[u8]) -> Result<Name, NoForm>
    ensures { Finds (λ r. r) result (name_text kind bytes.now) }
{
    match kind {
        TokenKind::Word => word_name(alloc, bytes),
        TokenKind::Quoted => quoted_name(alloc, bytes),
        _ => Err(NoForm::Absent),
    }
}
