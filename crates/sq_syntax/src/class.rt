ghost use Rattle.std.specs.Prelude.{◌≡◌};
ghost use Rattle.sq_syntax.specs.Bytes.{
  class_of,
  plain_class,
  is_blank_byte,
  is_letter_e,
  is_letter,
  is_nonzero_digit,
  is_plain,
  is_special,
  is_bracket,
};

/// What a byte is to the lexer.
#[derive(Clone, Copy, PartialEq, Eq)]
pub enum ByteClass {
    /// A space, a tab, a carriage return, a form feed or a vertical tab.
    Blank,
    Newline,
    /// `e` or `E`.
    LetterE,
    /// Another ASCII letter, `_`, or a byte from 128 on.
    Letter,
    /// `0`.
    Zero,
    /// A digit from 1 to 9.
    Digit,
    Point,
    DoubleQuote,
    SingleQuote,
    Plus,
    Dash,
    Slash,
    Star,
    At,
    Dollar,
    Colon,
    Backslash,
    /// `<`, `>` or `=`.
    Plain,
    /// One of the other bytes of operators.
    Special,
    /// A bracket, a comma or a semicolon.
    Bracket,
    /// No token or blank begins with this byte.
    Other,
}

#[tactic(auto, unfolding(crate::specs::Bytes::is_blank_byte))]
fn is_blank_byte(byte: u8) -> bool
    ensures { result ≡ is_blank_byte byte }
{
    byte == b' ' || byte == b'\t' || byte == b'\r' || byte == 0x0C || byte == 0x0B
}

#[tactic(auto, unfolding(crate::specs::Bytes::is_letter_e))]
fn is_letter_e(byte: u8) -> bool
    ensures { result ≡ is_letter_e byte }
{
    byte == b'e' || byte == b'E'
}

#[tactic(auto, unfolding(crate::specs::Bytes::is_letter))]
fn is_letter(byte: u8) -> bool
    ensures { result ≡ is_letter byte }
{
    byte.is_ascii_alphabetic() || byte == b'_' || byte >= 128
}

#[tactic(auto, unfolding(crate::specs::Bytes::is_nonzero_digit))]
fn is_nonzero_digit(byte: u8) -> bool
    ensures { result ≡ is_nonzero_digit byte }
{
    byte.is_ascii_digit()
}

#[tactic(auto, unfolding(crate::specs::Bytes::is_plain))]
fn is_plain(byte: u8) -> bool
    ensures { result ≡ is_plain byte }
{
    byte == b'<' || byte == b'>' || byte == b'='
}

#[tactic(auto, unfolding(crate::specs::Bytes::is_special))]
fn is_special(byte: u8) -> bool
    ensures { result ≡ is_special byte }
{
    byte == b'~'
        || byte == b'!'
        || byte == b'#'
        || byte == b'%'
        || byte == b'^'
        || byte == b'&'
        || byte == b'|'
        || byte == b'`'
        || byte == b'?'
}

#[tactic(auto, unfolding(crate::specs::Bytes::is_bracket))]
fn is_bracket(byte: u8) -> bool
    ensures { result ≡ is_bracket byte }
{
    byte == b'(' || byte == b')' || byte == b'[' || byte == b']' || byte == b',' || byte == b';'
}

/// The class of a byte that is no quote mark and no dollar.
#[tactic(auto, unfolding(crate::specs::Bytes::plain_class))]
fn plain_class(byte: u8) -> ByteClass
    ensures { result ≡ plain_class byte }
{
    if is_blank_byte(byte) {
        ByteClass::Blank
    } else if byte == b'\n' {
        ByteClass::Newline
    } else if is_letter_e(byte) {
        ByteClass::LetterE
    } else if is_letter(byte) {
        ByteClass::Letter
    } else if byte == b'0' {
        ByteClass::Zero
    } else if is_nonzero_digit(byte) {
        ByteClass::Digit
    } else if byte == b'.' {
        ByteClass::Point
    } else if byte == b'+' {
        ByteClass::Plus
    } else if byte == b'-' {
        ByteClass::Dash
    } else if byte == b'/' {
        ByteClass::Slash
    } else if byte == b'*' {
        ByteClass::Star
    } else if byte == b'@' {
        ByteClass::At
    } else if byte == b':' {
        ByteClass::Colon
    } else if byte == b'\\' {
        ByteClass::Backslash
    } else if is_plain(byte) {
        ByteClass::Plain
    } else if is_special(byte) {
        ByteClass::Special
    } else if is_bracket(byte) {
        ByteClass::Bracket
    } else {
        ByteClass::Other
    }
}

/// The class of the byte.
#[tactic(auto, unfolding(crate::specs::Bytes::class_of))]
pub fn class_of(byte: u8) -> ByteClass
    ensures { result ≡ class_of byte }
{
    if byte == b'"' {
        ByteClass::DoubleQuote
    } else if byte == b'\'' {
        ByteClass::SingleQuote
    } else if byte == b'$' {
        ByteClass::Dollar
    } else {
        plain_class(byte)
    }
}
