use sq_base::{List, Place};

/// What a token is.
#[derive(Clone, Copy, Debug, PartialEq, Eq)]
pub enum TokenKind {
    /// A key word or a name without quotes.
    Word,
    /// A name in double quotes.
    Quoted,
    /// A string in single quotes.
    Text,
    /// A string in single quotes behind `E`, in which a backslash takes the next byte with it.
    EText,
    /// A string between two equal marks `$tag$`.
    Dollar,
    /// A number.
    Number,
    /// A numbered parameter, as `$1`.
    Parameter,
    /// A named parameter, as `@name`.
    Named,
    /// An operator.
    Operator,
    /// A bracket, a comma, a semicolon, a point, or `::`.
    Punct,
    /// A comment that names a query.
    Note,
}

/// What stands between a token and the one before it.
#[derive(Clone, Copy, Debug, PartialEq, Eq)]
pub enum Gap {
    /// Nothing.
    Nothing,
    /// Blanks or comments without a newline.
    Blank,
    /// Blanks or comments with a newline.
    Line,
}

/// A token of a source file.
#[derive(Debug, Drop)]
pub struct Token {
    pub kind: TokenKind,
    /// The bytes of the source, unchanged.
    pub bytes: List<u8>,
    /// Where its first byte stands.
    pub place: Place,
    pub gap: Gap,
}
