/// What the next bytes of a file are: a token of some class, or a piece of what stands between tokens.
#[derive(Clone, Copy, PartialEq, Eq)]
pub enum ItemKind {
    /// Spaces, tabs, newlines and the like.
    Blank,
    /// Two dashes, to before the newline. It is a token where it names a query.
    LineComment,
    /// A comment between `/*` and `*/`, which may hold others.
    BlockComment,
    /// A line that begins with a backslash.
    BackslashLine,
    Word,
    Quoted,
    Text,
    EText,
    Dollar,
    Number,
    Parameter,
    Named,
    Operator,
    Punct,
}

/// Why nothing is read at a place.
#[derive(Clone, Copy, PartialEq, Eq)]
pub enum Stop {
    /// A quoted form or a block comment has no end.
    Unterminated,
    /// No token and no blank begins here.
    BadByte,
}
