//! The words and signs of the grammar.

ghost use Rattle.std.specs.Prelude.{◌≡◌, ◌∷◌, bytes_eq};
ghost use Rattle.std.specs.List.{list_any};
ghost use Rattle.sq_syntax.specs.Symbols as symbols;
ghost use Rattle.sq_syntax.specs.ExpressionPieces as pieces;
ghost use Rattle.sq_syntax.specs.declared.symbol.Reading.TheVariants as reading;

use crate::look_up::same;
use sq_syntax::{Reading, Symbol};

/// The bytes of a symbol.
pub fn text_of(symbol: Symbol) -> &'static str
    ensures { result.now ≡ symbols.text symbol }
{
    match symbol {
        Symbol::Open => "(",
        Symbol::Close => ")",
        Symbol::OpenSquare => "[",
        Symbol::CloseSquare => "]",
        Symbol::Comma => ",",
        Symbol::Semicolon => ";",
        Symbol::Dot => ".",
        Symbol::Colons => "::",
        Symbol::Power => "^",
        Symbol::Times => "*",
        Symbol::Divide => "/",
        Symbol::Modulo => "%",
        Symbol::Plus => "+",
        Symbol::Minus => "-",
        Symbol::Less => "<",
        Symbol::Greater => ">",
        Symbol::Equal => "=",
        Symbol::LessEqual => "<=",
        Symbol::GreaterEqual => ">=",
        Symbol::NotEqual => "<>",
        Symbol::All => "all",
        Symbol::And => "and",
        Symbol::Any => "any",
        Symbol::Arg => "arg",
        Symbol::Array => "array",
        Symbol::As => "as",
        Symbol::Asc => "asc",
        Symbol::At => "at",
        Symbol::Between => "between",
        Symbol::By => "by",
        Symbol::Case => "case",
        Symbol::Cast => "cast",
        Symbol::Character => "character",
        Symbol::Coalesce => "coalesce",
        Symbol::Collate => "collate",
        Symbol::Cross => "cross",
        Symbol::CurrentDate => "current_date",
        Symbol::CurrentTimestamp => "current_timestamp",
        Symbol::Desc => "desc",
        Symbol::Distinct => "distinct",
        Symbol::Double => "double",
        Symbol::Else => "else",
        Symbol::End => "end",
        Symbol::Except => "except",
        Symbol::Exists => "exists",
        Symbol::Extract => "extract",
        Symbol::False => "false",
        Symbol::Filter => "filter",
        Symbol::First => "first",
        Symbol::For => "for",
        Symbol::From => "from",
        Symbol::Full => "full",
        Symbol::Greatest => "greatest",
        Symbol::Group => "group",
        Symbol::Having => "having",
        Symbol::Ilike => "ilike",
        Symbol::In => "in",
        Symbol::Inner => "inner",
        Symbol::Intersect => "intersect",
        Symbol::Is => "is",
        Symbol::IsNull => "isnull",
        Symbol::Join => "join",
        Symbol::Key => "key",
        Symbol::Last => "last",
        Symbol::Least => "least",
        Symbol::Left => "left",
        Symbol::Like => "like",
        Symbol::Limit => "limit",
        Symbol::LocalTimestamp => "localtimestamp",
        Symbol::Locked => "locked",
        Symbol::Materialized => "materialized",
        Symbol::Narg => "narg",
        Symbol::No => "no",
        Symbol::Not => "not",
        Symbol::NotNull => "notnull",
        Symbol::NoWait => "nowait",
        Symbol::Null => "null",
        Symbol::NullIf => "nullif",
        Symbol::Nulls => "nulls",
        Symbol::Of => "of",
        Symbol::Offset => "offset",
        Symbol::On => "on",
        Symbol::Or => "or",
        Symbol::Order => "order",
        Symbol::Outer => "outer",
        Symbol::Precision => "precision",
        Symbol::Right => "right",
        Symbol::Row => "row",
        Symbol::Rows => "rows",
        Symbol::Select => "select",
        Symbol::Share => "share",
        Symbol::Skip => "skip",
        Symbol::Slice => "slice",
        Symbol::Some => "some",
        Symbol::Sqlc => "sqlc",
        Symbol::Symmetric => "symmetric",
        Symbol::Then => "then",
        Symbol::Time => "time",
        Symbol::True => "true",
        Symbol::Union => "union",
        Symbol::Unknown => "unknown",
        Symbol::Update => "update",
        Symbol::Using => "using",
        Symbol::Varying => "varying",
        Symbol::When => "when",
        Symbol::Where => "where",
        Symbol::With => "with",
        Symbol::Without => "without",
        Symbol::Zone => "zone",
    }
}

/// The words that are names without quotes too.
pub fn is_free(symbol: Symbol) -> bool
    ensures { result ≡ symbols.is_free symbol }
{
    match symbol {
        Symbol::Arg
        | Symbol::At
        | Symbol::By
        | Symbol::Character
        | Symbol::Coalesce
        | Symbol::Double
        | Symbol::Extract
        | Symbol::Filter
        | Symbol::First
        | Symbol::Greatest
        | Symbol::Key
        | Symbol::Last
        | Symbol::Least
        | Symbol::Locked
        | Symbol::Materialized
        | Symbol::Narg
        | Symbol::No
        | Symbol::NoWait
        | Symbol::NullIf
        | Symbol::Nulls
        | Symbol::Of
        | Symbol::Precision
        | Symbol::Row
        | Symbol::Rows
        | Symbol::Share
        | Symbol::Skip
        | Symbol::Slice
        | Symbol::Sqlc
        | Symbol::Time
        | Symbol::Unknown
        | Symbol::Update
        | Symbol::Varying
        | Symbol::Without
        | Symbol::Zone => true,
        _ => false,
    }
}

/// The word is one of these.
pub fn is_among(word: &[u8], words: &[&str]) -> bool
    ensures { result ≡ list_any (λ w. bytes_eq w.now word.now) words.now }
{
    words.iter().any(|other| same(other, word))
}

const RESERVED_WORDS: [&str; 35] = [
    "analyse",
    "analyze",
    "asymmetric",
    "both",
    "check",
    "column",
    "constraint",
    "create",
    "default",
    "deferrable",
    "do",
    "fetch",
    "foreign",
    "grant",
    "initially",
    "into",
    "lateral",
    "leading",
    "localtime",
    "natural",
    "only",
    "overlaps",
    "placing",
    "primary",
    "references",
    "returning",
    "session_user",
    "similar",
    "table",
    "to",
    "trailing",
    "unique",
    "user",
    "variadic",
    "window",
];

/// Words that are names only where they are quoted, beside those of the grammar.
fn is_reserved(word: &[u8]) -> bool
    ensures { result ≡ symbols.among symbols.reserved_words word.now }
{
    is_among(word, &RESERVED_WORDS)
}

const TIED_WORDS: [&str; 9] = [
    "char", "day", "hour", "minute", "month", "over", "second", "within", "year",
];

/// Words that are no names without AS before them.
fn is_tied(word: &[u8]) -> bool
    ensures { result ≡ symbols.among symbols.tied_words word.now }
{
    is_among(word, &TIED_WORDS)
}

/// The token is a name: a word that is not reserved, or a quoted name.
pub fn is_name(reading: &Reading) -> bool
    ensures { result ≡ symbols.is_name reading.now }
{
    match reading {
        Reading::Symbol(symbol) => is_free(*symbol),
        Reading::Word(word) => !is_reserved(word.as_slice()),
        Reading::Quoted(_) => true,
        _ => false,
    }
}

fn is_bare_symbol(symbol: Symbol) -> bool
    ensures { result ≡ symbols.is_bare_label (reading.Symbol symbol) }
{
    match symbol {
        Symbol::Character
        | Symbol::Filter
        | Symbol::Precision
        | Symbol::Varying
        | Symbol::Without => false,
        _ => is_free(symbol),
    }
}

/// Names of outputs and sources that need no AS.
pub fn is_bare_label(reading: &Reading) -> bool
    ensures { result ≡ symbols.is_bare_label reading.now }
{
    match reading {
        Reading::Symbol(symbol) => is_bare_symbol(*symbol),
        Reading::Word(word) => !is_reserved(word.as_slice()) && !is_tied(word.as_slice()),
        Reading::Quoted(_) => true,
        _ => false,
    }
}

/// The token may be the name of a function.
pub fn is_call(reading: &Reading) -> bool
    ensures { result ≡ pieces.is_call_reading reading.now }
{
    match reading {
        Reading::Symbol(Symbol::Left | Symbol::Right) => true,
        _ => is_name(reading),
    }
}

fn is_field_symbol(symbol: Symbol) -> bool
    ensures { result ≡ pieces.is_field_symbol symbol }
{
    match symbol {
        Symbol::Open
        | Symbol::Close
        | Symbol::OpenSquare
        | Symbol::CloseSquare
        | Symbol::Comma
        | Symbol::Semicolon
        | Symbol::Dot
        | Symbol::Colons
        | Symbol::Power
        | Symbol::Times
        | Symbol::Divide
        | Symbol::Modulo
        | Symbol::Plus
        | Symbol::Minus
        | Symbol::Less
        | Symbol::Greater
        | Symbol::Equal
        | Symbol::LessEqual
        | Symbol::GreaterEqual
        | Symbol::NotEqual
        | Symbol::Case
        | Symbol::End => false,
        _ => true,
    }
}

/// The words of EXTRACT.
pub fn is_field(reading: &Reading) -> bool
    ensures { result ≡ pieces.is_field reading.now }
{
    match reading {
        Reading::Symbol(symbol) => is_field_symbol(*symbol),
        Reading::Word(_) => true,
        _ => false,
    }
}

const AGGREGATE_WORDS: [&str; 14] = [
    "count",
    "sum",
    "avg",
    "min",
    "max",
    "bool_and",
    "bool_or",
    "every",
    "string_agg",
    "array_agg",
    "json_agg",
    "json_object_agg",
    "jsonb_agg",
    "jsonb_object_agg",
];

/// The names of aggregates.
pub fn is_aggregate(word: &[u8]) -> bool
    ensures { result ≡ symbols.among pieces.aggregates word.now }
{
    is_among(word, &AGGREGATE_WORDS)
}

const OTHER_CALL_WORDS: [&str; 6] = [
    "coalesce", "nullif", "greatest", "least", "exists", "extract",
];

/// Words before a bracket that are no calls.
pub fn is_other_call(word: &[u8]) -> bool
    ensures { result ≡ symbols.among pieces.other_calls word.now }
{
    is_among(word, &OTHER_CALL_WORDS)
}
