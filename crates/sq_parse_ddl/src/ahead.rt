//! What the tokens ahead decide: whether an action of ALTER TABLE is read, or kept as a run.

ghost use Rattle.std.specs.Prelude.{◌≡◌};
ghost use Rattle.sq_syntax.specs.Schemas as spec;
ghost use Rattle.sq_parse_ddl.specs.Ahead.{readings, past_column, begins_alter};

use sq_lexemes::cursor::split;
use sq_lexemes::words::is_name;
use sq_syntax::Lexeme;
use sq_words::{begins, begins_both};

/// SET NOT, DROP NOT, SET DATA or TYPE.
fn begins_column_change(tokens: &[Lexeme]) -> bool
    ensures { result ≡ spec.begins_column_change (readings tokens.now) }
{
    begins("type", tokens)
        || begins_both("set", "not", tokens)
        || begins_both("set", "data", tokens)
        || begins_both("drop", "not", tokens)
}

/// A name and such a change.
fn begins_named_change(tokens: &[Lexeme]) -> bool
    ensures { result ≡ spec.begins_named_change (readings tokens.now) }
{
    match split(tokens) {
        Some((lexeme, rest)) => is_name(&lexeme.reading) && begins_column_change(rest),
        None => false,
    }
}

fn past_column(tokens: &[Lexeme]) -> &[Lexeme]
    ensures { result.now ≡ past_column tokens.now }
{
    match split(tokens) {
        Some((_, rest)) if begins("column", tokens) => rest,
        _ => tokens,
    }
}

/// ALTER, COLUMN where it is written, a name and such a change.
fn begins_alter(tokens: &[Lexeme]) -> bool
    ensures { result ≡ begins_alter tokens.now }
{
    match split(tokens) {
        Some((_, rest)) => begins("alter", tokens) && begins_named_change(past_column(rest)),
        None => false,
    }
}

/// The words of an action that is no run, or a point.
pub fn begins_action(tokens: &[Lexeme]) -> bool
    ensures { result ≡ spec.begins_action (readings tokens.now) }
{
    begins(".", tokens)
        || begins("add", tokens)
        || begins("drop", tokens)
        || begins("rename", tokens)
        || begins_both("set", "schema", tokens)
        || begins_alter(tokens)
}
