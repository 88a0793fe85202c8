//! Which statements of a schema file are passed over.

ghost use Rattle.std.specs.Prelude.{◌≡◌, ◌<◌, drop, length, MatchOption};
ghost use Rattle.sq_parse_ddl.specs.PassedOver as spec;

use sq_lexemes::cursor::{begins as begins_symbol, split};
use sq_lexemes::words::is_name;
use sq_syntax::{Lexeme, Reading, Symbol};
use sq_words::{begins, begins_both, is, is_one_of};

const OTHER_STATEMENTS: [&str; 25] = [
    "set", "reset", "select", "insert", "update", "delete", "with", "truncate", "grant", "revoke",
    "comment", "begin", "start", "commit", "rollback", "end", "do", "call", "analyze", "vacuum",
    "cluster", "refresh", "lock", "notify", "listen",
];

const CHANGE_WORDS: [&str; 3] = ["create", "alter", "drop"];

const OTHER_THINGS: [&str; 29] = [
    "index",
    "extension",
    "sequence",
    "function",
    "procedure",
    "routine",
    "trigger",
    "aggregate",
    "operator",
    "cast",
    "collation",
    "policy",
    "role",
    "user",
    "group",
    "rule",
    "publication",
    "subscription",
    "statistics",
    "database",
    "language",
    "server",
    "foreign",
    "tablespace",
    "event",
    "view",
    "materialized",
    "text",
    "default",
];

const MODIFIERS: [&str; 4] = ["unique", "recursive", "constraint", "trusted"];

fn begins_other_statement(tokens: &[Lexeme]) -> bool
    ensures { result ≡ spec.begins_one_of spec.other_statements tokens.now }
{
    match split(tokens) {
        Some((lexeme, _)) => is_one_of(&OTHER_STATEMENTS, &lexeme.reading),
        None => false,
    }
}

fn begins_change_word(tokens: &[Lexeme]) -> bool
    ensures { result ≡ spec.begins_one_of spec.change_words tokens.now }
{
    match split(tokens) {
        Some((lexeme, _)) => is_one_of(&CHANGE_WORDS, &lexeme.reading),
        None => false,
    }
}

fn begins_other_thing(tokens: &[Lexeme]) -> bool
    ensures { result ≡ spec.begins_one_of spec.other_things tokens.now }
{
    match split(tokens) {
        Some((lexeme, _)) => is_one_of(&OTHER_THINGS, &lexeme.reading),
        None => false,
    }
}

fn is_modifier(reading: &Reading) -> bool
    ensures { result ≡ spec.is_one_of spec.modifiers reading.now }
{
    is_one_of(&MODIFIERS, reading)
}

/// The tokens after the first few.
fn after(count: usize, tokens: &[Lexeme]) -> &[Lexeme]
    ensures { result.now ≡ drop count tokens.now }
{
    tokens.get(count..).unwrap_or(&[])
}

/// What stands behind a word that may stand before the kind of thing that is changed.
fn after_modifier(tokens: &[Lexeme]) -> Option<&[Lexeme]>
    ensures { MatchOption result (spec.past_modifiers tokens.now ≡ tokens.now) (λ rest. (spec.past_modifiers tokens.now ≡ spec.past_modifiers rest.now) × (length rest.now < length tokens.now)) }
{
    let (first, rest) = split(tokens)?;
    let (second, others) = split(rest)?;
    if is_modifier(&first.reading) {
        Some(rest)
    } else if is("or", &first.reading) && is("replace", &second.reading) {
        Some(others)
    } else {
        None
    }
}

fn past_modifiers(tokens: &[Lexeme]) -> &[Lexeme]
    ensures { result.now ≡ spec.past_modifiers tokens.now }
{
    let mut rest = tokens;
    while let Some(after) = after_modifier(rest) {
        rest = after;
    }
    rest
}

fn past_name(tokens: &[Lexeme]) -> &[Lexeme]
    ensures { result.now ≡ spec.past_name tokens.now }
{
    match split(tokens) {
        Some((lexeme, rest)) if is_name(&lexeme.reading) => rest,
        _ => tokens,
    }
}

fn past_part(tokens: &[Lexeme]) -> &[Lexeme]
    ensures { result.now ≡ spec.past_part tokens.now }
{
    if begins_symbol(Symbol::Dot, tokens) {
        past_name(after(1, tokens))
    } else {
        tokens
    }
}

fn past_qualified_name(tokens: &[Lexeme]) -> &[Lexeme]
    ensures { result.now ≡ spec.past_qualified_name tokens.now }
{
    past_part(past_name(tokens))
}

fn past_unlogged(tokens: &[Lexeme]) -> &[Lexeme]
    ensures { result.now ≡ spec.past_unlogged tokens.now }
{
    if begins("unlogged", tokens) {
        after(1, tokens)
    } else {
        tokens
    }
}

fn past_if_not_exists(tokens: &[Lexeme]) -> &[Lexeme]
    ensures { result.now ≡ spec.past_if_not_exists tokens.now }
{
    if begins_both("if", "not", tokens) && begins("exists", after(2, tokens)) {
        after(3, tokens)
    } else {
        tokens
    }
}

fn is_other_type(tokens: &[Lexeme]) -> bool
    ensures { result ≡ spec.is_other_type tokens.now }
{
    begins("type", tokens) && !begins_both("as", "enum", past_qualified_name(after(1, tokens)))
}

fn is_partition(tokens: &[Lexeme]) -> bool
    ensures { result ≡ spec.is_partition tokens.now }
{
    begins("table", tokens)
        && begins_both(
            "partition",
            "of",
            past_qualified_name(past_if_not_exists(after(1, tokens))),
        )
}

fn is_owner(tokens: &[Lexeme]) -> bool
    ensures { result ≡ spec.is_owner tokens.now }
{
    begins("schema", tokens) && begins("owner", past_name(after(1, tokens)))
}

fn passes_other_thing(tokens: &[Lexeme]) -> bool
    ensures { result ≡ spec.passes_other_thing tokens.now }
{
    begins_change_word(tokens) && begins_other_thing(past_modifiers(after(1, tokens)))
}

fn passes_create(tokens: &[Lexeme]) -> bool
    ensures { result ≡ spec.passes_create tokens.now }
{
    let rest = after(1, tokens);
    begins("create", tokens) && (is_other_type(rest) || is_partition(past_unlogged(rest)))
}

fn passes_alter(tokens: &[Lexeme]) -> bool
    ensures { result ≡ spec.passes_alter tokens.now }
{
    let rest = after(1, tokens);
    begins("alter", tokens) && (is_owner(rest) || begins("domain", rest))
}

#[tactic(auto, unfolding(crate::specs::PassedOver::passed_over))]
pub fn is_passed_over(tokens: &[Lexeme]) -> bool
    ensures { result ≡ spec.passed_over tokens.now }
{
    begins_other_statement(tokens)
        || passes_other_thing(tokens)
        || passes_create(tokens)
        || passes_alter(tokens)
}
