//! Names of the table that a statement changes, and of its columns (PostgreSQL manual, INSERT, UPDATE
//! and DELETE).

ghost use Rattle.std.specs.Prelude.{◌≡◌};
ghost use Rattle.sq_syntax.specs.Statements as syntax;
ghost use Rattle.sq_grammar.specs.Queries as query_spec;
ghost use Rattle.sq_grammar.specs.Statements as spec;
ghost use Rattle.sq_lexemes.specs.Reads.{Reads};
ghost use Rattle.sq_parse_stmt.specs.Changes as parts;

use sq_base::List;
use sq_lexemes::cursor::{Cursor, is, split};
use sq_lexemes::error::ParseError;
use sq_lexemes::name_lists::in_brackets;
use sq_lexemes::names::{name, word};
use sq_lexemes::words::{is_bare_label, is_name};
use sq_syntax::{Identifier, Lexeme, Reading, Symbol, TableAlias};
use std::alloc::Global;

/// A bracket and a name.
fn begins_names(tokens: &[Lexeme]) -> bool
    ensures { result ≡ spec.begins_names tokens.now }
{
    match tokens {
        [first, second, ..] => is(Symbol::Open, &first.reading) && is_name(&second.reading),
        _ => false,
    }
}

/// The names in brackets, where some come next.
#[tactic(auto, unfolding(crate::specs::Words::columns))]
pub fn columns(alloc: Global, tokens: &mut Cursor<'_>) -> Result<List<Identifier>, ParseError>
    ensures { Reads (spec.columns tokens.old) result tokens.new }
{
    if begins_names(tokens.rest()) {
        in_brackets(alloc, tokens)
    } else {
        Ok(List::new(alloc))
    }
}

/// The name behind AS, where it comes next.
#[tactic(auto, unfolding(crate::specs::Words::as_name))]
pub fn as_name(alloc: Global, tokens: &mut Cursor<'_>) -> Result<Option<Identifier>, ParseError>
    ensures { Reads (spec.as_name tokens.old) result tokens.new }
{
    if !tokens.sees(Symbol::As) {
        return Ok(None);
    }
    tokens.expect(Symbol::As)?;
    Ok(Some(name(alloc, tokens)?))
}

/// A name that has no AS before it.
#[tactic(auto, unfolding(crate::specs::Words::bare_name))]
fn bare_name(alloc: Global, tokens: &mut Cursor<'_>) -> Result<Identifier, ParseError>
    ensures { Reads (query_spec.bare_name tokens.old) result tokens.new }
{
    let lexeme = tokens.take()?;
    if !is_bare_label(&lexeme.reading) {
        return Err(ParseError::Syntax);
    }
    word(alloc, lexeme)
}

fn is_set(reading: &Reading) -> bool
    ensures { result ≡ syntax.is_set reading.now }
{
    match reading {
        Reading::Word(word) => word.as_slice() == "set".as_bytes(),
        _ => false,
    }
}

fn begins_label(tokens: &[Lexeme]) -> bool
    ensures { result ≡ query_spec.begins_label tokens.now }
{
    match split(tokens) {
        Some((lexeme, _)) => is_bare_label(&lexeme.reading),
        None => false,
    }
}

/// SET behind the table of an UPDATE is no name without AS.
fn begins_unset(tokens: &[Lexeme]) -> bool
    ensures { result ≡ spec.begins_unset tokens.now }
{
    match split(tokens) {
        Some((lexeme, _)) => is_bare_label(&lexeme.reading) && !is_set(&lexeme.reading),
        None => false,
    }
}

/// The name of the table, behind AS or where one stands.
fn alias_where(
    alloc: Global,
    tokens: &mut Cursor<'_>,
    is_named: bool,
) -> Result<Option<TableAlias>, ParseError>
    ensures { Reads (parts.alias_where is_named tokens.old) result tokens.new }
{
    if tokens.sees(Symbol::As) {
        tokens.expect(Symbol::As)?;
        let name = name(alloc, tokens)?;
        Ok(Some(TableAlias { has_as: true, name }))
    } else if is_named {
        let name = bare_name(alloc, tokens)?;
        Ok(Some(TableAlias {
            has_as: false,
            name,
        }))
    } else {
        Ok(None)
    }
}

/// The name of the table of an UPDATE.
#[tactic(auto, unfolding(crate::specs::Words::table_alias))]
pub fn updated_alias(
    alloc: Global,
    tokens: &mut Cursor<'_>,
) -> Result<Option<TableAlias>, ParseError>
    ensures { Reads (spec.table_alias spec.begins_unset tokens.old) result tokens.new }
{
    let is_named = begins_unset(tokens.rest());
    alias_where(alloc, tokens, is_named)
}

/// The name of the table of a DELETE.
#[tactic(auto, unfolding(crate::specs::Words::table_alias))]
pub fn deleted_alias(
    alloc: Global,
    tokens: &mut Cursor<'_>,
) -> Result<Option<TableAlias>, ParseError>
    ensures { Reads (spec.table_alias query_spec.begins_label tokens.old) result tokens.new }
{
    let is_named = begins_label(tokens.rest());
    alias_where(alloc, tokens, is_named)
}
