//! Names and words of queries.

ghost use Rattle.std.specs.Prelude.{◌≡◌};
ghost use Rattle.sq_syntax.specs.declared.symbol.Symbol.TheVariants as s;
ghost use Rattle.sq_grammar.specs.Queries as spec;
ghost use Rattle.sq_grammar.specs.Reading.{many, sees};
ghost use Rattle.sq_parse_expr.specs.Outputs.{locked_names};
ghost use Rattle.sq_lexemes.specs.Reads.{Reads};

use sq_base::List;
use sq_lexemes::cursor::{Cursor, split};
use sq_lexemes::error::ParseError;
use sq_lexemes::name_lists::{bracketed_names, names};
use sq_lexemes::names::{name, word};
use sq_lexemes::words::is_bare_label;
use sq_syntax::{
    Alias, Identifier, JoinKind, Label, Lexeme, Lock, Materialized, Quantity, RowWord, Strength,
    Symbol, Waiting,
};
use std::alloc::Global;

/// A name that has no AS before it.
#[tactic(auto, unfolding(crate::specs::Words::bare_name))]
fn bare_name(alloc: Global, tokens: &mut Cursor<'_>) -> Result<Identifier, ParseError>
    ensures { Reads (spec.bare_name tokens.old) result tokens.new }
{
    let lexeme = tokens.take()?;
    if !is_bare_label(&lexeme.reading) {
        return Err(ParseError::Syntax);
    }
    word(alloc, lexeme)
}

fn begins_label(tokens: &[Lexeme]) -> bool
    ensures { result ≡ spec.begins_label tokens.now }
{
    match split(tokens) {
        Some((lexeme, _)) => is_bare_label(&lexeme.reading),
        None => false,
    }
}

#[tactic(auto, unfolding(crate::specs::Words::alias))]
pub fn alias(alloc: Global, tokens: &mut Cursor<'_>) -> Result<Alias, ParseError>
    ensures { Reads (spec.alias tokens.old) result tokens.new }
{
    let has_as = tokens.sees(Symbol::As);
    let name = if has_as {
        tokens.expect(Symbol::As)?;
        name(alloc, tokens)?
    } else {
        bare_name(alloc, tokens)?
    };
    let columns = bracketed_names(alloc, tokens)?;
    Ok(Alias {
        has_as,
        name,
        columns,
    })
}

#[tactic(auto, unfolding(crate::specs::Words::optional_alias))]
pub fn optional_alias(alloc: Global, tokens: &mut Cursor<'_>) -> Result<Option<Alias>, ParseError>
    ensures { Reads (spec.optional_alias tokens.old) result tokens.new }
{
    if tokens.sees(Symbol::As) || begins_label(tokens.rest()) {
        Ok(Some(alias(alloc, tokens)?))
    } else {
        Ok(None)
    }
}

#[tactic(auto, unfolding(crate::specs::Words::label))]
pub fn label(alloc: Global, tokens: &mut Cursor<'_>) -> Result<Label, ParseError>
    ensures { Reads (spec.label tokens.old) result tokens.new }
{
    if tokens.sees(Symbol::As) {
        tokens.expect(Symbol::As)?;
        Ok(Label::As(name(alloc, tokens)?))
    } else if begins_label(tokens.rest()) {
        Ok(Label::Bare(bare_name(alloc, tokens)?))
    } else {
        Ok(Label::Unsaid)
    }
}

fn outer(tokens: &mut Cursor<'_>, plain: JoinKind, long: JoinKind) -> Result<JoinKind, ParseError>
    ensures { Reads (spec.outer plain long tokens.old) result tokens.new }
{
    let has_outer = tokens.optional(Symbol::Outer)?;
    tokens.expect(Symbol::Join)?;
    Ok(if has_outer { long } else { plain })
}

#[tactic(auto, unfolding(crate::specs::Words::join_words))]
pub fn join_words(tokens: &mut Cursor<'_>) -> Result<JoinKind, ParseError>
    ensures { Reads (spec.join_words tokens.old) result tokens.new }
{
    if tokens.sees(Symbol::Inner) {
        tokens.expect(Symbol::Inner)?;
        tokens.expect(Symbol::Join)?;
        Ok(JoinKind::Inner)
    } else if tokens.sees(Symbol::Left) {
        tokens.expect(Symbol::Left)?;
        outer(tokens, JoinKind::Left, JoinKind::LeftOuter)
    } else if tokens.sees(Symbol::Right) {
        tokens.expect(Symbol::Right)?;
        outer(tokens, JoinKind::Right, JoinKind::RightOuter)
    } else if tokens.sees(Symbol::Full) {
        tokens.expect(Symbol::Full)?;
        outer(tokens, JoinKind::Full, JoinKind::FullOuter)
    } else {
        tokens.expect(Symbol::Join)?;
        Ok(JoinKind::Unsaid)
    }
}

pub fn begins_join(tokens: &Cursor<'_>) -> bool
    ensures { result ≡ spec.begins_join tokens.now.tokens }
{
    tokens.sees(Symbol::Cross)
        || tokens.sees(Symbol::Join)
        || tokens.sees(Symbol::Inner)
        || tokens.sees(Symbol::Left)
        || tokens.sees(Symbol::Right)
        || tokens.sees(Symbol::Full)
}

#[tactic(auto, unfolding(crate::specs::Words::quantity_word))]
pub fn quantity(tokens: &mut Cursor<'_>) -> Result<Quantity, ParseError>
    ensures { Reads (spec.quantity_word tokens.old) result tokens.new }
{
    if tokens.sees(Symbol::All) {
        tokens.expect(Symbol::All)?;
        Ok(Quantity::All)
    } else if tokens.sees(Symbol::Distinct) {
        tokens.expect(Symbol::Distinct)?;
        Ok(Quantity::Distinct)
    } else {
        Ok(Quantity::Unsaid)
    }
}

#[tactic(auto, unfolding(crate::specs::Words::materialized_words))]
pub fn materialized(tokens: &mut Cursor<'_>) -> Result<Materialized, ParseError>
    ensures { Reads (spec.materialized_words tokens.old) result tokens.new }
{
    if tokens.sees(Symbol::Materialized) {
        tokens.expect(Symbol::Materialized)?;
        Ok(Materialized::Yes)
    } else if tokens.sees(Symbol::Not) {
        tokens.expect(Symbol::Not)?;
        tokens.expect(Symbol::Materialized)?;
        Ok(Materialized::No)
    } else {
        Ok(Materialized::Unsaid)
    }
}

#[tactic(auto, unfolding(crate::specs::Words::row_words))]
pub fn row_word(tokens: &mut Cursor<'_>) -> Result<RowWord, ParseError>
    ensures { Reads (spec.row_words tokens.old) result tokens.new }
{
    if tokens.sees(Symbol::Row) {
        tokens.expect(Symbol::Row)?;
        Ok(RowWord::Row)
    } else if tokens.sees(Symbol::Rows) {
        tokens.expect(Symbol::Rows)?;
        Ok(RowWord::Rows)
    } else {
        Ok(RowWord::Unsaid)
    }
}

#[tactic(auto, unfolding(crate::specs::Words::strength))]
fn strength(tokens: &mut Cursor<'_>) -> Result<Strength, ParseError>
    ensures { Reads (spec.strength tokens.old) result tokens.new }
{
    if tokens.sees(Symbol::Update) {
        tokens.expect(Symbol::Update)?;
        Ok(Strength::Update)
    } else if tokens.sees(Symbol::No) {
        tokens.expect(Symbol::No)?;
        tokens.expect(Symbol::Key)?;
        tokens.expect(Symbol::Update)?;
        Ok(Strength::NoKeyUpdate)
    } else if tokens.sees(Symbol::Share) {
        tokens.expect(Symbol::Share)?;
        Ok(Strength::Share)
    } else {
        tokens.expect(Symbol::Key)?;
        tokens.expect(Symbol::Share)?;
        Ok(Strength::KeyShare)
    }
}

#[tactic(auto, unfolding(crate::specs::Words::waiting))]
fn waiting(tokens: &mut Cursor<'_>) -> Result<Waiting, ParseError>
    ensures { Reads (spec.waiting tokens.old) result tokens.new }
{
    if tokens.sees(Symbol::NoWait) {
        tokens.expect(Symbol::NoWait)?;
        Ok(Waiting::NoWait)
    } else if tokens.sees(Symbol::Skip) {
        tokens.expect(Symbol::Skip)?;
        tokens.expect(Symbol::Locked)?;
        Ok(Waiting::SkipLocked)
    } else {
        Ok(Waiting::Unsaid)
    }
}

/// The names behind OF.
fn locked(alloc: Global, tokens: &mut Cursor<'_>) -> Result<List<Identifier>, ParseError>
    ensures { Reads (locked_names tokens.old) result tokens.new }
{
    if tokens.sees(Symbol::Of) {
        tokens.expect(Symbol::Of)?;
        names(alloc, tokens)
    } else {
        Ok(List::new(alloc))
    }
}

#[tactic(auto, unfolding(crate::specs::Words::lock))]
fn lock(alloc: Global, tokens: &mut Cursor<'_>) -> Result<Lock, ParseError>
    ensures { Reads (spec.lock tokens.old) result tokens.new }
{
    tokens.expect(Symbol::For)?;
    let strength = strength(tokens)?;
    let of = locked(alloc, tokens)?;
    let waiting = waiting(tokens)?;
    Ok(Lock {
        strength,
        of,
        waiting,
    })
}

pub fn locks(alloc: Global, tokens: &mut Cursor<'_>) -> Result<List<Lock>, ParseError>
    ensures { Reads (many (sees s.For) spec.lock tokens.old) result tokens.new }
{
    let mut found = List::new(alloc);
    for _turn in 0..tokens.left() {
        if !tokens.sees(Symbol::For) {
            return Ok(found);
        }
        let next = lock(alloc, tokens)?;
        found.push(next)?;
    }
    Ok(found)
}
