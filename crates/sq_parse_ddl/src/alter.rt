//! ALTER TABLE (PostgreSQL manual, ALTER TABLE).

ghost use Rattle.std.specs.Prelude.{◌≡◌};
ghost use Rattle.sq_syntax.specs.declared.ddl.Ddl.TheVariants as ddl_kind;
ghost use Rattle.sq_grammar.specs.Schemas as spec;
ghost use Rattle.sq_grammar.specs.Schemas.{numbered};
ghost use Rattle.sq_lexemes.specs.Reads.{Reads};
ghost use Rattle.sq_parse_ddl.specs.Parts as parts;

use crate::actions::actions;
use sq_lexemes::cursor::Cursor;
use sq_lexemes::error::ParseError;
use sq_lexemes::names::{name, qualified_name};
use sq_syntax::{AlterTable, Ddl, Symbol, TableChange};
use sq_words::{begins, expect_word, if_exists, optional_word, sees_both, sees_word};
use sqlite_items::Boxed;
use std::alloc::Global;

fn rename_column(alloc: Global, tokens: &mut Cursor<'_>) -> Result<TableChange, ParseError>
    ensures { Reads (spec.rename_column tokens.old) result tokens.new }
{
    let has_column = optional_word(tokens, "column")?;
    let from = name(alloc, tokens)?;
    expect_word(tokens, "to")?;
    let to = name(alloc, tokens)?;
    Ok(TableChange::RenameColumn(has_column, from, to))
}

fn rename_constraint(alloc: Global, tokens: &mut Cursor<'_>) -> Result<TableChange, ParseError>
    ensures { Reads (spec.rename_constraint tokens.old) result tokens.new }
{
    expect_word(tokens, "constraint")?;
    let from = name(alloc, tokens)?;
    expect_word(tokens, "to")?;
    let to = name(alloc, tokens)?;
    Ok(TableChange::RenameConstraint(from, to))
}

#[tactic(auto, unfolding(crate::specs::Words::rename))]
fn rename(alloc: Global, tokens: &mut Cursor<'_>) -> Result<TableChange, ParseError>
    ensures { Reads (spec.rename tokens.old) result tokens.new }
{
    expect_word(tokens, "rename")?;
    if sees_word(tokens, "to") {
        expect_word(tokens, "to")?;
        Ok(TableChange::RenameTo(name(alloc, tokens)?))
    } else if sees_word(tokens, "constraint") {
        rename_constraint(alloc, tokens)
    } else {
        rename_column(alloc, tokens)
    }
}

fn set_schema(alloc: Global, tokens: &mut Cursor<'_>) -> Result<TableChange, ParseError>
    ensures { Reads (spec.set_schema tokens.old) result tokens.new }
{
    expect_word(tokens, "set")?;
    expect_word(tokens, "schema")?;
    Ok(TableChange::SetSchema(name(alloc, tokens)?))
}

#[tactic(auto, unfolding(crate::specs::Words::change_of_table))]
fn change(alloc: Global, tokens: &mut Cursor<'_>) -> Result<TableChange, ParseError>
    ensures { Reads (spec.change_of_table tokens.old) result tokens.new }
{
    if sees_word(tokens, "rename") {
        rename(alloc, tokens)
    } else if sees_both(tokens, "set", "schema") {
        set_schema(alloc, tokens)
    } else {
        actions(alloc, tokens)
    }
}

/// The star behind the name of a table.
fn star(tokens: &mut Cursor<'_>) -> Result<bool, ParseError>
    ensures { Reads (parts.star tokens.old) result tokens.new }
{
    if !begins("*", tokens.rest()) {
        return Ok(false);
    }
    tokens.expect(Symbol::Times)?;
    Ok(true)
}

#[tactic(auto, unfolding(crate::specs::Words::alter_table))]
pub fn alter_table(alloc: Global, tokens: &mut Cursor<'_>) -> Result<Boxed<Ddl>, ParseError>
    ensures { Reads (numbered spec.alter_table ddl_kind.AlterTable tokens.old) result tokens.new }
{
    let begun = tokens.copy();
    expect_word(tokens, "alter")?;
    expect_word(tokens, "table")?;
    let if_exists = if_exists(tokens)?;
    let has_only = optional_word(tokens, "only")?;
    let name = qualified_name(alloc, tokens)?;
    let has_star = star(tokens)?;
    let change = change(alloc, tokens)?;
    let form = AlterTable {
        if_exists,
        has_only,
        name,
        has_star,
        change,
    };
    Ok(Boxed::new(
        alloc,
        Ddl::AlterTable(tokens.node(&begun, begun.here(), form)),
    )?)
}
