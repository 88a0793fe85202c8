//! ALTER TYPE (PostgreSQL manual, ALTER TYPE).

ghost use Rattle.std.specs.Prelude.{◌≡◌};
ghost use Rattle.sq_syntax.specs.declared.ddl.Ddl.TheVariants as ddl_kind;
ghost use Rattle.sq_grammar.specs.Schemas as spec;
ghost use Rattle.sq_grammar.specs.Schemas.{numbered};
ghost use Rattle.sq_lexemes.specs.Reads.{Reads};

use crate::runs::{Stop, some_run};
use sq_lexemes::cursor::Cursor;
use sq_lexemes::error::ParseError;
use sq_lexemes::names::{name, qualified_name};
use sq_lexemes::texts::text;
use sq_syntax::{AlterType, Ddl, Neighbour, TypeChange};
use sq_words::{begins, expect_word, if_not_exists, sees_both, sees_word};
use sqlite_items::Boxed;
use std::alloc::Global;

#[tactic(auto, unfolding(crate::specs::Words::neighbour))]
fn neighbour(alloc: Global, tokens: &mut Cursor<'_>) -> Result<Neighbour, ParseError>
    ensures { Reads (spec.neighbour tokens.old) result tokens.new }
{
    if sees_word(tokens, "before") {
        expect_word(tokens, "before")?;
        Ok(Neighbour::Before(text(alloc, tokens)?))
    } else if sees_word(tokens, "after") {
        expect_word(tokens, "after")?;
        Ok(Neighbour::After(text(alloc, tokens)?))
    } else {
        Ok(Neighbour::Unsaid)
    }
}

#[tactic(auto, unfolding(crate::specs::Words::add_value))]
fn add_value(alloc: Global, tokens: &mut Cursor<'_>) -> Result<TypeChange, ParseError>
    ensures { Reads (spec.add_value tokens.old) result tokens.new }
{
    expect_word(tokens, "add")?;
    expect_word(tokens, "value")?;
    let if_not_exists = if_not_exists(tokens)?;
    let label = text(alloc, tokens)?;
    let neighbour = neighbour(alloc, tokens)?;
    Ok(TypeChange::AddValue(if_not_exists, label, neighbour))
}

#[tactic(auto, unfolding(crate::specs::Words::rename_value))]
fn rename_value(alloc: Global, tokens: &mut Cursor<'_>) -> Result<TypeChange, ParseError>
    ensures { Reads (spec.rename_value tokens.old) result tokens.new }
{
    expect_word(tokens, "rename")?;
    expect_word(tokens, "value")?;
    let from = text(alloc, tokens)?;
    expect_word(tokens, "to")?;
    let to = text(alloc, tokens)?;
    Ok(TypeChange::RenameValue(from, to))
}

fn rename_type(alloc: Global, tokens: &mut Cursor<'_>) -> Result<TypeChange, ParseError>
    ensures { Reads (spec.rename_type tokens.old) result tokens.new }
{
    expect_word(tokens, "rename")?;
    expect_word(tokens, "to")?;
    Ok(TypeChange::RenameTo(name(alloc, tokens)?))
}

fn set_schema(alloc: Global, tokens: &mut Cursor<'_>) -> Result<TypeChange, ParseError>
    ensures { Reads (spec.set_type_schema tokens.old) result tokens.new }
{
    expect_word(tokens, "set")?;
    expect_word(tokens, "schema")?;
    Ok(TypeChange::SetSchema(name(alloc, tokens)?))
}

#[tactic(auto, unfolding(crate::specs::Words::change_of_type))]
fn change(alloc: Global, tokens: &mut Cursor<'_>) -> Result<TypeChange, ParseError>
    ensures { Reads (spec.change_of_type tokens.old) result tokens.new }
{
    if sees_both(tokens, "add", "value") {
        add_value(alloc, tokens)
    } else if sees_both(tokens, "rename", "value") {
        rename_value(alloc, tokens)
    } else if sees_both(tokens, "rename", "to") {
        rename_type(alloc, tokens)
    } else if sees_both(tokens, "set", "schema") {
        set_schema(alloc, tokens)
    } else if begins(".", tokens.rest()) {
        Err(ParseError::Syntax)
    } else {
        Ok(TypeChange::Other(some_run(alloc, tokens, Stop::Never)?))
    }
}

#[tactic(auto, unfolding(crate::specs::Words::alter_type))]
pub fn alter_type(alloc: Global, tokens: &mut Cursor<'_>) -> Result<Boxed<Ddl>, ParseError>
    ensures { Reads (numbered spec.alter_type ddl_kind.AlterType tokens.old) result tokens.new }
{
    let begun = tokens.copy();
    expect_word(tokens, "alter")?;
    expect_word(tokens, "type")?;
    let name = qualified_name(alloc, tokens)?;
    let change = change(alloc, tokens)?;
    let form = AlterType { name, change };
    Ok(Boxed::new(
        alloc,
        Ddl::AlterType(tokens.node(&begun, begun.here(), form)),
    )?)
}
