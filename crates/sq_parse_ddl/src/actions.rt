//! The actions of ALTER TABLE (PostgreSQL manual, ALTER TABLE).

ghost use Rattle.std.specs.Prelude.{◌≡◌, None, codes};
ghost use Rattle.sq_syntax.specs.declared.symbol.Symbol.TheVariants as s;
ghost use Rattle.sq_grammar.specs.Reading.{choose, many, pure, sees};
ghost use Rattle.sq_grammar.specs.Schemas as spec;
ghost use Rattle.sq_lexemes.specs.Reads.{Reads};
ghost use Rattle.sq_parse_ddl.specs.Parts as parts;

use crate::ahead::begins_action;
use crate::columns::column;
use crate::runs::{Stop, some_run};
use crate::table_constraints::{begins_table_constraint, table_constraint};
use sq_base::List;
use sq_lexemes::cursor::Cursor;
use sq_lexemes::error::ParseError;
use sq_lexemes::lists::list_with_first;
use sq_lexemes::names::{name, qualified_name};
use sq_lexemes::types::type_name;
use sq_syntax::{Identifier, QualifiedName, Reading, SetType, Symbol, TableAction, TableChange};
use sq_words::{
    behavior, expect_word, if_exists, if_not_exists, optional_word, sees_both, sees_word,
};
use std::alloc::Global;

fn add_column(alloc: Global, tokens: &mut Cursor<'_>) -> Result<TableAction, ParseError>
    ensures { Reads (spec.add_column tokens.old) result tokens.new }
{
    let has_column = optional_word(tokens, "column")?;
    let if_not_exists = if_not_exists(tokens)?;
    let column = column(alloc, tokens)?;
    Ok(TableAction::AddColumn(has_column, if_not_exists, column))
}

#[tactic(auto, unfolding(crate::specs::Words::add))]
fn add(alloc: Global, tokens: &mut Cursor<'_>) -> Result<TableAction, ParseError>
    ensures { Reads (spec.add tokens.old) result tokens.new }
{
    expect_word(tokens, "add")?;
    if begins_table_constraint(tokens.rest()) {
        Ok(TableAction::AddConstraint(table_constraint(alloc, tokens)?))
    } else {
        add_column(alloc, tokens)
    }
}

fn drop_constraint(alloc: Global, tokens: &mut Cursor<'_>) -> Result<TableAction, ParseError>
    ensures { Reads (spec.drop_constraint tokens.old) result tokens.new }
{
    expect_word(tokens, "constraint")?;
    let if_exists = if_exists(tokens)?;
    let name = name(alloc, tokens)?;
    let behavior = behavior(tokens)?;
    Ok(TableAction::DropConstraint(if_exists, name, behavior))
}

fn drop_column(alloc: Global, tokens: &mut Cursor<'_>) -> Result<TableAction, ParseError>
    ensures { Reads (spec.drop_column tokens.old) result tokens.new }
{
    let has_column = optional_word(tokens, "column")?;
    let if_exists = if_exists(tokens)?;
    let name = name(alloc, tokens)?;
    let behavior = behavior(tokens)?;
    Ok(TableAction::DropColumn(has_column, if_exists, name, behavior))
}

#[tactic(auto, unfolding(crate::specs::Words::drop_action))]
fn drop_action(alloc: Global, tokens: &mut Cursor<'_>) -> Result<TableAction, ParseError>
    ensures { Reads (spec.drop tokens.old) result tokens.new }
{
    expect_word(tokens, "drop")?;
    if sees_word(tokens, "constraint") {
        drop_constraint(alloc, tokens)
    } else {
        drop_column(alloc, tokens)
    }
}

/// SET DATA.
fn set_data(tokens: &mut Cursor<'_>) -> Result<bool, ParseError>
    ensures { Reads (parts.set_data tokens.old) result tokens.new }
{
    if !sees_word(tokens, "set") {
        return Ok(false);
    }
    expect_word(tokens, "set")?;
    expect_word(tokens, "data")?;
    Ok(true)
}

/// The name behind COLLATE.
fn collation(alloc: Global, tokens: &mut Cursor<'_>) -> Result<Option<QualifiedName>, ParseError>
    ensures { Reads (choose (sees s.Collate) spec.some_collation (pure None) tokens.old) result tokens.new }
{
    if !tokens.sees(Symbol::Collate) {
        return Ok(None);
    }
    tokens.expect(Symbol::Collate)?;
    Ok(Some(qualified_name(alloc, tokens)?))
}

/// The tokens behind USING.
fn using(alloc: Global, tokens: &mut Cursor<'_>) -> Result<List<Reading>, ParseError>
    ensures { Reads (parts.using tokens.old) result tokens.new }
{
    if !tokens.sees(Symbol::Using) {
        return Ok(List::new(alloc));
    }
    tokens.expect(Symbol::Using)?;
    some_run(alloc, tokens, Stop::Comma)
}

fn set_type(
    alloc: Global,
    tokens: &mut Cursor<'_>,
    has_column: bool,
    column: Identifier,
) -> Result<TableAction, ParseError>
    ensures { Reads (spec.set_type has_column column tokens.old) result tokens.new }
{
    let has_set_data = set_data(tokens)?;
    expect_word(tokens, "type")?;
    let to = type_name(alloc, tokens)?;
    let collation = collation(alloc, tokens)?;
    let using = using(alloc, tokens)?;
    Ok(TableAction::SetType(SetType {
        has_column,
        column,
        has_set_data,
        to,
        collation,
        using,
    }))
}

/// SET NOT NULL.
fn set_not_null(
    tokens: &mut Cursor<'_>,
    has_column: bool,
    column: Identifier,
) -> Result<TableAction, ParseError>
    ensures { Reads (spec.not_null (codes "set") (TableAction.SetNotNull has_column column) tokens.old) result tokens.new }
{
    expect_word(tokens, "set")?;
    tokens.expect(Symbol::Not)?;
    tokens.expect(Symbol::Null)?;
    Ok(TableAction::SetNotNull(has_column, column))
}

/// DROP NOT NULL.
fn drop_not_null(
    tokens: &mut Cursor<'_>,
    has_column: bool,
    column: Identifier,
) -> Result<TableAction, ParseError>
    ensures { Reads (spec.not_null (codes "drop") (TableAction.DropNotNull has_column column) tokens.old) result tokens.new }
{
    expect_word(tokens, "drop")?;
    tokens.expect(Symbol::Not)?;
    tokens.expect(Symbol::Null)?;
    Ok(TableAction::DropNotNull(has_column, column))
}

#[tactic(auto, unfolding(crate::specs::Words::alter_column))]
fn alter_column(alloc: Global, tokens: &mut Cursor<'_>) -> Result<TableAction, ParseError>
    ensures { Reads (spec.alter_column tokens.old) result tokens.new }
{
    expect_word(tokens, "alter")?;
    let has_column = optional_word(tokens, "column")?;
    let name = name(alloc, tokens)?;
    if sees_both(tokens, "set", "not") {
        set_not_null(tokens, has_column, name)
    } else if sees_word(tokens, "drop") {
        drop_not_null(tokens, has_column, name)
    } else {
        set_type(alloc, tokens, has_column, name)
    }
}

#[tactic(auto, unfolding(crate::specs::Words::action))]
fn action(alloc: Global, tokens: &mut Cursor<'_>) -> Result<TableAction, ParseError>
    ensures { Reads (spec.action tokens.old) result tokens.new }
{
    if sees_word(tokens, "add") {
        add(alloc, tokens)
    } else if sees_word(tokens, "drop") {
        drop_action(alloc, tokens)
    } else if begins_action(tokens.rest()) {
        alter_column(alloc, tokens)
    } else {
        Ok(TableAction::Other(some_run(alloc, tokens, Stop::Comma)?))
    }
}

fn next_action(alloc: Global, tokens: &mut Cursor<'_>) -> Result<TableAction, ParseError>
    ensures { Reads (parts.next_action tokens.old) result tokens.new }
{
    tokens.expect(Symbol::Comma)?;
    action(alloc, tokens)
}

fn more_actions(alloc: Global, tokens: &mut Cursor<'_>) -> Result<List<TableAction>, ParseError>
    ensures { Reads (many (sees s.Comma) parts.next_action tokens.old) result tokens.new }
{
    let mut found = List::new(alloc);
    for _turn in 0..tokens.left() {
        if !tokens.sees(Symbol::Comma) {
            return Ok(found);
        }
        let next = next_action(alloc, tokens)?;
        found.push(next)?;
    }
    Ok(found)
}

pub fn actions(alloc: Global, tokens: &mut Cursor<'_>) -> Result<TableChange, ParseError>
    ensures { Reads (spec.actions tokens.old) result tokens.new }
{
    let first = action(alloc, tokens)?;
    let more = more_actions(alloc, tokens)?;
    Ok(TableChange::Actions(list_with_first(alloc, first, more)?))
}
