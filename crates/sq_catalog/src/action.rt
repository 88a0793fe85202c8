//! The changes of one table.

ghost use Rattle.std.specs.Prelude.{◌≡◌, ◌-◌, take, length};
ghost use Rattle.sq_catalog.specs.Answers.{Answers};
ghost use Rattle.sq_catalog.specs.Actions.{acted, with_column, column_added, column_dropped, column_renamed, column_marked, column_unmarked, column_typed, key_dropped, key_renamed};
ghost use Rattle.sq_catalog.specs.Keys.{completed};

use crate::columns::{column, mark, rename, retype, take_columns};
use crate::keys::{add_key, complete, drop_at, in_key};
use crate::{Action, Cause, ChangeFault, Column, Key, Keys, Table};
use sq_base::{List, Name, PgType};
use std::alloc::Global;

// Takes away the last column.
fn forget_column(alloc: Global, table: &mut Table)
    ensures { table.new ≡ record table.old { columns = take (length table.old.columns - 1) table.old.columns } }
{
    let mut columns = take_columns(alloc, table);
    columns.pop();
    table.columns = List::from_vec(columns);
}

// Adds a column whose name is free, and the key that it makes.
fn push_column(
    alloc: Global,
    table: &mut Table,
    column: Column,
    keys: Keys,
) -> Result<(), ChangeFault>
    ensures { Answers table.old (completed (with_column table.old column) keys) table.new result }
{
    table.columns.push(column)?;
    let done = complete(alloc, table, keys);
    if done.is_err() {
        forget_column(alloc, table);
    }
    done
}

// Adds a column whose name must be free.
fn add_column(
    alloc: Global,
    table: &mut Table,
    new: Column,
    if_not_exists: bool,
    keys: Keys,
) -> Result<(), ChangeFault>
    ensures { Answers table.old (column_added table.old new if_not_exists keys) table.new result }
{
    match column(table, new.name.as_str()) {
        Some(_) if if_not_exists => Ok(()),
        Some(_) => Err(ChangeFault::Refused(Cause::Exists(new.name))),
        None => push_column(alloc, table, new, keys),
    }
}

// Takes a column away.
fn drop_column(
    alloc: Global,
    table: &mut Table,
    name: Name,
    if_exists: bool,
) -> Result<(), ChangeFault>
    ensures { Answers table.old (column_dropped table.old name if_exists) table.new result }
{
    match column(table, name.as_str()) {
        Some(at) => {
            drop_at(alloc, table, at);
            Ok(())
        }
        None if if_exists => Ok(()),
        None => Err(ChangeFault::Refused(Cause::Missing(name))),
    }
}

// Gives a column a name that must be free.
fn rename_column(alloc: Global, table: &mut Table, from: Name, to: Name) -> Result<(), ChangeFault>
    ensures { Answers table.old (column_renamed table.old from to) table.new result }
{
    let Some(at) = column(table, from.as_str()) else {
        return Err(ChangeFault::Refused(Cause::Missing(from)));
    };
    if column(table, to.as_str()).is_some() {
        return Err(ChangeFault::Refused(Cause::Exists(to)));
    }
    rename(alloc, table, at, to);
    Ok(())
}

// Gives a column NOT NULL.
fn mark_column(alloc: Global, table: &mut Table, name: Name) -> Result<(), ChangeFault>
    ensures { Answers table.old (column_marked table.old name) table.new result }
{
    let Some(at) = column(table, name.as_str()) else {
        return Err(ChangeFault::Refused(Cause::Missing(name)));
    };
    mark(alloc, table, at, true);
    Ok(())
}

// Takes NOT NULL from a column that is not in the key.
fn unmark_column(alloc: Global, table: &mut Table, name: Name) -> Result<(), ChangeFault>
    ensures { Answers table.old (column_unmarked table.old name) table.new result }
{
    let Some(at) = column(table, name.as_str()) else {
        return Err(ChangeFault::Refused(Cause::Missing(name)));
    };
    if in_key(table, at) {
        return Err(ChangeFault::Refused(Cause::InPrimaryKey(name)));
    }
    mark(alloc, table, at, false);
    Ok(())
}

// Gives a column another type.
fn type_column(alloc: Global, table: &mut Table, name: Name, of: PgType) -> Result<(), ChangeFault>
    ensures { Answers table.old (column_typed table.old name of) table.new result }
{
    let Some(at) = column(table, name.as_str()) else {
        return Err(ChangeFault::Refused(Cause::Missing(name)));
    };
    retype(alloc, table, at, of);
    Ok(())
}

// What is left of a key where the constraint of this name goes.
fn key_dropped(name: &str, key: Option<Key>) -> Option<Key>
    ensures { result ≡ key_dropped name.now key }
{
    let key = key?;
    if key.name.as_str() == name {
        None
    } else {
        Some(key)
    }
}

// A key where a constraint gets another name.
fn key_renamed(from: &str, to: Name, key: Option<Key>) -> Option<Key>
    ensures { result ≡ key_renamed from.now to key }
{
    let Key { name, columns } = key?;
    if name.as_str() == from {
        Some(Key { name: to, columns })
    } else {
        Some(Key { name, columns })
    }
}

// Makes a change of a table, or refuses it and leaves the table as it was.
pub(crate) fn act(alloc: Global, table: &mut Table, action: Action) -> Result<(), ChangeFault>
    ensures { Answers table.old (acted table.old action) table.new result }
{
    match action {
        Action::AddColumn {
            column,
            if_not_exists,
            keys,
        } => add_column(alloc, table, column, if_not_exists, keys),
        Action::DropColumn { name, if_exists } => drop_column(alloc, table, name, if_exists),
        Action::RenameColumn { from, to } => rename_column(alloc, table, from, to),
        Action::SetNotNull { column } => mark_column(alloc, table, column),
        Action::DropNotNull { column } => unmark_column(alloc, table, column),
        Action::SetType { column, of } => type_column(alloc, table, column, of),
        Action::AddPrimaryKey { key } => add_key(alloc, table, key),
        Action::DropConstraint { name } => {
            table.key = key_dropped(name.as_str(), table.key.take());
            Ok(())
        }
        Action::RenameConstraint { from, to } => {
            table.key = key_renamed(from.as_str(), to, table.key.take());
            Ok(())
        }
    }
}
