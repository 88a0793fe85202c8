//! Columns by their names, and the changes of one column.

ghost use Rattle.std.specs.Prelude.{◌≡◌, ◌<◌, [], IfSome, MatchOption, None, Some, length};
ghost use Rattle.sq_catalog.specs.Columns.{place_of_column, placed_column, change_at, with_column_at, named, marked, typed};

use crate::{Column, Table};
use sq_base::{List, Name, PgType};
use std::alloc::Global;
use std::mem;

/// The place of a table's column of this name, from 0.
pub fn column(table: &Table, name: &str) -> Option<usize>
    ensures place { result ≡ place_of_column table.now name.now }
    ensures within { IfSome result (λ at. at < length table.now.columns) }
{
    table
        .columns
        .as_slice()
        .iter()
        .position(|column| column.name.as_str() == name)
}

/// The column of this name, and its place in the table, from 0.
pub fn placed_column<'a>(table: &'a Table, name: &str) -> Option<(usize, &'a Column)>
    ensures { MatchOption result (placed_column table.now name.now ≡ None) (λ r. placed_column table.now name.now ≡ Some (r.0, r.1.now)) }
{
    let place = column(table, name)?;
    let found = table.columns.get(place)?;
    Some((place, found))
}

// The columns of a table, which has none until they are put back.
pub(crate) fn take_columns(alloc: Global, table: &mut Table) -> Vec<Column>
    ensures taken { result.items ≡ table.old.columns }
    ensures left { table.new ≡ record table.old { columns = [] } }
{
    mem::replace(&mut table.columns, List::new(alloc)).into_vec()
}

// Gives the column at a place another name.
pub(crate) fn rename(alloc: Global, table: &mut Table, at: usize, name: Name)
    requires { at < length table.old.columns }
    ensures { table.new ≡ with_column_at (named name) table.old at }
{
    let mut columns = take_columns(alloc, table);
    columns[at].name = name;
    table.columns = List::from_vec(columns);
}

// Gives the column at a place NOT NULL, or takes it away: where there is none, nothing changes.
pub(crate) fn mark_at(columns: &mut Vec<Column>, at: usize, not_null: bool)
    ensures { columns.new.items ≡ change_at (marked not_null) columns.old.items at }
{
    if at < columns.len() {
        columns[at].not_null = not_null;
    }
}

// Gives the column of a table at a place NOT NULL, or takes it away.
pub(crate) fn mark(alloc: Global, table: &mut Table, at: usize, not_null: bool)
    ensures { table.new ≡ with_column_at (marked not_null) table.old at }
{
    let mut columns = take_columns(alloc, table);
    mark_at(&mut columns, at, not_null);
    table.columns = List::from_vec(columns);
}

// Gives the column at a place another type.
pub(crate) fn retype(alloc: Global, table: &mut Table, at: usize, of: PgType)
    requires { at < length table.old.columns }
    ensures { table.new ≡ with_column_at (typed of) table.old at }
{
    let mut columns = take_columns(alloc, table);
    columns[at].of = of;
    table.columns = List::from_vec(columns);
}
