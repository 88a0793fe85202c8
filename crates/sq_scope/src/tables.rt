//! A table in FROM.

ghost use Rattle.std.specs.Prelude.{◌≡◌, IfOk, map, decimal, slice_get};
ghost use Rattle.sq_base.specs.Answers.{Gives, IsFaultOf};
ghost use Rattle.sq_base.specs.declared.code.Code.TheVariants.{ColumnCount};
ghost use Rattle.sq_scope.specs.Answers.{refused_keeping};
ghost use Rattle.sq_scope.specs.Tables.{aliased, found_range, named_as, names_all, own_range, range_column, range_in, range_in_written, renamed, table_range, under};

use crate::ranges::{Range, RangeColumn};
use crate::refusing::{keeping, naming};
use itoa::Buffer;
use sq_base::{Code, Fault, List, Place};
use sq_catalog::{Catalogue, Column, Table};
use sq_syntax::{Alias, Identifier, QualifiedName};
use std::alloc::{AllocError, Global};

/// A table, by its place in the catalogue, and its range.
#[derive(Debug, Drop)]
pub struct TableRange {
    pub table: usize,
    pub range: Range,
}

// A column of a table.
fn range_column(alloc: Global, column: &Column) -> Result<RangeColumn, AllocError>
    ensures { IfOk result (λ copy. copy ≡ range_column column.now) }
{
    Ok(RangeColumn {
        name: column.name.copy(alloc)?,
        of: column.of,
        nullable: !column.not_null,
        merged: false,
    })
}

fn range_columns(alloc: Global, columns: &[Column]) -> Result<List<RangeColumn>, AllocError>
    ensures { IfOk result (λ copies. copies ≡ map range_column columns.now) }
{
    let mut copies = List::new(alloc);
    for column in columns {
        copies.push(range_column(alloc, column)?)?;
    }
    Ok(copies)
}

// A table under its own name.
fn own_range(alloc: Global, table: &Table) -> Result<Range, AllocError>
    ensures { IfOk result (λ range. range ≡ own_range table.now) }
{
    Ok(Range {
        schema: Some(table.schema.copy(alloc)?),
        name: table.name.copy(alloc)?,
        columns: range_columns(alloc, table.columns.as_slice())?,
    })
}

// A column under the name of an alias, where there is one for its place.
fn named_at(
    alloc: Global,
    names: &[Identifier],
    place: usize,
    column: RangeColumn,
) -> Result<RangeColumn, AllocError>
    ensures { IfOk result (λ named. named ≡ named_as (slice_get names.now place) column) }
{
    match names.get(place) {
        None => Ok(column),
        Some(identifier) => Ok(RangeColumn {
            name: identifier.name.copy(alloc)?,
            of: column.of,
            nullable: column.nullable,
            merged: column.merged,
        }),
    }
}

// Columns under the names of an alias.
fn renamed(
    alloc: Global,
    names: &[Identifier],
    columns: List<RangeColumn>,
) -> Result<List<RangeColumn>, AllocError>
    ensures { IfOk result (λ made. made ≡ renamed names.now 0 columns) }
{
    let mut made = List::new(alloc);
    for (place, column) in columns.into_vec().into_iter().enumerate() {
        made.push(named_at(alloc, names, place, column)?)?;
    }
    Ok(made)
}

// A range under an alias.
fn under(alloc: Global, alias: &Alias, range: Range) -> Result<Range, AllocError>
    ensures { IfOk result (λ named. named ≡ under alias.now range) }
{
    let Range { columns, .. } = range;
    let columns = renamed(alloc, alias.columns.as_slice(), columns)?;
    Ok(Range {
        schema: None,
        name: alias.name.name.copy(alloc)?,
        columns,
    })
}

// An alias names all columns or none.
fn names_all(names: &[Identifier], columns: &[RangeColumn]) -> bool
    ensures { result ≡ names_all names.now columns.now }
{
    names.is_empty() || names.len() == columns.len()
}

// Two numbers of columns that differ.
fn counts_differ(alloc: Global, place: Place, first: usize, second: usize) -> Fault
    ensures { IsFaultOf (refused_keeping ColumnCount place (decimal first) (decimal second)) result }
{
    let mut first_buffer = Buffer::new();
    let mut second_buffer = Buffer::new();
    keeping(
        alloc,
        Code::ColumnCount,
        place,
        first_buffer.format(first),
        second_buffer.format(second),
    )
}

/// A range under an alias, where one is written, in an item of FROM whose first token has this place. An alias that
/// names columns names all.
pub fn aliased(
    alloc: Global,
    alias: &Option<Alias>,
    place: Place,
    range: Range,
) -> Result<Range, Fault>
    ensures { Gives (aliased alias.now place range) result }
{
    match alias {
        None => Ok(range),
        Some(alias) => {
            if names_all(alias.columns.as_slice(), range.columns.as_slice()) {
                Ok(under(alloc, alias, range)?)
            } else {
                Err(counts_differ(alloc, place, alias.columns.len(), range.columns.len()))
            }
        }
    }
}

// A table that is found, as a range.
#[tactic(auto, using(crate::proofs::AnswersLemmas::gives_err))]
fn found_range(
    alloc: Global,
    alias: &Option<Alias>,
    place: Place,
    at: usize,
    table: &Table,
) -> Result<TableRange, Fault>
    ensures { Gives (found_range alias.now place (at, table.now)) result }
{
    let range = aliased(alloc, alias, place, own_range(alloc, table)?)?;
    Ok(TableRange { table: at, range })
}

// A table of a schema, as a range.
#[tactic(auto, unfolding(crate::specs::Tables::range_in))]
fn range_in(
    alloc: Global,
    catalogue: &Catalogue,
    schema: &str,
    name: &QualifiedName,
    alias: &Option<Alias>,
    place: Place,
) -> Result<TableRange, Fault>
    ensures { Gives (range_in catalogue.now schema.now name.now alias.now place) result }
{
    let text = name.name.name.as_str();
    match catalogue.placed_table(schema, text) {
        None => Err(naming(alloc, Code::UnknownTable, place, text)),
        Some((at, table)) => found_range(alloc, alias, place, at, table),
    }
}

// A table of a schema that is written.
#[tactic(auto, unfolding(crate::specs::Tables::range_in_written))]
fn range_in_written(
    alloc: Global,
    catalogue: &Catalogue,
    schema: &Identifier,
    name: &QualifiedName,
    alias: &Option<Alias>,
    place: Place,
) -> Result<TableRange, Fault>
    ensures { Gives (range_in_written catalogue.now schema.now name.now alias.now place) result }
{
    let text = schema.name.as_str();
    if catalogue.has_schema(text) {
        range_in(alloc, catalogue, text, name, alias, place)
    } else {
        Err(naming(alloc, Code::UnknownSchema, schema.place, text))
    }
}

/// The table of a name in an item of FROM, whose first token has this place. A schema that is written is to be there,
/// and then the table.
#[tactic(auto, unfolding(crate::specs::Tables::table_range))]
pub fn table_range(
    alloc: Global,
    catalogue: &Catalogue,
    name: &QualifiedName,
    alias: &Option<Alias>,
    place: Place,
) -> Result<TableRange, Fault>
    ensures { Gives (table_range catalogue.now name.now alias.now place) result }
{
    match &name.schema {
        None => range_in(alloc, catalogue, "public", name, alias, place),
        Some(schema) => range_in_written(alloc, catalogue, schema, name, alias, place),
    }
}
