//! The ranges that a name may stand in, by levels.

ghost use Rattle.std.specs.Prelude.{◌≡◌, ◌++◌, [], ◌∷◌, IfOk, OnOk};
ghost use Rattle.sq_base.specs.Answers.{Gives, IsFaultOf};
ghost use Rattle.sq_scope.specs.Ranges.{seen};
ghost use Rattle.sq_scope.specs.Scope.{all_seen, column_matches, has_name_anywhere, has_range, has_range_anywhere, is_bare, is_hidden, is_meant, is_of, is_schema, last_name, level_matches, looked_up, matches, merged_match, place_of, ranges_match, unmatched};

use crate::ranges::{Level, Range, RangeColumn, has_name};
use crate::refusing::naming;
use sq_base::{Code, Fault, List, Name, PgType, Place};
use sq_syntax::ColumnName;
use std::alloc::{AllocError, Global};
use std::marker::Model;

/// The column that a name stands for: how many levels outward, the places of its range and of itself, its type and
/// whether it may be null.
#[derive(Clone, Copy, Debug)]
pub struct Found {
    pub depth: usize,
    pub range: usize,
    pub column: usize,
    pub of: PgType,
    pub nullable: bool,
}

/// The levels that a name may stand in, of which the innermost is the first.
#[derive(Drop)]
pub struct Scope<'a> {
    levels: Vec<Level<'a>>,
}

impl<'a> Model for Scope<'a> {
    ghost use Rattle.std.specs.Prelude.{List};
    ghost use Rattle.sq_scope.specs.declared.ranges.Ranges.{Ranges};
    ghost use Rattle.sq_scope.specs.Scope.{all_seen};

    ghost Value = { List Ranges };

    ghost view = { λ scope. all_seen scope.levels.items };
}

/// The name of the column, without its range.
pub fn last_name(name: &ColumnName) -> &Name
    ensures { result.now ≡ last_name name.now }
{
    match name {
        ColumnName::Bare(column) => &column.name,
        ColumnName::OfRange(_, column) => &column.name,
        ColumnName::OfTable(_, _, column) => &column.name,
    }
}

/// The place of the first part.
pub fn place_of(name: &ColumnName) -> Place
    ensures { result ≡ place_of name.now }
{
    match name {
        ColumnName::Bare(column) => column.place,
        ColumnName::OfRange(range, _) => range.place,
        ColumnName::OfTable(schema, _, _) => schema.place,
    }
}

// Whether a range is a table of this schema under its own name.
fn is_schema(wanted: &Name, schema: &Option<Name>) -> bool
    ensures { result ≡ is_schema wanted.now schema.now }
{
    match schema {
        None => false,
        Some(schema) => schema.as_str() == wanted.as_str(),
    }
}

// Whether a range has the name that is written before the column's.
fn is_of(name: &ColumnName, range: &Range) -> bool
    ensures { result ≡ is_of name.now range.now }
{
    match name {
        ColumnName::Bare(_) => true,
        ColumnName::OfRange(named, _) => range.name.as_str() == named.name.as_str(),
        ColumnName::OfTable(schema, named, _) => {
            range.name.as_str() == named.name.as_str() && is_schema(&schema.name, &range.schema)
        }
    }
}

// Whether a name without a range does not find a column.
fn is_hidden(name: &ColumnName, column: &RangeColumn) -> bool
    ensures { result ≡ is_hidden name.now column.now }
{
    match name {
        ColumnName::Bare(_) => column.merged,
        _ => false,
    }
}

// Whether a column is meant by a name.
fn is_meant(name: &ColumnName, column: &RangeColumn) -> bool
    ensures { result ≡ is_meant name.now column.now }
{
    column.name.as_str() == last_name(name).as_str() && !is_hidden(name, column)
}

// Notes the columns of a range that are meant.
fn note_columns(
    found: &mut List<Found>,
    depth: usize,
    range: usize,
    columns: &[RangeColumn],
    name: &ColumnName,
) -> Result<(), AllocError>
    ensures { OnOk result (found.new ≡ found.old ++ column_matches depth range 0 columns.now name.now) }
{
    for (place, column) in columns.iter().enumerate() {
        if is_meant(name, column) {
            found.push(Found {
                depth,
                range,
                column: place,
                of: column.of,
                nullable: column.nullable,
            })?;
        }
    }
    Ok(())
}

// The columns of ranges that are meant.
fn ranges_match(
    alloc: Global,
    depth: usize,
    ranges: &[Range],
    name: &ColumnName,
) -> Result<List<Found>, AllocError>
    ensures { IfOk result (λ found. found ≡ ranges_match depth 0 ranges.now name.now) }
{
    let mut found = List::new(alloc);
    for (place, range) in ranges.iter().enumerate() {
        if is_of(name, range) {
            note_columns(&mut found, depth, place, range.columns.as_slice(), name)?;
        }
    }
    Ok(found)
}

// Whether a name has no range before the column's.
fn is_bare(name: &ColumnName) -> bool
    ensures { result ≡ is_bare name.now }
{
    matches!(name, ColumnName::Bare(_))
}

// The columns of a level that are meant.
fn level_matches(
    alloc: Global,
    depth: usize,
    level: Level<'_>,
    name: &ColumnName,
) -> Result<List<Found>, AllocError>
    ensures { IfOk result (λ found. found ≡ level_matches depth (seen level.entry) name.now) }
{
    let mut found = ranges_match(alloc, depth, level.ranges, name)?;
    if is_bare(name) {
        note_columns(&mut found, depth, level.ranges.len(), level.merged, name)?;
    }
    Ok(found)
}

// Whether a level has a range of the name that is written before the column's.
fn has_range(name: &ColumnName, level: Level<'_>) -> bool
    ensures { result ≡ has_range name.now (seen level.entry) }
{
    level.ranges.iter().any(|range| is_of(name, range))
}

fn has_range_anywhere(levels: &[Level<'_>], name: &ColumnName) -> bool
    ensures { result ≡ has_range_anywhere (all_seen levels.now) name.now }
{
    for level in levels {
        if has_range(name, *level) {
            return true;
        }
    }
    false
}

// Whether a range of some level has this name.
fn has_name_anywhere(levels: &[Level<'_>], name: &Name) -> bool
    ensures { result ≡ has_name_anywhere (all_seen levels.now) name.now }
{
    for level in levels {
        if has_name(name, level.ranges) {
            return true;
        }
    }
    false
}

// All matches in the innermost level that has any.
#[tactic(auto, using(crate::proofs::ScopeLemmas::first_found))]
fn matches(
    alloc: Global,
    levels: &[Level<'_>],
    name: &ColumnName,
) -> Result<List<Found>, AllocError>
    ensures { IfOk result (λ found. found ≡ matches 0 (all_seen levels.now) name.now) }
{
    for (depth, level) in levels.iter().enumerate() {
        let found = level_matches(alloc, depth, *level, name)?;
        if found.len() > 0 {
            return Ok(found);
        }
    }
    Ok(List::new(alloc))
}

impl<'a> Scope<'a> {
    /// No level.
    pub fn new(alloc: Global) -> Scope<'a>
        ensures { result ≡ [] }
    {
        Scope {
            levels: Vec::new(alloc),
        }
    }

    /// These levels with one more, the innermost.
    pub fn entered(&self, alloc: Global, level: Level<'a>) -> Result<Scope<'a>, AllocError>
        ensures { IfOk result (λ scope. scope ≡ seen level.entry ∷ self.now) }
    {
        let mut levels = Vec::new(alloc);
        levels.push(level)?;
        levels.extend_from_slice(self.levels.as_slice())?;
        Ok(Scope { levels })
    }

    // Why a name stands for nothing.
    fn unmatched(&self, alloc: Global, name: &ColumnName) -> Fault
        ensures { IsFaultOf (unmatched self.now name.now) result }
    {
        let levels = self.levels.as_slice();
        match name {
            ColumnName::Bare(column) => {
                if has_name_anywhere(levels, &column.name) {
                    naming(alloc, Code::WholeRow, column.place, column.name.as_str())
                } else {
                    naming(
                        alloc,
                        Code::UnknownColumn,
                        column.place,
                        column.name.as_str(),
                    )
                }
            }
            ColumnName::OfRange(range, column) => {
                if has_range_anywhere(levels, name) {
                    naming(
                        alloc,
                        Code::UnknownColumn,
                        range.place,
                        column.name.as_str(),
                    )
                } else {
                    naming(alloc, Code::UnknownTable, range.place, range.name.as_str())
                }
            }
            ColumnName::OfTable(schema, range, column) => {
                if has_range_anywhere(levels, name) {
                    naming(
                        alloc,
                        Code::UnknownColumn,
                        schema.place,
                        column.name.as_str(),
                    )
                } else {
                    naming(alloc, Code::UnknownTable, schema.place, range.name.as_str())
                }
            }
        }
    }

    /// The one column that a name stands for. It is refused where no range has the name that is written before it,
    /// where there is no such column, where there are several, and where the name is that of a range.
    #[tactic(auto, unfolding(crate::specs::Scope::looked_up))]
    pub fn lookup(&self, alloc: Global, name: &ColumnName) -> Result<Found, Fault>
        ensures { Gives (looked_up self.now name.now) result }
    {
        let found = matches(alloc, self.levels.as_slice(), name)?;
        match found.as_slice() {
            [] => Err(self.unmatched(alloc, name)),
            [one] => Ok(*one),
            _ => Err(naming(
                alloc,
                Code::Ambiguous,
                place_of(name),
                last_name(name).as_str(),
            )),
        }
    }
}
