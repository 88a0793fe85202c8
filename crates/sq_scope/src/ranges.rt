//! What stands in a FROM.

ghost use Rattle.std.specs.Prelude.{◌≡◌, IfOk, drop, if◌then◌else◌, map};
ghost use Rattle.sq_base.specs.Answers.{Gives};
ghost use Rattle.sq_scope.specs.Ranges.{added, columns_raised, counted, has_name, is_between, no_ranges, raised, raised_column, raised_range, ranges_raised, seen, since};

use crate::refusing::naming;
use sq_base::{Code, Fault, List, Name, PgType, Place};
use std::alloc::{AllocError, Global};

#[derive(Debug, Drop)]
pub struct RangeColumn {
    pub name: Name,
    pub of: PgType,
    pub nullable: bool,
    /// Whether USING has merged it with another.
    pub merged: bool,
}

/// What stands in a FROM under one name.
#[derive(Debug, Drop)]
pub struct Range {
    /// That of a table under its own name.
    pub schema: Option<Name>,
    pub name: Name,
    pub columns: List<RangeColumn>,
}

/// The ranges of a FROM so far, and the columns that USING has merged: they stand in one further range, the last.
#[derive(Debug, Drop)]
pub struct Ranges {
    pub ranges: List<Range>,
    pub merged: List<RangeColumn>,
}

/// How many ranges and merged columns of a FROM stand before a part of it.
#[derive(Clone, Copy, Debug, PartialEq, Eq)]
pub struct Began {
    pub ranges: usize,
    pub merged: usize,
}

/// The ranges and merged columns that a name may stand in, borrowed from their FROM.
#[derive(Clone, Copy)]
pub struct Level<'a> {
    pub ranges: &'a [Range],
    pub merged: &'a [RangeColumn],
}

// Whether a range has this name.
pub(crate) fn has_name(name: &Name, ranges: &[Range]) -> bool
    ensures { result ≡ has_name name.now ranges.now }
{
    ranges
        .iter()
        .any(|range| range.name.as_str() == name.as_str())
}

// The items from a number on.
fn from<T>(items: &[T], at: usize) -> &[T]
    ensures { result.now ≡ drop at items.now }
{
    if items.len() < at {
        return &[];
    }
    &items[at..]
}

// Whether a place is one of those from a number up to another.
fn is_between(from: usize, to: usize, place: usize) -> bool
    ensures { result ≡ is_between from to place }
{
    from <= place && place < to
}

// A column that may be null, if it is one of those that are raised.
fn raised_if(chosen: bool, column: RangeColumn) -> RangeColumn
    ensures { result ≡ (if chosen then raised_column column else column) }
{
    let RangeColumn {
        name,
        of,
        nullable,
        merged,
    } = column;
    RangeColumn {
        name,
        of,
        nullable: if chosen { true } else { nullable },
        merged,
    }
}

// The columns, of which those in places from a number up to another may be null.
fn columns_raised(
    alloc: Global,
    from: usize,
    to: usize,
    columns: List<RangeColumn>,
) -> Result<List<RangeColumn>, AllocError>
    ensures { IfOk result (λ raised. raised ≡ columns_raised from to 0 columns) }
{
    let mut raised = List::new(alloc);
    for (place, column) in columns.into_vec().into_iter().enumerate() {
        raised.push(raised_if(is_between(from, to, place), column))?;
    }
    Ok(raised)
}

// Columns that may all be null.
fn all_raised(alloc: Global, columns: List<RangeColumn>) -> Result<List<RangeColumn>, AllocError>
    ensures { IfOk result (λ raised. raised ≡ map raised_column columns) }
{
    let mut raised = List::new(alloc);
    for mut column in columns.into_vec() {
        column.nullable = true;
        raised.push(column)?;
    }
    Ok(raised)
}

// A range whose columns may all be null.
fn raised_range(alloc: Global, range: Range) -> Result<Range, AllocError>
    ensures { IfOk result (λ raised. raised ≡ raised_range range) }
{
    let Range {
        schema,
        name,
        columns,
    } = range;
    Ok(Range {
        schema,
        name,
        columns: all_raised(alloc, columns)?,
    })
}

// A range whose columns may all be null, if it is one of those that are raised.
fn range_raised_if(alloc: Global, chosen: bool, range: Range) -> Result<Range, AllocError>
    ensures { IfOk result (λ raised. raised ≡ (if chosen then raised_range range else range)) }
{
    if chosen {
        raised_range(alloc, range)
    } else {
        Ok(range)
    }
}

// The ranges, of which the columns of those in places from a number up to another may be null.
fn ranges_raised(
    alloc: Global,
    from: usize,
    to: usize,
    ranges: List<Range>,
) -> Result<List<Range>, AllocError>
    ensures { IfOk result (λ raised. raised ≡ ranges_raised from to 0 ranges) }
{
    let mut raised = List::new(alloc);
    for (place, range) in ranges.into_vec().into_iter().enumerate() {
        raised.push(range_raised_if(alloc, is_between(from, to, place), range)?)?;
    }
    Ok(raised)
}

impl Ranges {
    /// A FROM with nothing in it.
    pub fn new(alloc: Global) -> Ranges
        ensures { result ≡ no_ranges }
    {
        Ranges {
            ranges: List::new(alloc),
            merged: List::new(alloc),
        }
    }

    /// Where what comes next begins.
    pub fn counted(&self) -> Began
        ensures { result ≡ counted self.now }
    {
        Began {
            ranges: self.ranges.len(),
            merged: self.merged.len(),
        }
    }

    /// All of it, as a level.
    pub fn level(&self) -> Level<'_>
        ensures { seen result ≡ self.now }
    {
        Level {
            ranges: self.ranges.as_slice(),
            merged: self.merged.as_slice(),
        }
    }

    /// What came from there on, as a level: ON sees the two sides of its join alone.
    pub fn level_since(&self, began: Began) -> Level<'_>
        ensures { seen result ≡ since began self.now }
    {
        Level {
            ranges: from(self.ranges.as_slice(), began.ranges),
            merged: from(self.merged.as_slice(), began.merged),
        }
    }

    /// Adds a range, none of which has its name: else it is refused at a place.
    #[tactic(auto, unfolding(crate::specs::Ranges::added))]
    pub fn added(self, alloc: Global, range: Range, place: Place) -> Result<Ranges, Fault>
        ensures { Gives (added range place self) result }
    {
        let Ranges { mut ranges, merged } = self;
        if has_name(&range.name, ranges.as_slice()) {
            return Err(naming(alloc, Code::DuplicateAlias, place, range.name.as_str()));
        }
        ranges.push(range)?;
        Ok(Ranges { ranges, merged })
    }

    /// The side of an outer join that may be missing: what came from there up to here may be null.
    #[tactic(auto, unfolding(crate::specs::Ranges::raised))]
    pub fn raised(self, alloc: Global, from: Began, to: Began) -> Result<Ranges, AllocError>
        ensures { IfOk result (λ all. all ≡ raised from to self) }
    {
        let Ranges { ranges, merged } = self;
        Ok(Ranges {
            ranges: ranges_raised(alloc, from.ranges, to.ranges, ranges)?,
            merged: columns_raised(alloc, from.merged, to.merged, merged)?,
        })
    }
}
