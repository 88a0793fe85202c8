//! Which rows are kept.

ghost use Rattle.std.specs.Prelude.{◌≡◌, ◌==◌, ◌+◌, ◌^◌, ◌<◌, ◌≤◌, ◌&&◌, ◌||◌, None, Some, not, if◌then◌else◌, filter, length, map, max};
ghost use Rattle.std.specs.List.{list_all};
ghost use Rattle.sq_builtin.specs.Entries.{entry_of};
ghost use Rattle.sq_overload.specs.Masks.{behind, keeps, kept, passes};
ghost use Rattle.sq_overload.specs.Resolution.{Candidate, count_fit, first_slot, most_from, none_left, numbered, sole};

use crate::fit::{Fit, count_fit};
use crate::slot::slot_at;
use crate::test::{Test, passes};
use sq_base::{Category, PgType};
use sq_builtin::Row;

/// The rows that are kept of at most 128: the lowest bit is that of the first row.
#[derive(Clone, Copy)]
pub struct Mask {
    pub bits: u128,
}

impl Mask {
    // Whether the first row is kept.
    #[tactic(auto, unfolding(crate::specs::Masks::keeps))]
    fn keeps(self) -> bool
        ensures { result ≡ keeps self.bits }
    {
        self.bits % 2 == 1
    }

    // What is kept of the rows behind the first.
    #[tactic(auto, unfolding(crate::specs::Masks::behind))]
    fn behind(self) -> Mask
        ensures { result.bits ≡ behind self.bits }
    {
        Mask {
            bits: self.bits / 2,
        }
    }

    // The mask with a row more, if it is kept.
    fn with(self, place: usize, kept: bool) -> Mask
        requires place { place < 128 }
        requires room { self.bits + (if kept then 2 ^ place else 0) < 2 ^ 128 }
        ensures { result.bits ≡ self.bits + (if kept then 2 ^ place else 0) }
    {
        if kept {
            Mask {
                bits: self.bits + (1 << place),
            }
        } else {
            self
        }
    }
}

/// The mask that keeps every row.
pub fn every(rows: &[Row]) -> Mask
    requires few { length rows.now ≤ 128 }
    ensures { kept rows.now result.bits ≡ numbered 0 (map entry_of rows.now) }
{
    Mask { bits: u128::MAX }
}

// Whether the first row of a mask is kept, and passes a test.
fn stays(args: &[PgType], left: Mask, test: Test, row: &Row) -> bool
    ensures { result ≡ (keeps left.bits && passes args.now test (entry_of row.now)) }
{
    left.keeps() && passes(args, test, row)
}

/// The rows of a mask that pass a test.
pub fn keep(args: &[PgType], rows: &[Row], mask: Mask, test: Test) -> Mask
    requires few { length rows.now ≤ 128 }
    ensures { kept rows.now result.bits ≡ filter (λ (of : Candidate). passes args.now test of.entry) (kept rows.now mask.bits) }
{
    let mut left = mask;
    let mut kept = Mask { bits: 0 };
    for place in 0..rows.len() {
        kept = kept.with(place, stays(args, left, test, &rows[place]));
        left = left.behind();
    }
    kept
}

/// Whether a mask keeps no row.
pub fn none_left(rows: &[Row], mask: Mask) -> bool
    ensures { result ≡ none_left (kept rows.now mask.bits) }
{
    let mut left = mask;
    for _row in rows {
        if left.keeps() {
            return false;
        }
        left = left.behind();
    }
    true
}

// Whether the first row of a mask is dropped, or passes a test.
fn fits_in(args: &[PgType], left: Mask, test: Test, row: &Row) -> bool
    ensures { result ≡ (not (keeps left.bits) || passes args.now test (entry_of row.now)) }
{
    !left.keeps() || passes(args, test, row)
}

/// Whether every row of a mask passes a test.
pub fn all_pass(args: &[PgType], rows: &[Row], mask: Mask, test: Test) -> bool
    ensures { result ≡ list_all (λ (of : Candidate). passes args.now test of.entry) (kept rows.now mask.bits) }
{
    let mut left = mask;
    for row in rows {
        if !fits_in(args, left, test, row) {
            return false;
        }
        left = left.behind();
    }
    true
}

// A place, if no row of those behind it is kept.
fn only(place: usize, rest: &[Row], left: Mask) -> Option<usize>
    ensures { result ≡ (if none_left (kept rest.now left.bits) then Some place else None) }
{
    if none_left(rest, left) {
        Some(place)
    } else {
        None
    }
}

/// The place of the one row that is kept.
pub fn sole(rows: &[Row], mask: Mask) -> Option<usize>
    ensures { result ≡ sole (kept rows.now mask.bits) }
{
    let mut left = mask;
    for place in 0..rows.len() {
        if left.keeps() {
            return only(place, &rows[place + 1..], left.behind());
        }
        left = left.behind();
    }
    None
}

/// The category of the first row that is kept, at a place.
pub fn first_slot(rows: &[Row], mask: Mask, place: usize) -> Option<Option<Category>>
    ensures { result ≡ first_slot place (kept rows.now mask.bits) }
{
    let mut left = mask;
    for row in rows {
        if left.keeps() {
            return Some(slot_at(place, row));
        }
        left = left.behind();
    }
    None
}

// The greater of a count and how many arguments fit the first row of a mask, if that is kept.
fn greater(args: &[PgType], left: Mask, fit: Fit, most: usize, row: &Row) -> usize
    ensures { result ≡ (if keeps left.bits then max most (count_fit fit row.now.inputs.now args.now) else most) }
{
    if left.keeps() {
        most.max(count_fit(fit, row.inputs, args))
    } else {
        most
    }
}

/// The greatest count of arguments that fit a row that is kept.
pub fn most(args: &[PgType], rows: &[Row], mask: Mask, fit: Fit) -> usize
    ensures { result ≡ most_from fit args.now 0 (kept rows.now mask.bits) }
{
    let mut left = mask;
    let mut most = 0;
    for row in rows {
        most = greater(args, left, fit, most, row);
        left = left.behind();
    }
    most
}
