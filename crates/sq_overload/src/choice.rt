//! What is chosen at unknown arguments.

ghost use Rattle.std.specs.Prelude.{◌≡◌, ◌≤◌, Some, length};
ghost use Rattle.std.specs.List.{list_any};
ghost use Rattle.std.specs.Option.{option_map};
ghost use Rattle.sq_overload.specs.Masks.{kept, passes};
ghost use Rattle.sq_overload.specs.Resolution.{Candidate, chosen_slot, common_slot, placed, preferring};

use crate::converts::is_known;
use crate::mask::{Mask, all_pass, first_slot, keep, none_left};
use crate::test::Test;
use sq_base::{Category, PgType};
use sq_builtin::Row;

// Whether a row that is kept passes a test.
fn some_pass(args: &[PgType], rows: &[Row], mask: Mask, test: Test) -> bool
    requires few { length rows.now ≤ 128 }
    ensures { result ≡ list_any (λ (of : Candidate). passes args.now test of.entry) (kept rows.now mask.bits) }
{
    !none_left(rows, keep(args, rows, mask, test))
}

// A category, if all rows that are kept have it at a place.
fn common_slot(
    args: &[PgType],
    rows: &[Row],
    mask: Mask,
    place: usize,
    first: Option<Option<Category>>,
) -> Option<Option<Category>>
    ensures { result ≡ common_slot place (kept rows.now mask.bits) first }
{
    let slot = first?;
    if all_pass(args, rows, mask, Test::Placed(place, slot)) {
        Some(slot)
    } else {
        None
    }
}

// The category that is chosen at a place.
fn chosen_slot(args: &[PgType], rows: &[Row], mask: Mask, place: usize) -> Option<Option<Category>>
    requires few { length rows.now ≤ 128 }
    ensures { result ≡ chosen_slot place (kept rows.now mask.bits) }
{
    let strings = Some(Category::Strings);
    if some_pass(args, rows, mask, Test::Placed(place, strings)) {
        Some(strings)
    } else {
        common_slot(args, rows, mask, place, first_slot(rows, mask, place))
    }
}

/// The rows that have the category that is chosen at each unknown argument, or none where one has no
/// category.
pub fn placed(args: &[PgType], rows: &[Row], mask: Mask) -> Option<Mask>
    requires few { length rows.now ≤ 128 }
    ensures { option_map (λ mask. kept rows.now mask.bits) result ≡ placed (kept rows.now mask.bits) 0 args.now (kept rows.now mask.bits) }
{
    let mut left = mask;
    for place in 0..args.len() {
        if !is_known(args[place]) {
            match chosen_slot(args, rows, mask, place) {
                Some(slot) => left = keep(args, rows, left, Test::Placed(place, slot)),
                None => return None,
            }
        }
    }
    Some(left)
}

/// The rows that have the preferred type at each unknown argument where one of them has it.
pub fn preferring(args: &[PgType], rows: &[Row], mask: Mask) -> Mask
    requires few { length rows.now ≤ 128 }
    ensures { kept rows.now result.bits ≡ preferring (kept rows.now mask.bits) 0 args.now (kept rows.now mask.bits) }
{
    let mut left = mask;
    for place in 0..args.len() {
        if !is_known(args[place]) && some_pass(args, rows, mask, Test::Preferring(place)) {
            left = keep(args, rows, left, Test::Preferring(place));
        }
    }
    left
}
