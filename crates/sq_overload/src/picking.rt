//! Which row an operator or a call takes.

ghost use Rattle.std.specs.Prelude.{◌≡◌, ◌≤◌, Some, length, map};
ghost use Rattle.std.specs.List.{list_all};
ghost use Rattle.sq_builtin.specs.Entries.{entry_of};
ghost use Rattle.sq_overload.specs.Converts.{is_known};
ghost use Rattle.sq_overload.specs.Domains.{NoDomain};
ghost use Rattle.sq_overload.specs.Masks.{kept};
ghost use Rattle.sq_overload.specs.Resolution.{accepting, alike, assumed, assumed_from, other_operand, pick, pick_accepting, pick_among, pick_assuming, pick_by_category, pick_closest, pick_last, pick_most_exact, sole, unless_none, with_most};

use crate::agreement::first_known;
use crate::answer::Picked;
use crate::choice::{placed, preferring};
use crate::converts::{is_known, is_one_type};
use crate::fit::Fit;
use crate::mask::{Mask, every, keep, most, none_left, sole};
use crate::test::Test;
use sq_base::PgType;
use sq_builtin::Row;

// Whether all arguments are known.
fn are_known(args: &[PgType]) -> bool
    ensures { result ≡ list_all is_known args.now }
{
    args.iter().all(|&of| is_known(of))
}

// A type, where all known arguments are of it.
fn assumed_from(args: &[PgType], first: Option<PgType>) -> Option<PgType>
    ensures { result ≡ assumed_from args.now first }
{
    let first = first?;
    for &of in args {
        if is_known(of) && !is_one_type(first, of) {
            return None;
        }
    }
    Some(first)
}

// The type that unknown arguments are taken to be of.
fn assumed(args: &[PgType]) -> Option<PgType>
    ensures { result ≡ assumed args.now }
{
    if are_known(args) {
        return None;
    }
    assumed_from(args, first_known(args))
}

// The type of the one known operand of two.
fn other_operand(args: &[PgType]) -> Option<PgType>
    ensures { result ≡ other_operand args.now }
{
    match args {
        [one, other] => {
            if is_known(*one) && !is_known(*other) {
                Some(*one)
            } else if is_known(*other) && !is_known(*one) {
                Some(*other)
            } else {
                None
            }
        }
        _ => None,
    }
}

// The row that alone accepts a type at the unknown arguments.
fn pick_assuming(args: &[PgType], rows: &[Row], mask: Mask, guess: Option<PgType>) -> Picked
    requires few { length rows.now ≤ 128 }
    ensures { result ≡ pick_assuming args.now (kept rows.now mask.bits) guess }
{
    match guess {
        None => Picked::Several,
        Some(guess) => {
            let kept = keep(args, rows, mask, Test::Fitting(Fit::Assumed(guess)));
            match sole(rows, kept) {
                Some(place) => Picked::One(place),
                None => Picked::Several,
            }
        }
    }
}

// The row that alone is kept, or else after the last assumption.
fn pick_last(args: &[PgType], rows: &[Row], mask: Mask) -> Picked
    requires few { length rows.now ≤ 128 }
    ensures { result ≡ pick_last args.now (kept rows.now mask.bits) }
{
    match sole(rows, mask) {
        Some(place) => Picked::One(place),
        None => pick_assuming(args, rows, mask, assumed(args)),
    }
}

// All rows, where none would be left.
fn unless_none(rows: &[Row], mask: Mask, left: Mask) -> Mask
    ensures { kept rows.now result.bits ≡ unless_none (kept rows.now mask.bits) (kept rows.now left.bits) }
{
    if none_left(rows, left) { mask } else { left }
}

// The row that is picked after a category is chosen at each unknown argument.
fn pick_by_category(args: &[PgType], rows: &[Row], mask: Mask) -> Picked
    requires few { length rows.now ≤ 128 }
    ensures { result ≡ pick_by_category args.now (kept rows.now mask.bits) }
{
    match placed(args, rows, mask) {
        None => Picked::Several,
        Some(placed) => {
            let left = unless_none(rows, mask, preferring(args, rows, placed));
            pick_last(args, rows, left)
        }
    }
}

// The rows with the most arguments that fit.
fn with_most(args: &[PgType], rows: &[Row], mask: Mask, fit: Fit) -> Mask
    requires few { length rows.now ≤ 128 }
    ensures { kept rows.now result.bits ≡ with_most fit args.now (kept rows.now mask.bits) }
{
    let most = most(args, rows, mask, fit);
    keep(args, rows, mask, Test::Counting(fit, most))
}

// The row that is picked among those with the most exact arguments.
fn pick_closest(args: &[PgType], rows: &[Row], mask: Mask) -> Picked
    requires few { length rows.now ≤ 128 }
    ensures { result ≡ pick_closest args.now (kept rows.now mask.bits) }
{
    let closest = with_most(args, rows, mask, Fit::Close);
    match sole(rows, closest) {
        Some(place) => Picked::One(place),
        None => pick_by_category(args, rows, closest),
    }
}

// The row that is picked among those that accept the arguments, if more than one does.
fn pick_most_exact(args: &[PgType], rows: &[Row], mask: Mask) -> Picked
    requires few { length rows.now ≤ 128 }
    ensures { result ≡ pick_most_exact args.now (kept rows.now mask.bits) }
{
    let exact = with_most(args, rows, mask, Fit::Exact);
    match sole(rows, exact) {
        Some(place) => Picked::One(place),
        None => pick_closest(args, rows, exact),
    }
}

// The row that is picked among those that accept the arguments.
fn pick_accepting(args: &[PgType], rows: &[Row], mask: Mask) -> Picked
    requires few { length rows.now ≤ 128 }
    ensures { result ≡ pick_accepting args.now (kept rows.now mask.bits) }
{
    if none_left(rows, mask) {
        return Picked::Nothing;
    }
    match sole(rows, mask) {
        Some(place) => Picked::One(place),
        None => pick_most_exact(args, rows, mask),
    }
}

// The place of the row of a binary operator that alone is exact with the one known operand's type on both sides.
fn sole_alike(args: &[PgType], rows: &[Row], mask: Mask) -> Option<usize>
    requires few { length rows.now ≤ 128 }
    ensures { result ≡ sole (alike (other_operand args.now) (kept rows.now mask.bits)) }
{
    match other_operand(args) {
        Some(of) => sole(rows, keep(args, rows, mask, Test::Alike(of))),
        None => None,
    }
}

// The row that is picked among those of a mask.
fn pick_among(args: &[PgType], rows: &[Row], mask: Mask) -> Picked
    requires few { length rows.now ≤ 128 }
    ensures { result ≡ pick_among args.now (kept rows.now mask.bits) }
{
    let exact = keep(args, rows, mask, Test::Fitting(Fit::Exact));
    if let Some(place) = sole(rows, exact) {
        return Picked::One(place);
    }
    if let Some(place) = sole_alike(args, rows, mask) {
        return Picked::One(place);
    }
    let accepting = keep(args, rows, mask, Test::Fitting(Fit::Accepting));
    pick_accepting(args, rows, accepting)
}

/// The row, of at most 128 of one name and count, that an operator or a call with these arguments takes. A caller gives
/// the base type of an argument that has a domain.
pub fn pick(rows: &[Row], args: &[PgType]) -> Picked
    requires few { length rows.now ≤ 128 }
    requires plain { NoDomain args.now }
    ensures { result ≡ pick (map entry_of rows.now) args.now }
{
    pick_among(args, rows, every(rows))
}
