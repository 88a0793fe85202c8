//! The tests of rows by which resolution narrows them down.

ghost use Rattle.std.specs.Prelude.{◌≡◌};
ghost use Rattle.sq_builtin.specs.Entries.{entry_of};
ghost use Rattle.sq_overload.specs.Masks.{passes};
ghost use Rattle.sq_overload.specs.Resolution.{is_alike};

use crate::fit::{Fit, all_fit, count_fit};
use crate::slot::{is_one_slot, prefers_at, slot_at};
use sq_base::{Category, PgType};
use sq_builtin::{Kind, Row};

/// A test of rows.
#[derive(Clone, Copy)]
pub enum Test {
    /// Every argument fits in this way.
    Fitting(Fit),
    /// So many arguments fit in this way.
    Counting(Fit, usize),
    /// It is a binary operator's that is exact with this type on both sides.
    Alike(PgType),
    /// It has this category at a place.
    Placed(usize, Option<Category>),
    /// It has the preferred type of its category at a place.
    Preferring(usize),
}

// Whether a row is a binary operator's that is exact with a type on both sides.
fn is_alike(of: PgType, row: &Row) -> bool
    ensures { result ≡ is_alike of (entry_of row.now) }
{
    matches!(row.kind, Kind::Operator) && all_fit(Fit::Exact, row.inputs, &[of, of])
}

/// Whether a row passes a test.
pub fn passes(args: &[PgType], test: Test, row: &Row) -> bool
    ensures { result ≡ passes args.now test (entry_of row.now) }
{
    match test {
        Test::Fitting(fit) => all_fit(fit, row.inputs, args),
        Test::Counting(fit, count) => count_fit(fit, row.inputs, args) == count,
        Test::Alike(of) => is_alike(of, row),
        Test::Placed(place, slot) => is_one_slot(slot_at(place, row), slot),
        Test::Preferring(place) => prefers_at(place, row),
    }
}
