//! The categories of rows at a place.

ghost use Rattle.std.specs.Prelude.{◌≡◌};
ghost use Rattle.sq_builtin.specs.Entries.{entry_of};
ghost use Rattle.sq_overload.specs.Resolution.{is_one_slot, prefers, prefers_at, slot_at, slot_of};

use crate::converts::{is_known, is_one_category};
use sq_base::{Category, category, preferred};
use sq_builtin::{Pattern, Row};

// The category of a pattern, if it is a type.
fn slot_of(pattern: Pattern) -> Option<Category>
    ensures { result ≡ slot_of pattern }
{
    match pattern {
        Pattern::Is(to) if is_known(to) => Some(category(to)),
        _ => None,
    }
}

/// The category of a row at a place, if it has a type there.
pub fn slot_at(place: usize, row: &Row) -> Option<Category>
    ensures { result ≡ slot_at place (entry_of row.now) }
{
    match row.inputs.get(place) {
        Some(&pattern) => slot_of(pattern),
        None => None,
    }
}

/// Whether two categories of patterns are one.
pub fn is_one_slot(slot: Option<Category>, other: Option<Category>) -> bool
    ensures { result ≡ is_one_slot slot other }
{
    match (slot, other) {
        (None, None) => true,
        (Some(of), Some(other)) => is_one_category(of, other),
        _ => false,
    }
}

// Whether a pattern is the preferred type of its category.
fn prefers(pattern: Pattern) -> bool
    ensures { result ≡ prefers pattern }
{
    match pattern {
        Pattern::Is(to) => is_known(to) && preferred(to),
        _ => false,
    }
}

/// Whether a row has the preferred type of its category at a place.
pub fn prefers_at(place: usize, row: &Row) -> bool
    ensures { result ≡ prefers_at place (entry_of row.now) }
{
    match row.inputs.get(place) {
        Some(&pattern) => prefers(pattern),
        None => false,
    }
}
