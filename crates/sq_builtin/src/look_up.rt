//! The look-up of rows.

ghost use Rattle.std.specs.Prelude.{◌≡◌, ◌≤◌, ◌==◌, ◌||◌, All, IsTrue, bytes_eq, not, length, map};
ghost use Rattle.std.specs.List.{list_all, list_any};
ghost use Rattle.sq_builtin.specs.Entries.{entry_of};
ghost use Rattle.sq_builtin.specs.Groups.{are_sound, found, is_of_calls, lane, named, part_at, parts, rows_of};
ghost use Rattle.sq_builtin.specs.Functions;
ghost use Rattle.sq_builtin.specs.Rows.{is_among, is_call_of, known, rows};

use crate::group::Group;
use crate::parts::{
    eight, equal, five, four, fourteen, greater, less, matches, none, one, products, seven, six,
    sixteen, sums, ten, three, twelve, two, unary,
};
use crate::row::Row;

// The lane of a name: words have one, and operators go by their first byte.
fn lane(name: &str) -> u8
    ensures { result ≡ lane name.now }
{
    match name.as_bytes().first() {
        Some(b'a'..=b'z') => b'a',
        Some(b'=') => b'=',
        Some(b'<') => b'<',
        Some(b'>') => b'>',
        Some(b'+' | b'-') => b'+',
        Some(b'*' | b'/' | b'%' | b'^') => b'*',
        _ => b'!',
    }
}

// The groups of functions and aggregates of a count of inputs.
#[tactic(auto, unfolding(crate::specs::Groups::parts))]
fn words(count: usize) -> &'static [Group]
    ensures entries { map entry_of (rows_of result.now) ≡ part_at 97 count parts }
    ensures sound { IsTrue (are_sound count result.now) }
{
    match count {
        0 => none(),
        1 => one(),
        2 => two(),
        3 => three(),
        4 => four(),
        5 => five(),
        6 => six(),
        7 => seven(),
        8 => eight(),
        10 => ten(),
        12 => twelve(),
        14 => fourteen(),
        16 => sixteen(),
        _ => &[],
    }
}

// The groups of operators of a lane and a count of operands.
#[tactic(auto, unfolding(crate::specs::Groups::parts))]
fn operators(lane: u8, count: usize) -> &'static [Group]
    requires { IsTrue (not (lane == 97)) }
    ensures entries { map entry_of (rows_of result.now) ≡ part_at lane count parts }
    ensures sound { IsTrue (are_sound count result.now) }
{
    match (lane, count) {
        (b'=', 2) => equal(),
        (b'<', 2) => less(),
        (b'>', 2) => greater(),
        (b'+', 2) => sums(),
        (b'*', 2) => products(),
        (b'!', 2) => matches(),
        (b'+', 1) => unary(),
        _ => &[],
    }
}

// The groups among which those of a name and a count stand.
fn part(name: &str, count: usize) -> &'static [Group]
    ensures entries { map entry_of (rows_of result.now) ≡ part_at (lane name.now) count parts }
    ensures sound { IsTrue (are_sound count result.now) }
{
    let lane = lane(name);
    if lane == b'a' {
        words(count)
    } else {
        operators(lane, count)
    }
}

// The rows of a name.
fn named(groups: &'static [Group], name: &str) -> &'static [Row]
    ensures { result.now ≡ found (named name.now groups.now) }
{
    for group in groups {
        if group.name == name {
            return group.rows;
        }
    }
    &[]
}

/// The rows of a name and a count of inputs, in the order of the table.
pub fn rows(name: &str, count: usize) -> &'static [Row]
    ensures rows { map entry_of result.now ≡ rows name.now count }
    ensures few { length result.now ≤ 128 }
    ensures inputs { All (λ row. length row.inputs.now ≡ count) result.now }
{
    named(part(name, count), name)
}

// Whether one of these groups has a name.
fn is_named(groups: &'static [Group], name: &str) -> bool
    ensures { result ≡ list_any (λ group. bytes_eq group.name.now name.now) groups.now }
{
    groups.iter().any(|group| group.name == name)
}

// Whether a function or an aggregate of groups of them has a name.
fn has_call(groups: &'static [Group], name: &str) -> bool
    requires { IsTrue (list_all is_of_calls groups.now) }
    ensures { result ≡ list_any (is_call_of name.now) (map entry_of (rows_of groups.now)) }
{
    is_named(groups, name)
}

// Whether a function or an aggregate of at most three inputs has a name.
fn is_short(name: &str) -> bool
    ensures { result ≡ (is_among name.now Functions.none || is_among name.now Functions.one || is_among name.now Functions.two || is_among name.now Functions.three) }
{
    has_call(none(), name)
        || has_call(one(), name)
        || has_call(two(), name)
        || has_call(three(), name)
}

// Whether a function or an aggregate of four to seven inputs has a name.
fn is_middling(name: &str) -> bool
    ensures { result ≡ (is_among name.now Functions.four || is_among name.now Functions.five || is_among name.now Functions.six || is_among name.now Functions.seven) }
{
    has_call(four(), name)
        || has_call(five(), name)
        || has_call(six(), name)
        || has_call(seven(), name)
}

// Whether a function or an aggregate of eight inputs or more has a name.
fn is_long(name: &str) -> bool
    ensures { result ≡ (is_among name.now Functions.eight || is_among name.now Functions.ten || is_among name.now Functions.twelve || is_among name.now Functions.fourteen || is_among name.now Functions.sixteen) }
{
    has_call(eight(), name)
        || has_call(ten(), name)
        || has_call(twelve(), name)
        || has_call(fourteen(), name)
        || has_call(sixteen(), name)
}

/// Whether some function or aggregate has a name.
#[tactic(auto, using(crate::proofs::Calls::calls_of_table))]
pub fn known(name: &str) -> bool
    ensures { result ≡ known name.now }
{
    is_short(name) || is_middling(name) || is_long(name)
}
