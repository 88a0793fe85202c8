//! The parts of the table, each with what it holds.

ghost use Rattle.std.specs.Prelude.{◌≡◌, IsTrue, map};
ghost use Rattle.std.specs.List.{list_all};
ghost use Rattle.sq_builtin.specs.Entries.{entry_of};
ghost use Rattle.sq_builtin.specs.Groups.{are_sound, equal, greater, is_of_calls, less, matches, products, rows_of, sums, unary};
ghost use Rattle.sq_builtin.specs.Functions.{none, one, two, three, four, five, six, seven, eight, ten, twelve, fourteen, sixteen};

use crate::functions::{
    EIGHT, FIVE, FOUR, FOURTEEN, NONE, ONE, SEVEN, SIX, SIXTEEN, TEN, THREE, TWELVE, TWO,
};
use crate::group::Group;
use crate::operators::{EQUAL, GREATER, LESS, MATCHES, PRODUCTS, SUMS, UNARY};

#[tactic(auto, unfolding(crate::specs::Groups::equal))]
pub fn equal() -> &'static [Group]
    ensures entries { map entry_of (rows_of result.now) ≡ equal }
    ensures sound { IsTrue (are_sound 2 result.now) }
{
    EQUAL
}

#[tactic(auto, unfolding(crate::specs::Groups::less))]
pub fn less() -> &'static [Group]
    ensures entries { map entry_of (rows_of result.now) ≡ less }
    ensures sound { IsTrue (are_sound 2 result.now) }
{
    LESS
}

#[tactic(auto, unfolding(crate::specs::Groups::greater))]
pub fn greater() -> &'static [Group]
    ensures entries { map entry_of (rows_of result.now) ≡ greater }
    ensures sound { IsTrue (are_sound 2 result.now) }
{
    GREATER
}

#[tactic(auto, unfolding(crate::specs::Groups::sums))]
pub fn sums() -> &'static [Group]
    ensures entries { map entry_of (rows_of result.now) ≡ sums }
    ensures sound { IsTrue (are_sound 2 result.now) }
{
    SUMS
}

#[tactic(auto, unfolding(crate::specs::Groups::products))]
pub fn products() -> &'static [Group]
    ensures entries { map entry_of (rows_of result.now) ≡ products }
    ensures sound { IsTrue (are_sound 2 result.now) }
{
    PRODUCTS
}

#[tactic(auto, unfolding(crate::specs::Groups::matches))]
pub fn matches() -> &'static [Group]
    ensures entries { map entry_of (rows_of result.now) ≡ matches }
    ensures sound { IsTrue (are_sound 2 result.now) }
{
    MATCHES
}

#[tactic(auto, unfolding(crate::specs::Groups::unary))]
pub fn unary() -> &'static [Group]
    ensures entries { map entry_of (rows_of result.now) ≡ unary }
    ensures sound { IsTrue (are_sound 1 result.now) }
{
    UNARY
}

#[tactic(auto, unfolding(crate::specs::Functions::none))]
pub fn none() -> &'static [Group]
    ensures entries { map entry_of (rows_of result.now) ≡ none }
    ensures sound { IsTrue (are_sound 0 result.now) }
    ensures calls { IsTrue (list_all is_of_calls result.now) }
{
    NONE
}

#[tactic(auto, unfolding(crate::specs::Functions::one))]
pub fn one() -> &'static [Group]
    ensures entries { map entry_of (rows_of result.now) ≡ one }
    ensures sound { IsTrue (are_sound 1 result.now) }
    ensures calls { IsTrue (list_all is_of_calls result.now) }
{
    ONE
}

#[tactic(auto, unfolding(crate::specs::Functions::two))]
pub fn two() -> &'static [Group]
    ensures entries { map entry_of (rows_of result.now) ≡ two }
    ensures sound { IsTrue (are_sound 2 result.now) }
    ensures calls { IsTrue (list_all is_of_calls result.now) }
{
    TWO
}

#[tactic(auto, unfolding(crate::specs::Functions::three))]
pub fn three() -> &'static [Group]
    ensures entries { map entry_of (rows_of result.now) ≡ three }
    ensures sound { IsTrue (are_sound 3 result.now) }
    ensures calls { IsTrue (list_all is_of_calls result.now) }
{
    THREE
}

#[tactic(auto, unfolding(crate::specs::Functions::four))]
pub fn four() -> &'static [Group]
    ensures entries { map entry_of (rows_of result.now) ≡ four }
    ensures sound { IsTrue (are_sound 4 result.now) }
    ensures calls { IsTrue (list_all is_of_calls result.now) }
{
    FOUR
}

#[tactic(auto, unfolding(crate::specs::Functions::five))]
pub fn five() -> &'static [Group]
    ensures entries { map entry_of (rows_of result.now) ≡ five }
    ensures sound { IsTrue (are_sound 5 result.now) }
    ensures calls { IsTrue (list_all is_of_calls result.now) }
{
    FIVE
}

#[tactic(auto, unfolding(crate::specs::Functions::six))]
pub fn six() -> &'static [Group]
    ensures entries { map entry_of (rows_of result.now) ≡ six }
    ensures sound { IsTrue (are_sound 6 result.now) }
    ensures calls { IsTrue (list_all is_of_calls result.now) }
{
    SIX
}

#[tactic(auto, unfolding(crate::specs::Functions::seven))]
pub fn seven() -> &'static [Group]
    ensures entries { map entry_of (rows_of result.now) ≡ seven }
    ensures sound { IsTrue (are_sound 7 result.now) }
    ensures calls { IsTrue (list_all is_of_calls result.now) }
{
    SEVEN
}

#[tactic(auto, unfolding(crate::specs::Functions::eight))]
pub fn eight() -> &'static [Group]
    ensures entries { map entry_of (rows_of result.now) ≡ eight }
    ensures sound { IsTrue (are_sound 8 result.now) }
    ensures calls { IsTrue (list_all is_of_calls result.now) }
{
    EIGHT
}

#[tactic(auto, unfolding(crate::specs::Functions::ten))]
pub fn ten() -> &'static [Group]
    ensures entries { map entry_of (rows_of result.now) ≡ ten }
    ensures sound { IsTrue (are_sound 10 result.now) }
    ensures calls { IsTrue (list_all is_of_calls result.now) }
{
    TEN
}

#[tactic(auto, unfolding(crate::specs::Functions::twelve))]
pub fn twelve() -> &'static [Group]
    ensures entries { map entry_of (rows_of result.now) ≡ twelve }
    ensures sound { IsTrue (are_sound 12 result.now) }
    ensures calls { IsTrue (list_all is_of_calls result.now) }
{
    TWELVE
}

#[tactic(auto, unfolding(crate::specs::Functions::fourteen))]
pub fn fourteen() -> &'static [Group]
    ensures entries { map entry_of (rows_of result.now) ≡ fourteen }
    ensures sound { IsTrue (are_sound 14 result.now) }
    ensures calls { IsTrue (list_all is_of_calls result.now) }
{
    FOURTEEN
}

#[tactic(auto, unfolding(crate::specs::Functions::sixteen))]
pub fn sixteen() -> &'static [Group]
    ensures entries { map entry_of (rows_of result.now) ≡ sixteen }
    ensures sound { IsTrue (are_sound 16 result.now) }
    ensures calls { IsTrue (list_all is_of_calls result.now) }
{
    SIXTEEN
}
