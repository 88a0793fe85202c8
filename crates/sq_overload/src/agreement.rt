//! The common type of a list.

ghost use Rattle.std.specs.Prelude.{◌≡◌, IfSome, find};
ghost use Rattle.std.specs.List.{list_all};
ghost use Rattle.sq_base.specs.Types.{IsBase};
ghost use Rattle.sq_overload.specs.CommonType.{agreed, common, common_of_several, differs, next_candidate, one_type, settled};
ghost use Rattle.sq_overload.specs.Converts.{is_known, is_one_type};
ghost use Rattle.sq_overload.specs.Domains.{NoDomainUnlessOne};

use crate::answer::Common;
use crate::converts::{converts, is_known, is_one_category, is_one_type};
use sq_base::{PgType, Scalar, category, preferred};

// The candidate after one more known type.
fn next_candidate(candidate: PgType, of: PgType) -> PgType
    requires { IsBase candidate }
    ensures next { result ≡ next_candidate candidate of }
    ensures known { IsBase result }
{
    if !preferred(candidate) && converts(candidate, of) && !converts(of, candidate) {
        of
    } else {
        candidate
    }
}

// Whether a known type does not convert to the candidate.
fn differs(candidate: PgType, of: PgType) -> bool
    ensures { result ≡ differs candidate of }
{
    is_known(of) && !converts(of, candidate)
}

// The candidate, where every known type converts to it, and else the first that does not.
fn agreed(candidate: PgType, types: &[PgType]) -> Common
    ensures { result ≡ agreed candidate types.now }
{
    for &of in types {
        if differs(candidate, of) {
            return Common::Differ(candidate, of);
        }
    }
    Common::Agreed(candidate)
}

// The common type of a list whose first known type is this.
fn settled(first: PgType, types: &[PgType]) -> Common
    requires { IsBase first }
    ensures { result ≡ settled first types.now first types.now }
{
    let mut candidate = first;
    for &of in types {
        if !is_known(of) {
            continue;
        }
        if !is_one_category(category(of), category(first)) {
            return Common::Differ(candidate, of);
        }
        candidate = next_candidate(candidate, of);
    }
    agreed(candidate, types)
}

/// The first known type.
pub fn first_known(types: &[PgType]) -> Option<PgType>
    ensures first { result ≡ find is_known types.now }
    ensures known { IfSome result (λ of. IsBase of) }
{
    for &of in types {
        if is_known(of) {
            return Some(of);
        }
    }
    None
}

// Whether all types are this one.
fn are_one_type(first: PgType, types: &[PgType]) -> bool
    ensures { result ≡ list_all (is_one_type first) types.now }
{
    for &of in types {
        if !is_one_type(first, of) {
            return false;
        }
    }
    true
}

/// The type of all of these, a domain too, where they have one.
pub fn one_type(types: &[PgType]) -> Option<PgType>
    ensures { result ≡ one_type types.now }
{
    match types {
        [] => None,
        [first, rest @ ..] => {
            if !matches!(first.scalar, Scalar::Unknown) && are_one_type(*first, rest) {
                Some(*first)
            } else {
                None
            }
        }
    }
}

// The common type of a list of several types.
fn common_of_several(types: &[PgType]) -> Common
    ensures { result ≡ common_of_several types.now (find is_known types.now) }
{
    match first_known(types) {
        Some(first) => settled(first, types),
        None => Common::Agreed(PgType {
            scalar: Scalar::Text,
            array: false,
        }),
    }
}

/// The common type of a list, or the candidate and the first type that does not agree with it. A caller gives the base
/// type of a domain, unless all are of one domain.
pub fn common(types: &[PgType]) -> Common
    requires plain { NoDomainUnlessOne types.now }
    ensures { result ≡ common types.now }
{
    match one_type(types) {
        Some(of) => Common::Agreed(of),
        None => common_of_several(types),
    }
}
