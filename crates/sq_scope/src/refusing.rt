//! Refusals with the texts that they keep.

ghost use Rattle.sq_base.specs.Answers.{IsFaultOf};
ghost use Rattle.sq_base.specs.Refusals.{refused_naming};
ghost use Rattle.sq_scope.specs.Answers.{refused_keeping};

use sq_base::{Code, Fault, Name, Place, Refusal};
use std::alloc::Global;

/// A refusal that keeps a text.
pub fn naming(alloc: Global, code: Code, place: Place, text: &str) -> Fault
    ensures { IsFaultOf (refused_naming code place text.now) result }
{
    match Refusal::naming(alloc, code, place, text) {
        Ok(refusal) => Fault::Refused(refusal),
        Err(_) => Fault::Memory,
    }
}

/// A refusal that keeps two texts.
pub fn keeping(alloc: Global, code: Code, place: Place, first: &str, second: &str) -> Fault
    ensures { IsFaultOf (refused_keeping code place first.now second.now) result }
{
    match (Name::new(alloc, first), Name::new(alloc, second)) {
        (Ok(first), Ok(second)) => Fault::Refused(Refusal {
            code,
            place,
            first,
            second,
        }),
        _ => Fault::Memory,
    }
}
