ghost use Rattle.std.specs.Prelude.{◌≡◌, IfOk};
ghost use Rattle.sq_base.specs.Refusals.{refused, refused_naming};

use crate::{Code, Name, Place};
use std::alloc::{AllocError, Global};

/// Why an input is refused: the kind of the refusal, its place, and the texts that its line keeps.
#[derive(Debug, Drop)]
pub struct Refusal {
    pub code: Code,
    pub place: Place,
    /// Empty where the refusal keeps no text.
    pub first: Name,
    /// Empty where the refusal keeps no second text.
    pub second: Name,
}

impl Refusal {
    /// A refusal at a place, without texts. It takes no memory.
    pub fn at(alloc: Global, code: Code, place: Place) -> Refusal
        ensures { result ≡ refused code place }
    {
        Refusal {
            code,
            place,
            first: Name::empty(alloc),
            second: Name::empty(alloc),
        }
    }

    /// A refusal that keeps a text.
    pub fn naming(
        alloc: Global,
        code: Code,
        place: Place,
        text: &str,
    ) -> Result<Refusal, AllocError>
        ensures { IfOk result (λ refusal. refusal ≡ refused_naming code place text.now) }
    {
        Ok(Refusal {
            code,
            place,
            first: Name::new(alloc, text)?,
            second: Name::empty(alloc),
        })
    }
}

/// Why a call gives no answer.
#[derive(Debug, Drop)]
pub enum Fault {
    Refused(Refusal),
    /// Memory was wanting.
    Memory,
}

impl From<AllocError> for Fault {
    ghost use Rattle.sq_base.specs.declared.refusal.Fault.TheVariants.{Memory};

    ghost from_gives = { λ _ fault. fault ≡ Memory };

    fn from(_error: AllocError) -> Fault {
        Fault::Memory
    }
}
