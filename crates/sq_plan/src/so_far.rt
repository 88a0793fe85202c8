//! What is read across statements and files is one fold: what was made so far, and what was found.

ghost use Rattle.std.specs.Prelude.{◌≡◌, ◌∷◌, ◌++◌, [], OnOk};
ghost use Rattle.sq_plan.specs.Asked.{Judges};
ghost use Rattle.sq_plan.specs.Findings.{in_source};
ghost use Rattle.sq_plan.specs.Folds.{unless_found};

use crate::{Finding, Halt, Spot};
use sq_base::{List, Name, Refusal};
use std::alloc::{AllocError, Global};

/// What was made so far, and what was found. What is refused is found, and nothing is made of it.
#[derive(Debug, Drop)]
pub struct SoFar<M> {
    pub made: M,
    pub found: List<Finding>,
}

impl<M: Drop> SoFar<M> {
    /// What was made, unless something was found.
    pub fn unless_found(self) -> Result<M, Halt>
        ensures { Judges (unless_found self) result }
    {
        let SoFar { made, found } = self;
        if found.len() > 0 {
            Err(Halt::Refused(found))
        } else {
            Ok(made)
        }
    }
}

/// Lists a refusal in the source at a path.
pub fn list_refusal(
    alloc: Global,
    found: &mut List<Finding>,
    path: &str,
    refusal: Refusal,
) -> Result<(), AllocError>
    ensures { OnOk result (found.new ≡ found.old ++ in_source path.now refusal ∷ []) }
{
    found.push(Finding {
        path: Name::new(alloc, path)?,
        spot: Spot::Placed,
        refusal,
    })
}
