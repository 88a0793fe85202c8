ghost use Rattle.std.specs.Prelude.{◌≡◌};
ghost use Rattle.sq_base.specs.declared.no_form.NoForm.TheVariants.{Memory};

use std::alloc::AllocError;

/// Why nothing was read.
#[derive(Clone, Copy, Debug, PartialEq, Eq, Drop)]
pub enum NoForm {
    /// There is no such form here.
    Absent,
    /// Memory was wanting.
    Memory,
}

impl From<AllocError> for NoForm {
    ghost from_gives = { λ _ fault. fault ≡ Memory };

    fn from(_error: AllocError) -> NoForm {
        NoForm::Memory
    }
}
