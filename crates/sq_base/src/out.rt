ghost use Rattle.std.specs.Prelude.{◌≡◌};
ghost use Rattle.sq_base.specs.Out.{OutState, IsPut};

use thiserror::Error;

/// Why a put did not succeed.
#[derive(Clone, Copy, Debug, PartialEq, Eq, Error)]
pub enum OutFault {
    #[error("the file cannot be written")]
    Failed,
    #[error("out of memory")]
    Memory,
}

/// Where whole files are written.
pub trait Out {
    /// The files that it holds and the number of its calls, where it tells them, and its count of faults.
    ghost state: { Self → OutState };

    /// Writes a whole file, in the place of any that stood at the path.
    fn put(&mut self, path: &str, bytes: &[u8]) -> Result<(), OutFault>
        ensures { IsPut (state self.old) (state self.new) result path.now bytes.now };

    /// How often a call has answered `Failed`.
    fn faults(&self) -> u64
        ensures { result ≡ (state self.now).faults };
}
