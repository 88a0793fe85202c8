ghost use Rattle.std.specs.Prelude.{◌≡◌};
ghost use Rattle.sq_base.specs.Sink.{SinkState, IsWrite};

use thiserror::Error;

/// Why a write did not succeed.
#[derive(Clone, Copy, Debug, PartialEq, Eq, Error)]
pub enum SinkFault {
    #[error("the screen cannot be written")]
    Failed,
    #[error("out of memory")]
    Memory,
}

/// The screen.
pub trait Sink {
    /// All bytes written and the number of its calls, where it tells them, and its count of faults.
    ghost state: { Self → SinkState };

    /// Writes all of the bytes, or after a fault a front of them.
    fn write(&mut self, bytes: &[u8]) -> Result<(), SinkFault>
        ensures { IsWrite (state self.old) (state self.new) result bytes.now };

    /// How often a call has answered `Failed`.
    fn faults(&self) -> u64
        ensures { result ≡ (state self.now).faults };
}
