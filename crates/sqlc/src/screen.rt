ghost use Rattle.std.specs.Prelude.{None};

use sq_base::{Sink, SinkFault};
use std::io::Write;
use std::{io, rt};

/// Standard output. It tells nothing of what was written.
#[derive(Drop)]
pub struct Screen<'a, R: Print> {
    rt: &'a R,
    faults: u64,
}

impl<'a, R: Print> Screen<'a, R> {
    pub fn new(rt: &'a R) -> Screen<'a, R> {
        Screen { rt, faults: 0 }
    }
}

impl<R: Print> Sink for Screen<'_, R> {
    ghost state = { λ screen. record { text = None; calls = None; faults = screen.faults } };

    fn write(&mut self, bytes: &[u8]) -> Result<(), SinkFault> {
        match io::writer(self.rt).write_all(bytes) {
            Ok(()) => Ok(()),
            Err(_) => {
                self.faults = self.faults.saturating_add(1);
                Err(SinkFault::Failed)
            }
        }
    }

    fn faults(&self) -> u64 {
        self.faults
    }
}
