ghost use Rattle.std.specs.Prelude.{◌≡◌, ◌≢◌, Err, IfOk, OnErr};
ghost use Rattle.sq_base.specs.Memory.{still_out_state};
ghost use Rattle.sq_base.specs.Out.{IsPut};

use crate::memory_out::put_new;
use crate::{File, List, Out, OutFault};
use std::alloc::{AllocError, Global};
use std::marker::Model;

/// An output in memory, no call of which fails.
#[derive(Debug, Drop)]
pub struct StillOut {
    alloc: Global,
    files: List<File>,
    calls: u64,
}

impl Model for StillOut {
    ghost use Rattle.sq_base.specs.Memory.{StillOutMemory};

    ghost Value = { StillOutMemory };

    ghost view = { λ it. record { files = it.files; calls = it.calls } };
}

impl StillOut {
    pub fn new(alloc: Global, files: List<File>) -> Result<StillOut, AllocError>
        ensures { IfOk result (λ out. out ≡ record { files = files; calls = 0 }) }
    {
        Ok(StillOut {
            alloc,
            files,
            calls: 0,
        })
    }

    /// The files that it holds.
    pub fn files(&self) -> &[File]
        ensures { result.now ≡ self.now.files }
    {
        self.files.as_slice()
    }
}

impl Out for StillOut {
    ghost state = { still_out_state };

    fn put(&mut self, path: &str, bytes: &[u8]) -> Result<(), OutFault>
        ensures put { IsPut (still_out_state self.old) (still_out_state self.new) result path.now bytes.now }
        ensures unchanged { OnErr result (self.new.files ≡ self.old.files) }
        ensures still { result ≢ Err OutFault.Failed }
    {
        self.calls = self.calls.saturating_add(1);
        match put_new(self.alloc, &mut self.files, path, bytes) {
            Ok(()) => Ok(()),
            Err(_) => Err(OutFault::Memory),
        }
    }

    fn faults(&self) -> u64 {
        0
    }
}
