ghost use Rattle.std.specs.Prelude.{◌≡◌, ◌↔◌, [], IfOk, OnErr, IsErrOf, IsTrue};
ghost use Rattle.sq_base.specs.Calls.{next_fails};
ghost use Rattle.sq_base.specs.Memory.{sink_state};
ghost use Rattle.sq_base.specs.Sink.{IsWrite};

use crate::calls::Calls;
use crate::{List, Sink, SinkFault};
use std::alloc::{AllocError, Global};
use std::marker::Model;

/// A screen in memory.
#[derive(Debug, Drop)]
pub struct MemorySink {
    text: List<u8>,
    calls: Calls,
}

impl Model for MemorySink {
    ghost use Rattle.sq_base.specs.Memory.{SinkMemory};

    ghost Value = { SinkMemory };

    ghost view = { λ it. record { text = it.text; calls = it.calls } };
}

impl MemorySink {
    pub fn new(alloc: Global, failing: List<u64>) -> Result<MemorySink, AllocError>
        ensures { IfOk result (λ sink. sink ≡ record { text = []; calls = record { failing = failing; made = 0; faults = 0 } }) }
    {
        Ok(MemorySink {
            text: List::new(alloc),
            calls: Calls::new(failing),
        })
    }

    /// All bytes written.
    pub fn text(&self) -> &[u8]
        ensures { result.now ≡ self.now.text }
    {
        self.text.as_slice()
    }
}

impl Sink for MemorySink {
    ghost state = { sink_state };

    fn write(&mut self, bytes: &[u8]) -> Result<(), SinkFault>
        ensures write { IsWrite (sink_state self.old) (sink_state self.new) result bytes.now }
        ensures unchanged { OnErr result (self.new.text ≡ self.old.text) }
        ensures failing { IsErrOf result SinkFault.Failed ↔ IsTrue (next_fails self.old.calls) }
    {
        if self.calls.next() {
            return Err(SinkFault::Failed);
        }
        match self.text.extend_from_slice(bytes) {
            Ok(()) => Ok(()),
            Err(_) => Err(SinkFault::Memory),
        }
    }

    fn faults(&self) -> u64 {
        self.calls.faults()
    }
}
