ghost use Rattle.std.specs.Prelude.{◌≡◌, ◌≢◌, [], Err, IfOk, OnErr};
ghost use Rattle.sq_base.specs.Memory.{still_sink_state};
ghost use Rattle.sq_base.specs.Sink.{IsWrite};

use crate::{List, Sink, SinkFault};
use std::alloc::{AllocError, Global};
use std::marker::Model;

/// A screen in memory, no call of which fails.
#[derive(Debug, Drop)]
pub struct StillSink {
    text: List<u8>,
    calls: u64,
}

impl Model for StillSink {
    ghost use Rattle.sq_base.specs.Memory.{StillSinkMemory};

    ghost Value = { StillSinkMemory };

    ghost view = { λ it. record { text = it.text; calls = it.calls } };
}

impl StillSink {
    pub fn new(alloc: Global) -> Result<StillSink, AllocError>
        ensures { IfOk result (λ sink. sink ≡ record { text = []; calls = 0 }) }
    {
        Ok(StillSink {
            text: List::new(alloc),
            calls: 0,
        })
    }

    /// All bytes written.
    pub fn text(&self) -> &[u8]
        ensures { result.now ≡ self.now.text }
    {
        self.text.as_slice()
    }
}

impl Sink for StillSink {
    ghost state = { still_sink_state };

    fn write(&mut self, bytes: &[u8]) -> Result<(), SinkFault>
        ensures write { IsWrite (still_sink_state self.old) (still_sink_state self.new) result bytes.now }
        ensures unchanged { OnErr result (self.new.text ≡ self.old.text) }
        ensures still { result ≢ Err SinkFault.Failed }
    {
        self.calls = self.calls.saturating_add(1);
        match self.text.extend_from_slice(bytes) {
            Ok(()) => Ok(()),
            Err(_) => Err(SinkFault::Memory),
        }
    }

    fn faults(&self) -> u64 {
        0
    }
}
