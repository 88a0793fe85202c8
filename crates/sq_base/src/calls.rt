ghost use Rattle.std.specs.Prelude.{◌≡◌};
ghost use Rattle.sq_base.specs.Calls.{CallLog, next_fails, called};

use crate::List;
use std::marker::Model;

/// The calls of an object in memory. Those with the numbers in `failing`, from 0, are to fail.
#[derive(Debug, Drop)]
pub struct Calls {
    failing: List<u64>,
    made: u64,
    faults: u64,
}

impl Model for Calls {
    ghost use Rattle.sq_base.specs.Calls.{CallLog};

    ghost Value = { CallLog };

    ghost view = { λ calls. record { failing = calls.failing; made = calls.made; faults = calls.faults } };
}

impl Calls {
    pub fn new(failing: List<u64>) -> Calls
        ensures { result ≡ record { failing = failing; made = 0; faults = 0 } }
    {
        Calls {
            failing,
            made: 0,
            faults: 0,
        }
    }

    pub fn faults(&self) -> u64
        ensures { result ≡ self.now.faults }
    {
        self.faults
    }

    /// Counts a call, and says whether it is to fail.
    pub fn next(&mut self) -> bool
        ensures fails { result ≡ next_fails self.old }
        ensures after { self.new ≡ called self.old }
    {
        let fails = self.failing.as_slice().contains(&self.made);
        self.made = self.made.saturating_add(1);
        if fails {
            self.faults = self.faults.saturating_add(1);
        }
        fails
    }
}
