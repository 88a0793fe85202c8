ghost use Rattle.std.specs.Prelude.{◌≡◌, ◌≢◌, ◌≤◌, ◌<◌, ◌+◌, ◌^◌, Err, length, IfOk};
ghost use Rattle.sq_base.specs.Memory.{still_tree_state};
ghost use Rattle.sq_base.specs.Tree.{IsTreeCall, Lists, Reads};

use crate::memory_tree::{front, held, standing};
use crate::{File, List, Listing, Tree, TreeFault};
use std::alloc::{AllocError, Global};
use std::marker::Model;

/// A tree in memory, no call of which fails.
#[derive(Debug, Drop)]
pub struct StillTree {
    files: List<File>,
    calls: u64,
    missings: u64,
}

impl Model for StillTree {
    ghost use Rattle.sq_base.specs.Memory.{StillTreeMemory};

    ghost Value = { StillTreeMemory };

    ghost view = { λ it. record { files = it.files; calls = it.calls; missings = it.missings } };
}

impl StillTree {
    pub fn new(_alloc: Global, files: List<File>) -> Result<StillTree, AllocError>
        ensures { IfOk result (λ tree. tree ≡ record { files = files; calls = 0; missings = 0 }) }
    {
        Ok(StillTree {
            files,
            calls: 0,
            missings: 0,
        })
    }
}

impl Tree for StillTree {
    ghost state = { still_tree_state };

    fn list(&mut self, alloc: Global, path: &str) -> Result<Listing, TreeFault>
        ensures call { IsTreeCall (still_tree_state self.old) (still_tree_state self.new) result }
        ensures answer { Lists path.now (still_tree_state self.old) result }
        ensures still { result ≢ Err TreeFault.Failed }
    {
        self.calls = self.calls.saturating_add(1);
        match standing(alloc, self.files.as_slice(), path) {
            Ok(Some(listing)) => Ok(listing),
            Ok(None) => {
                self.missings = self.missings.saturating_add(1);
                Err(TreeFault::Missing)
            }
            Err(_) => Err(TreeFault::Memory),
        }
    }

    fn read(&mut self, alloc: Global, path: &str, limit: usize) -> Result<List<u8>, TreeFault>
        requires { limit < 2 ^ 32 }
        ensures call { IsTreeCall (still_tree_state self.old) (still_tree_state self.new) result }
        ensures bound { IfOk result (λ bytes. length bytes ≤ limit + 1) }
        ensures answer { Reads limit path.now (still_tree_state self.old) result }
        ensures still { result ≢ Err TreeFault.Failed }
    {
        self.calls = self.calls.saturating_add(1);
        match held(self.files.as_slice(), path) {
            Some(file) => match List::from_slice(alloc, front(file.bytes.as_slice(), limit)) {
                Ok(bytes) => Ok(bytes),
                Err(_) => Err(TreeFault::Memory),
            },
            None => {
                self.missings = self.missings.saturating_add(1);
                Err(TreeFault::Missing)
            }
        }
    }

    fn faults(&self) -> u64 {
        0
    }

    fn missings(&self) -> u64 {
        self.missings
    }
}
