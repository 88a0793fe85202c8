ghost use Rattle.std.specs.Prelude.{◌≡◌, ◌+◌, ◌^◌, ◌<◌, ◌≤◌, IfOk, length};
ghost use Rattle.sq_base.specs.Tree.{TreeState, IsTreeCall, Lists, Reads};

use crate::{List, Name};
use std::alloc::Global;
use thiserror::Error;

/// What stands at a path.
#[derive(Debug, Drop)]
pub enum Listing {
    File,
    /// The names of its direct entries, each once.
    Folder(List<Name>),
}

/// Why a call of a tree gives nothing.
#[derive(Clone, Copy, Debug, PartialEq, Eq, Error)]
pub enum TreeFault {
    #[error("no such file or folder")]
    Missing,
    #[error("the file or folder cannot be read")]
    Failed,
    #[error("out of memory")]
    Memory,
}

/// Files and folders to be read.
pub trait Tree {
    /// The files that it holds and the number of its calls, where it tells them, and its counts.
    ghost state: { Self → TreeState };

    /// Says what stands at a path.
    fn list(&mut self, alloc: Global, path: &str) -> Result<Listing, TreeFault>
        ensures call { IsTreeCall (state self.old) (state self.new) result }
        ensures answer { Lists path.now (state self.old) result };

    /// The whole file where it is not longer than `limit`, and else its first `limit + 1` bytes.
    fn read(&mut self, alloc: Global, path: &str, limit: usize) -> Result<List<u8>, TreeFault>
        requires { limit < 2 ^ 32 }
        ensures call { IsTreeCall (state self.old) (state self.new) result }
        ensures bound { IfOk result (λ bytes. length bytes ≤ limit + 1) }
        ensures answer { Reads limit path.now (state self.old) result };

    /// How often a call has answered `Failed`.
    fn faults(&self) -> u64
        ensures { result ≡ (state self.now).faults };

    /// How often a call has answered `Missing`.
    fn missings(&self) -> u64
        ensures { result ≡ (state self.now).missings };
}
