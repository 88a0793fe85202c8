ghost use Rattle.std.specs.Prelude.{◌≡◌, ◌↔◌, ◌<◌, [], length, position, IfOk, IfSome, OnOk, OnErr, IsErrOf, IsTrue};
ghost use Rattle.std.specs.Str.{bytes_eq};
ghost use Rattle.sq_base.specs.Calls.{next_fails};
ghost use Rattle.sq_base.specs.Memory.{out_state};
ghost use Rattle.sq_base.specs.Memory;
ghost use Rattle.sq_base.specs.Out.{IsPut};

use crate::calls::Calls;
use crate::{File, List, Name, Out, OutFault};
use std::alloc::{AllocError, Global};
use std::marker::Model;

/// An output in memory.
#[derive(Debug, Drop)]
pub struct MemoryOut {
    alloc: Global,
    files: List<File>,
    calls: Calls,
}

impl Model for MemoryOut {
    ghost use Rattle.sq_base.specs.Memory.{OutMemory};

    ghost Value = { OutMemory };

    ghost view = { λ it. record { files = it.files; calls = it.calls } };
}

impl MemoryOut {
    pub fn new(
        alloc: Global,
        files: List<File>,
        failing: List<u64>,
    ) -> Result<MemoryOut, AllocError>
        ensures { IfOk result (λ out. out ≡ record { files = files; calls = record { failing = failing; made = 0; faults = 0 } }) }
    {
        Ok(MemoryOut {
            alloc,
            files,
            calls: Calls::new(failing),
        })
    }

    /// The files that it holds.
    pub fn files(&self) -> &[File]
        ensures { result.now ≡ self.now.files }
    {
        self.files.as_slice()
    }
}

// The place of the first file at a path.
fn place_of(files: &[File], path: &str) -> Option<usize>
    ensures place { result ≡ position (λ file. bytes_eq file.path path.now) files.now }
    ensures within { IfSome result (λ at. at < length files.now) }
{
    files.iter().position(|file| file.path.as_str() == path)
}

// Puts a file in the place of the one at its path, or at the end.
fn put_file(files: &mut List<File>, file: File) -> Result<(), AllocError>
    ensures ok { OnOk result (files.new ≡ Memory.put_file files.old file.path file.bytes) }
    ensures err { OnErr result (files.new ≡ files.old) }
{
    match place_of(files.as_slice(), file.path.as_str()) {
        Some(at) => {
            files.set(at, file);
            Ok(())
        }
        None => files.push(file),
    }
}

impl Out for MemoryOut {
    ghost state = { out_state };

    fn put(&mut self, path: &str, bytes: &[u8]) -> Result<(), OutFault>
        ensures put { IsPut (out_state self.old) (out_state self.new) result path.now bytes.now }
        ensures unchanged { OnErr result (self.new.files ≡ self.old.files) }
        ensures failing { IsErrOf result OutFault.Failed ↔ IsTrue (next_fails self.old.calls) }
    {
        if self.calls.next() {
            return Err(OutFault::Failed);
        }
        match put_new(self.alloc, &mut self.files, path, bytes) {
            Ok(()) => Ok(()),
            Err(_) => Err(OutFault::Memory),
        }
    }

    fn faults(&self) -> u64 {
        self.calls.faults()
    }
}

// Puts a file with these bytes.
pub(crate) fn put_new(
    alloc: Global,
    files: &mut List<File>,
    path: &str,
    bytes: &[u8],
) -> Result<(), AllocError>
    ensures ok { OnOk result (files.new ≡ Memory.put_file files.old path.now bytes.now) }
    ensures err { OnErr result (files.new ≡ files.old) }
{
    let file = File {
        path: Name::new(alloc, path)?,
        bytes: List::from_slice(alloc, bytes)?,
    };
    put_file(files, file)
}
