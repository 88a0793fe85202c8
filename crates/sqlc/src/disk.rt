ghost use Rattle.std.specs.Prelude.{◌≡◌, ◌≤◌, ◌<◌, ◌+◌, ◌^◌, ℕ, length, None, Err, IfOk};
ghost use Rattle.sq_base.specs.Tree.{CountsMissing, CountsFault};

use sq_base::{List, Listing, Name, Out, OutFault, Tree, TreeFault};
use std::alloc::Global;
use std::io::{ErrorKind, Read};
use std::rt::Files;
use std::{fs, io};

/// The files and folders of the system. It tells nothing of what they are.
#[derive(Drop)]
pub struct DiskTree<'a, R: Files + AllocGlobal> {
    rt: &'a R,
    faults: u64,
    missings: u64,
}

impl<'a, R: Files + AllocGlobal> DiskTree<'a, R> {
    pub fn new(rt: &'a R) -> DiskTree<'a, R> {
        DiskTree {
            rt,
            faults: 0,
            missings: 0,
        }
    }

    // Counts a fault.
    fn count(&mut self, fault: TreeFault)
        ensures missings { CountsMissing {A = ℕ} (Err fault) self.old.missings self.new.missings }
        ensures faults { CountsFault {A = ℕ} (Err fault) self.old.faults self.new.faults }
    {
        match fault {
            TreeFault::Missing => self.missings = self.missings.saturating_add(1),
            TreeFault::Failed => self.faults = self.faults.saturating_add(1),
            TreeFault::Memory => {}
        }
    }
}

// What an error of the system is. A folder is no file that can be read, and nothing lies in a file.
fn fault_of(error: &io::Error) -> TreeFault {
    match error.kind() {
        ErrorKind::OutOfMemory => TreeFault::Memory,
        ErrorKind::NotFound | ErrorKind::NotADirectory | ErrorKind::IsADirectory => {
            TreeFault::Missing
        }
        _ => TreeFault::Failed,
    }
}

/// The most entries that a folder may have.
const MOST_ENTRIES: usize = 1_048_576;

// The names of a folder's entries. A name that is not UTF-8 is an error: its file could be meant, and has no
// path in a configuration or a line.
fn names<R: Files + AllocGlobal + Clone + Drop>(
    rt: &R,
    alloc: Global,
    path: &str,
) -> io::Result<List<Name>> {
    let mut names = List::new(alloc);
    for entry in fs::read_dir(rt, path)? {
        if names.len() >= MOST_ENTRIES {
            return Err(io::Error::from(ErrorKind::Other));
        }
        names.push(Name::new(alloc, entry?.file_name())?)?;
    }
    Ok(names)
}

// What stands at a path, which may be a link. A pipe, a device and a socket are no file and no folder.
fn standing<R: Files + AllocGlobal + Clone + Drop>(
    rt: &R,
    alloc: Global,
    path: &str,
) -> io::Result<Listing> {
    let metadata = fs::metadata(rt, path)?;
    if metadata.is_file() {
        return Ok(Listing::File);
    }
    if metadata.is_dir() {
        return Ok(Listing::Folder(names(rt, alloc, path)?));
    }
    Err(io::Error::from(ErrorKind::NotFound))
}

/// How often a call is made that signals interrupt.
const MOST_TRIES: u32 = 1_048_576;

/// Makes a call, again and again where a signal has interrupted it.
pub fn uninterrupted<A: Drop, F: FnMut() -> io::Result<A>>(mut call: F) -> io::Result<A>
    requires { F.IsAlwaysCallable call }
{
    for _ in 0..MOST_TRIES {
        match call() {
            Err(error) if error.kind() == ErrorKind::Interrupted => {}
            answer => return answer,
        }
    }
    Err(io::Error::from(ErrorKind::Interrupted))
}

// The bytes of a file, up to a limit and one more. What is no file is not opened: a pipe would wait for
// its writer. The calls below are made again where a signal has interrupted them.
fn bytes<R: Files + AllocGlobal>(
    rt: &R,
    alloc: Global,
    path: &str,
    limit: usize,
) -> io::Result<List<u8>>
    requires { limit < 2 ^ 32 }
    ensures { IfOk result (λ bytes. length bytes ≤ limit + 1) }
{
    if !fs::metadata(rt, path)?.is_file() {
        return Err(io::Error::from(ErrorKind::NotFound));
    }
    let mut bytes = Vec::new(alloc);
    fs::open(rt, path)?
        .take(limit as u64 + 1)
        .read_to_end(&mut bytes)?;
    bytes.truncate(limit + 1);
    Ok(List::from_vec(bytes))
}

impl<R: Files + AllocGlobal + Clone + Drop> Tree for DiskTree<'_, R> {
    ghost state = { λ tree. record { files = None; calls = None; faults = tree.faults; missings = tree.missings } };

    fn list(&mut self, alloc: Global, path: &str) -> Result<Listing, TreeFault> {
        match uninterrupted(|| standing(self.rt, alloc, path)) {
            Ok(listing) => Ok(listing),
            Err(error) => {
                let fault = fault_of(&error);
                self.count(fault);
                Err(fault)
            }
        }
    }

    fn read(&mut self, alloc: Global, path: &str, limit: usize) -> Result<List<u8>, TreeFault> {
        match bytes(self.rt, alloc, path, limit) {
            Ok(bytes) => Ok(bytes),
            Err(error) => {
                let fault = fault_of(&error);
                self.count(fault);
                Err(fault)
            }
        }
    }

    fn faults(&self) -> u64 {
        self.faults
    }

    fn missings(&self) -> u64 {
        self.missings
    }
}

/// Files of the system to be written, with the folders that they need.
#[derive(Drop)]
pub struct DiskOut<'a, R: Files> {
    rt: &'a R,
    faults: u64,
}

impl<'a, R: Files> DiskOut<'a, R> {
    pub fn new(rt: &'a R) -> DiskOut<'a, R> {
        DiskOut { rt, faults: 0 }
    }
}

// Whether something stands at a path that is no file: a folder, a pipe, a device or a socket.
fn is_no_file<R: Files>(rt: &R, path: &str) -> bool {
    match fs::metadata(rt, path) {
        Ok(metadata) => !metadata.is_file(),
        Err(_) => false,
    }
}

// Writes a file, and makes the folders that it needs. What is no file is not opened: a pipe would wait for
// its reader.
fn write_file<R: Files>(rt: &R, path: &str, bytes: &[u8]) -> io::Result<()> {
    if is_no_file(rt, path) {
        return Err(io::Error::from(ErrorKind::AlreadyExists));
    }
    if let Some((folder, _)) = path.rsplit_once('/') {
        if !folder.is_empty() {
            fs::create_dir_all(rt, folder)?;
        }
    }
    fs::write(rt, path, bytes)
}

impl<R: Files> Out for DiskOut<'_, R> {
    ghost state = { λ out. record { files = None; calls = None; faults = out.faults } };

    fn put(&mut self, path: &str, bytes: &[u8]) -> Result<(), OutFault> {
        match uninterrupted(|| write_file(self.rt, path, bytes)) {
            Ok(()) => Ok(()),
            Err(_) => {
                self.faults = self.faults.saturating_add(1);
                Err(OutFault::Failed)
            }
        }
    }

    fn faults(&self) -> u64 {
        self.faults
    }
}
