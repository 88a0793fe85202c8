ghost use Rattle.std.specs.Prelude.{◌≡◌, ◌↔◌, ◌≤◌, ◌<◌, ◌+◌, ◌^◌, [], nat_eq, take, Some, None, length, MatchOption, IfOk, OnOk, OnErr, IsErrOf, IsTrue};
ghost use Rattle.std.specs.Option.{option_copied};
ghost use Rattle.std.specs.List.{list_any, starts_with};
ghost use Rattle.std.specs.Str.{bytes_eq};
ghost use Rattle.sq_base.specs.Calls.{next_fails};
ghost use Rattle.sq_base.specs.Files.{bytes_at, is_folder, inside, IsListing, IsNowhere};
ghost use Rattle.sq_base.specs.Files;
ghost use Rattle.sq_base.specs.Memory.{tree_state};
ghost use Rattle.sq_base.specs.Tree.{IsTreeCall, Lists, Reads, bytes_at_most};

use crate::calls::Calls;
use crate::{File, List, Listing, Name, Tree, TreeFault};
use std::alloc::{AllocError, Global};
use std::marker::Model;

/// A tree in memory.
#[derive(Debug, Drop)]
pub struct MemoryTree {
    files: List<File>,
    calls: Calls,
    missings: u64,
}

impl Model for MemoryTree {
    ghost use Rattle.sq_base.specs.Memory.{TreeMemory};

    ghost Value = { TreeMemory };

    ghost view = { λ it. record { files = it.files; calls = it.calls; missings = it.missings } };
}

impl MemoryTree {
    pub fn new(
        _alloc: Global,
        files: List<File>,
        failing: List<u64>,
    ) -> Result<MemoryTree, AllocError>
        ensures { IfOk result (λ tree. tree ≡ record { files = files; calls = record { failing = failing; made = 0; faults = 0 }; missings = 0 }) }
    {
        Ok(MemoryTree {
            files,
            calls: Calls::new(failing),
            missings: 0,
        })
    }
}

// The first file at a path.
pub(crate) fn held<'a>(files: &'a [File], path: &str) -> Option<&'a File>
    ensures { MatchOption result (bytes_at files.now path.now ≡ None) (λ file. bytes_at files.now path.now ≡ Some file.now.bytes) }
{
    for file in files {
        if file.path.as_str() == path {
            return Some(file);
        }
    }
    None
}

// What stands behind the start of a path that begins so.
fn behind<'a>(start: &str, path: &'a str) -> Option<&'a str>
    ensures { option_copied result ≡ Files.behind start.now path.now }
{
    path.strip_prefix(start)
}

// The part of a path before its first slash.
fn first_part(path: &str) -> &str
    ensures { result.now ≡ Files.first_part path.now }
{
    match path.split_once('/') {
        Some((name, _)) => name,
        None => path,
    }
}

// The name of the direct entry in which a path lies, where the path begins so.
fn entry_of<'a>(start: &str, path: &'a str) -> Option<&'a str>
    ensures { option_copied result ≡ Files.entry_of start.now path.now }
{
    behind(start, path).map(|rest| first_part(rest))
}

// Whether a name is among them.
fn has_name(names: &[Name], name: &str) -> bool
    ensures { result ≡ list_any (λ other. bytes_eq other name.now) names.now }
{
    names.iter().any(|other| other.as_str() == name)
}

// Adds a name, unless it is there.
fn add(alloc: Global, names: &mut List<Name>, name: &str) -> Result<(), AllocError>
    ensures { OnOk result (names.new ≡ Files.added names.old (Some name.now)) }
{
    if !has_name(names.as_slice(), name) {
        names.push(Name::new(alloc, name)?)?;
    }
    Ok(())
}

// The names of the entries of all paths that begin so.
fn entries(alloc: Global, files: &[File], start: &str) -> Result<List<Name>, AllocError>
    ensures { IfOk result (λ names. names ≡ Files.entries_after [] start.now files.now) }
{
    let mut names = List::new(alloc);
    for file in files {
        if let Some(name) = entry_of(start, file.path.as_str()) {
            add(alloc, &mut names, name)?;
        }
    }
    Ok(names)
}

fn any_begins(files: &[File], start: &[u8]) -> bool
    ensures { result ≡ list_any (λ file. starts_with nat_eq file.path start.now) files.now }
{
    files
        .iter()
        .any(|file| file.path.as_bytes().starts_with(start))
}

// What stands at a path.
pub(crate) fn standing(
    alloc: Global,
    files: &[File],
    path: &str,
) -> Result<Option<Listing>, AllocError>
    ensures { IfOk result (λ found. MatchOption found (IsNowhere files.now path.now) (IsListing files.now path.now)) }
{
    if held(files, path).is_some() {
        return Ok(Some(Listing::File));
    }
    let start = format!(in alloc; "{path}/")?;
    if !any_begins(files, start.as_bytes()) {
        return Ok(None);
    }
    let names = entries(alloc, files, start.as_str())?;
    Ok(Some(Listing::Folder(names)))
}

// The first bytes of a text.
pub(crate) fn front(bytes: &[u8], limit: usize) -> &[u8]
    requires { limit < 2 ^ 32 }
    ensures { result.now ≡ take (limit + 1) bytes.now }
{
    if limit < bytes.len() {
        &bytes[..limit + 1]
    } else {
        bytes
    }
}

impl Tree for MemoryTree {
    ghost state = { tree_state };

    fn list(&mut self, alloc: Global, path: &str) -> Result<Listing, TreeFault>
        ensures call { IsTreeCall (tree_state self.old) (tree_state self.new) result }
        ensures answer { Lists path.now (tree_state self.old) result }
        ensures failing { IsErrOf result TreeFault.Failed ↔ IsTrue (next_fails self.old.calls) }
    {
        if self.calls.next() {
            return Err(TreeFault::Failed);
        }
        match standing(alloc, self.files.as_slice(), path) {
            Ok(Some(listing)) => Ok(listing),
            Ok(None) => {
                self.missings = self.missings.saturating_add(1);
                Err(TreeFault::Missing)
            }
            Err(_) => Err(TreeFault::Memory),
        }
    }

    fn read(&mut self, alloc: Global, path: &str, limit: usize) -> Result<List<u8>, TreeFault>
        requires { limit < 2 ^ 32 }
        ensures call { IsTreeCall (tree_state self.old) (tree_state self.new) result }
        ensures bound { IfOk result (λ bytes. length bytes ≤ limit + 1) }
        ensures answer { Reads limit path.now (tree_state self.old) result }
        ensures failing { IsErrOf result TreeFault.Failed ↔ IsTrue (next_fails self.old.calls) }
    {
        if self.calls.next() {
            return Err(TreeFault::Failed);
        }
        match held(self.files.as_slice(), path) {
            Some(file) => match List::from_slice(alloc, front(file.bytes.as_slice(), limit)) {
                Ok(bytes) => Ok(bytes),
                Err(_) => Err(TreeFault::Memory),
            },
            None => {
                self.missings = self.missings.saturating_add(1);
                Err(TreeFault::Missing)
            }
        }
    }

    fn faults(&self) -> u64 {
        self.calls.faults()
    }

    fn missings(&self) -> u64 {
        self.missings
    }
}
