ghost use Rattle.std.specs.Prelude.{◌≡◌, ◌≤◌, [], ◌∷◌, length, Ok, IfOk};
ghost use Rattle.sq_plan.specs.Asked.{Follows, Judges};
ghost use Rattle.sq_plan.specs.Reading;
ghost use Rattle.sq_plan.specs.Reading.{whole_file, listed};
ghost use Rattle.sq_plan.specs.Sources;
ghost use Rattle.sq_base.specs.declared.limits.TheConstants.{MOST_FILE_BYTES};
ghost use Rattle.sq_plan.specs.Halts.{IsHaltOf, IsRefusalOf};

use crate::entries::{Purpose, files_in};
use crate::{Finding, Halt, Spot};
use sq_base::limits::MOST_FILE_BYTES;
use sq_base::{Code, List, Listing, Name, Place, Refusal, Tree, TreeFault};
use std::alloc::{AllocError, Global};

/// What a file is to the project.
#[derive(Clone, Copy, Debug, PartialEq, Eq)]
pub enum Role {
    Configuration,
    Source,
}

/// What a fault of the tree at a path is to the run.
fn halt(alloc: Global, path: &str, fault: TreeFault) -> Halt
    ensures { IsHaltOf fault path.now result }
{
    match (Name::new(alloc, path), fault) {
        (Ok(path), TreeFault::Missing) => Halt::Missing(path),
        (Ok(path), TreeFault::Failed) => Halt::Failed(path),
        _ => Halt::Memory,
    }
}

/// The place where a file begins.
pub const START: Place = Place {
    file: 0,
    line: 1,
    column: 1,
};

/// The list of one finding.
fn one(alloc: Global, path: &str, spot: Spot, refusal: Refusal) -> Result<List<Finding>, AllocError>
    ensures { IfOk result (λ findings. findings ≡ record { path = path.now; spot = spot; refusal = refusal } ∷ []) }
{
    let mut findings = List::new(alloc);
    findings.push(Finding {
        path: Name::new(alloc, path)?,
        spot,
        refusal,
    })?;
    Ok(findings)
}

/// Ends the run with this one refusal.
pub fn refuse(alloc: Global, path: &str, spot: Spot, refusal: Refusal) -> Halt
    ensures { IsRefusalOf (record { path = path.now; spot = spot; refusal = refusal } ∷ []) result }
{
    match one(alloc, path, spot, refusal) {
        Ok(findings) => Halt::Refused(findings),
        Err(_) => Halt::Memory,
    }
}

/// Ends the run with a refusal of a file: a configuration as a whole, a source where it begins.
pub fn refuse_file(alloc: Global, role: Role, code: Code, path: &str) -> Halt
    ensures { IsRefusalOf (Reading.refused_file role code path.now ∷ []) result }
{
    let refusal = Refusal::at(alloc, code, START);
    match role {
        Role::Configuration => refuse(alloc, path, Spot::Whole, refusal),
        Role::Source => refuse(alloc, path, Spot::Placed, refusal),
    }
}

/// Reads the file at a path, whole.
pub fn read_whole<T: Tree>(
    alloc: Global,
    tree: &mut T,
    role: Role,
    path: &str,
) -> Result<List<u8>, Halt>
    ensures follows { Follows (whole_file role path.now) (T.state tree.old) (T.state tree.new) result }
    ensures within { IfOk result (λ bytes. length bytes ≤ MOST_FILE_BYTES) }
{
    match tree.read(alloc, path, MOST_FILE_BYTES) {
        Ok(bytes) if bytes.len() > MOST_FILE_BYTES => Err(refuse_file(
            alloc,
            role,
            Code::FileTooLong,
            path,
        )),
        Ok(bytes) => Ok(bytes),
        Err(fault) => Err(halt(alloc, path, fault)),
    }
}

/// The list of this one path.
fn one_path(alloc: Global, path: &str) -> Result<List<Name>, AllocError>
    ensures { IfOk result (λ paths. paths ≡ path.now ∷ []) }
{
    let mut paths = List::new(alloc);
    paths.push(Name::new(alloc, path)?)?;
    Ok(paths)
}

/// The file that is found at a path.
fn found_file(alloc: Global, path: &str) -> Result<List<Name>, Halt>
    ensures { Judges (Ok (path.now ∷ [])) result }
{
    match one_path(alloc, path) {
        Ok(paths) => Ok(paths),
        Err(_) => Err(Halt::Memory),
    }
}

/// The files that are found in a folder with these entries.
fn found_files(
    alloc: Global,
    purpose: Purpose,
    folder: &str,
    names: List<Name>,
) -> Result<List<Name>, Halt>
    ensures { Judges (Ok (Sources.files_in purpose folder.now names)) result }
{
    match files_in(alloc, purpose, folder, names) {
        Ok(paths) => Ok(paths),
        Err(_) => Err(Halt::Memory),
    }
}

/// Lists a path: a file stands for itself, and a folder for its entries that are read.
pub fn list_path<T: Tree>(
    alloc: Global,
    tree: &mut T,
    purpose: Purpose,
    path: &str,
) -> Result<List<Name>, Halt>
    ensures { Follows (listed purpose path.now) (T.state tree.old) (T.state tree.new) result }
{
    match tree.list(alloc, path) {
        Ok(Listing::File) => found_file(alloc, path),
        Ok(Listing::Folder(names)) => found_files(alloc, purpose, path, names),
        Err(fault) => Err(halt(alloc, path, fault)),
    }
}
