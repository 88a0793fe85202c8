//! The outputs of a block, which have no options so far.

ghost use Rattle.std.specs.Prelude.{◌≡◌, ◌∷◌, [], IfOk};
ghost use Rattle.sq_shown.specs.Identifiers;
ghost use Rattle.sq_plan.specs.Asked.{Judges, each_judged};
ghost use Rattle.sq_plan.specs.Outputs.{output_by, output_of_entry};

use crate::Halt;
use crate::joining::{ending, join};
use crate::read::{Role, refuse_file};
use sq_base::{Code, List, Name};
use sq_config::Entry;
use sq_shown::package_name;
use std::alloc::{AllocError, Global};

/// Where the files of a project are written to.
#[derive(Debug, Drop)]
pub struct Output {
    /// The path of the folder, joined to the folder of the configuration.
    pub path: Name,
    /// The package of the files.
    pub package_name: Name,
}

/// The list of the one output of an entry.
fn one_output(alloc: Global, entry: &Entry) -> Result<List<Output>, AllocError>
    ensures { IfOk result (λ outputs. outputs ≡ record { path = entry.now.path; package_name = Identifiers.package_name entry.now.options.out } ∷ []) }
{
    let mut outputs = List::new(alloc);
    outputs.push(Output {
        path: entry.path.copy(alloc)?,
        package_name: package_name(alloc, entry.options.out.as_str())?,
    })?;
    Ok(outputs)
}

/// The output of an entry.
fn output_of_entry(alloc: Global, configuration: &str, entry: &Entry) -> Result<List<Output>, Halt>
    ensures { Judges (output_of_entry configuration.now entry.now) result }
{
    if !entry.options.pairs.as_slice().is_empty() {
        return Err(refuse_file(alloc, Role::Configuration, Code::NotYet, configuration));
    }
    match one_output(alloc, entry) {
        Ok(outputs) => Ok(outputs),
        Err(_) => Err(Halt::Memory),
    }
}

/// The outputs of entries.
pub fn outputs_of(
    alloc: Global,
    configuration: &str,
    entries: &[Entry],
) -> Result<List<Output>, Halt>
    ensures { Judges (each_judged (output_of_entry configuration.now) entries.now) result }
{
    let mut so_far = Ok(List::new(alloc));
    for entry in entries {
        so_far = join(so_far, output_of_entry(alloc, configuration, entry))?;
    }
    ending(so_far)
}
