//! The files of the outputs of a block.

ghost use Rattle.std.specs.Prelude.{◌≡◌, map, IfOk};
ghost use Rattle.sq_plan.specs.Asked.{Judges, each_judged};
ghost use Rattle.sq_run.specs.Project.{models_of, placed, output_files, written};

use crate::declare::models_of;
use sq_base::{Code, File, List, Name};
use sq_catalog::Catalogue;
use sq_go::{go_clash, go_files};
use sq_plan::{Halt, Output, Role, ending, join, refuse_file};
use sq_shown::{ModelDecl, QueryFile};
use std::alloc::{AllocError, Global};

/// A written file in the folder of its output.
fn placed(alloc: Global, folder: &str, file: File) -> Result<File, AllocError>
    ensures { IfOk result (λ put. put ≡ placed folder.now file) }
{
    let path = file.path.as_str();
    Ok(File {
        path: Name::from_string(format!(in alloc; "{folder}/{path}")?),
        bytes: file.bytes,
    })
}

/// Written files in the folder of their output.
fn all_placed(alloc: Global, folder: &str, files: List<File>) -> Result<List<File>, AllocError>
    ensures { IfOk result (λ put. put ≡ map (placed folder.now) files) }
{
    let mut put = List::new(alloc);
    for file in files.into_vec() {
        put.push(placed(alloc, folder, file)?)?;
    }
    Ok(put)
}

/// The files of an output.
fn output_files(
    alloc: Global,
    output: &Output,
    models: &[ModelDecl],
    queries: &[QueryFile],
) -> Result<List<File>, AllocError>
    ensures { IfOk result (λ files. files ≡ output_files output.now models.now queries.now) }
{
    let files = go_files(alloc, output.package_name.as_str(), models, queries)?;
    all_placed(alloc, output.path.as_str(), files)
}

/// The files of an output, unless two identifiers of one name space are equal.
fn written(
    alloc: Global,
    configuration: &str,
    models: &[ModelDecl],
    queries: &[QueryFile],
    output: &Output,
) -> Result<List<File>, Halt>
    ensures { Judges (written configuration.now models.now queries.now output.now) result }
{
    match go_clash(alloc, models, queries) {
        Ok(false) => match output_files(alloc, output, models, queries) {
            Ok(files) => Ok(files),
            Err(_) => Err(Halt::Memory),
        },
        Ok(true) => Err(refuse_file(alloc, Role::Configuration, Code::NotYet, configuration)),
        Err(_) => Err(Halt::Memory),
    }
}

/// The files of all outputs.
fn write_all(
    alloc: Global,
    configuration: &str,
    models: &[ModelDecl],
    queries: &[QueryFile],
    outputs: &[Output],
) -> Result<List<File>, Halt>
    ensures { Judges (each_judged (written configuration.now models.now queries.now) outputs.now) result }
{
    let mut so_far = Ok(List::new(alloc));
    for output in outputs {
        so_far = join(
            so_far,
            written(alloc, configuration, models, queries, output),
        )?;
    }
    ending(so_far)
}

/// The files of all outputs, for the tables of the catalogue and these queries.
pub fn write(
    alloc: Global,
    configuration: &str,
    catalogue: &Catalogue,
    queries: &[QueryFile],
    outputs: &[Output],
) -> Result<List<File>, Halt>
    ensures { Judges (each_judged (written configuration.now (models_of catalogue.now) queries.now) outputs.now) result }
{
    match models_of(alloc, catalogue.tables()) {
        Ok(models) => write_all(alloc, configuration, models.as_slice(), queries, outputs),
        Err(_) => Err(Halt::Memory),
    }
}
