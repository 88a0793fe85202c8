//! The files of a package.

ghost use Rattle.std.specs.Prelude.{◌≡◌, ◌++◌, ◌∷◌, IfOk, OnOk, if◌then◌else◌, [], codes};
ghost use Rattle.sq_shown.specs.Layout.{file_text, layout, models_file, query_file, query_files, query_path};

use crate::body::{Body, model_body, query_body};
use crate::database::db_file;
use crate::line::{file_text, push_text};
use sq_base::{File, List, Name};
use sq_shown::{ModelDecl, QueryFile};
use std::alloc::{AllocError, Global};

// The text of models.go.
fn models_text(alloc: Global, package_name: &str, body: &Body) -> Result<List<u8>, AllocError>
    ensures { IfOk result (λ text. text ≡ file_text package_name.now (if body.now.sql then codes "database/sql" ∷ [] else []) body.now.declarations) }
{
    if body.sql {
        file_text(
            alloc,
            package_name,
            &["database/sql"],
            body.declarations.as_slice(),
        )
    } else {
        file_text(alloc, package_name, &[], body.declarations.as_slice())
    }
}

// The file models.go.
#[tactic(auto, unfolding(sq_shown::specs::Layout::models_file))]
fn models_file(alloc: Global, package_name: &str, models: &[ModelDecl]) -> Result<File, AllocError>
    ensures { IfOk result (λ file. file ≡ models_file package_name.now models.now) }
{
    let body = model_body(alloc, models)?;
    Ok(File {
        path: Name::new(alloc, "models.go")?,
        bytes: models_text(alloc, package_name, &body)?,
    })
}

// The text of a file of queries.
fn queries_text(alloc: Global, package_name: &str, body: &Body) -> Result<List<u8>, AllocError>
    ensures { IfOk result (λ text. text ≡ file_text package_name.now (codes "context" ∷ (if body.now.sql then codes "database/sql" ∷ [] else [])) body.now.declarations) }
{
    if body.sql {
        file_text(
            alloc,
            package_name,
            &["context", "database/sql"],
            body.declarations.as_slice(),
        )
    } else {
        file_text(
            alloc,
            package_name,
            &["context"],
            body.declarations.as_slice(),
        )
    }
}

/// The name of the file for a source.
pub fn query_path(alloc: Global, source: &Name) -> Result<Name, AllocError>
    ensures { IfOk result (λ path. path ≡ query_path source.now) }
{
    let mut path = String::from_str(alloc, source.as_str())?;
    path.push_str(".go")?;
    Ok(Name::from_string(path))
}

// The file of the queries of one source.
#[tactic(auto, unfolding(sq_shown::specs::Layout::query_file))]
fn query_file(
    alloc: Global,
    package_name: &str,
    models: &[ModelDecl],
    file: &QueryFile,
) -> Result<File, AllocError>
    ensures { IfOk result (λ written. written ≡ query_file package_name.now models.now file.now) }
{
    let body = query_body(alloc, models, file.queries.as_slice())?;
    Ok(File {
        path: query_path(alloc, &file.source)?,
        bytes: queries_text(alloc, package_name, &body)?,
    })
}

// Appends the files of queries.
fn push_query_files(
    alloc: Global,
    put: &mut List<File>,
    package_name: &str,
    models: &[ModelDecl],
    files: &[QueryFile],
) -> Result<(), AllocError>
    ensures { OnOk result (put.new ≡ put.old ++ query_files package_name.now models.now files.now) }
{
    for file in files {
        put.push(query_file(alloc, package_name, models, file)?)?;
    }
    Ok(())
}

/// The files of a package: db.go, models.go, and the files of the queries.
pub fn go_files(
    alloc: Global,
    package_name: &str,
    models: &[ModelDecl],
    files: &[QueryFile],
) -> Result<List<File>, AllocError>
    ensures { IfOk result (λ put. put ≡ layout package_name.now models.now files.now) }
{
    let mut put = List::new(alloc);
    put.push(db_file(alloc, package_name)?)?;
    put.push(models_file(alloc, package_name, models)?)?;
    push_query_files(alloc, &mut put, package_name, models, files)?;
    Ok(put)
}
