//! Whether two identifiers of one name space are equal.

ghost use Rattle.std.specs.Prelude.{◌≡◌, ◌++◌, ◌∷◌, [], IfOk, OnOk, map, flat_map};
ghost use Rattle.sq_shown.specs.Layout.{model_name, queries_of, query_path};
ghost use Rattle.sq_shown.specs.Names.{clash, file_names, has_equal, methods, query_row, query_top, top_level};

use crate::files::query_path;
use crate::row::{has_own_struct, model_of, row_name};
use sq_base::List;
use sq_shown::{ModelDecl, QueryFile, QuerySig, constant_name, model_identifier, shown};
use std::alloc::{AllocError, Global};
use std::collections::BTreeSet;

// Whether two names are equal.
fn has_equal(alloc: Global, names: &[List<u8>]) -> Result<bool, AllocError>
    ensures { IfOk result (λ found. found ≡ has_equal names.now) }
{
    let mut seen = BTreeSet::new(alloc);
    for name in names {
        if !seen.insert(name.as_slice())? {
            return Ok(true);
        }
    }
    Ok(false)
}

// Appends a name.
fn push_name(alloc: Global, names: &mut List<List<u8>>, name: &str) -> Result<(), AllocError>
    ensures { OnOk result (names.new ≡ names.old ++ name.now ∷ []) }
{
    names.push(List::from_slice(alloc, name.as_bytes())?)
}

// Appends the identifiers of models.
fn push_model_names(
    alloc: Global,
    names: &mut List<List<u8>>,
    models: &[ModelDecl],
) -> Result<(), AllocError>
    ensures { OnOk result (names.new ≡ names.old ++ map model_name models.now) }
{
    for model in models {
        let name = model_identifier(alloc, &model.schema, &model.name)?;
        push_name(alloc, names, name.as_str())?;
    }
    Ok(())
}

// Appends the struct of a query's own rows, where it has one.
fn push_query_row(
    alloc: Global,
    names: &mut List<List<u8>>,
    models: &[ModelDecl],
    query: &QuerySig,
) -> Result<(), AllocError>
    ensures { OnOk result (names.new ≡ names.old ++ query_row models.now query.now) }
{
    let model = model_of(alloc, models, query.model)?;
    let shown = shown(alloc, &query.signature)?;
    if !has_own_struct(&model, shown.columns.as_slice()) {
        return Ok(());
    }
    names.push(row_name(alloc, &shown)?)
}

// Appends what a query declares at the top level.
fn push_query_top(
    alloc: Global,
    names: &mut List<List<u8>>,
    models: &[ModelDecl],
    query: &QuerySig,
) -> Result<(), AllocError>
    ensures { OnOk result (names.new ≡ names.old ++ query_top models.now query.now) }
{
    names.push(constant_name(alloc, &query.signature.name)?)?;
    push_query_row(alloc, names, models, query)
}

// Appends what the queries of a file declare at the top level.
fn push_file_top(
    alloc: Global,
    names: &mut List<List<u8>>,
    models: &[ModelDecl],
    queries: &[QuerySig],
) -> Result<(), AllocError>
    ensures { OnOk result (names.new ≡ names.old ++ flat_map (query_top models.now) queries.now) }
{
    for query in queries {
        push_query_top(alloc, names, models, query)?;
    }
    Ok(())
}

// Appends what the queries of all files declare at the top level.
fn push_queries_top(
    alloc: Global,
    names: &mut List<List<u8>>,
    models: &[ModelDecl],
    files: &[QueryFile],
) -> Result<(), AllocError>
    ensures { OnOk result (names.new ≡ names.old ++ flat_map (query_top models.now) (queries_of files.now)) }
{
    for file in files {
        push_file_top(alloc, names, models, file.queries.as_slice())?;
    }
    Ok(())
}

// What stands at the top level.
fn top_level(
    alloc: Global,
    models: &[ModelDecl],
    files: &[QueryFile],
) -> Result<List<List<u8>>, AllocError>
    ensures { IfOk result (λ names. names ≡ top_level models.now (queries_of files.now)) }
{
    let mut names = List::new(alloc);
    push_name(alloc, &mut names, "DBTX")?;
    push_name(alloc, &mut names, "New")?;
    push_name(alloc, &mut names, "Queries")?;
    push_model_names(alloc, &mut names, models)?;
    push_queries_top(alloc, &mut names, models, files)?;
    Ok(names)
}

// Appends the names of queries.
fn push_query_names(
    alloc: Global,
    names: &mut List<List<u8>>,
    queries: &[QuerySig],
) -> Result<(), AllocError>
    ensures { OnOk result (names.new ≡ names.old ++ map (λ query. query.signature.name) queries.now) }
{
    for query in queries {
        push_name(alloc, names, query.signature.name.as_str())?;
    }
    Ok(())
}

// Appends the names of the queries of files.
fn push_all_query_names(
    alloc: Global,
    names: &mut List<List<u8>>,
    files: &[QueryFile],
) -> Result<(), AllocError>
    ensures { OnOk result (names.new ≡ names.old ++ map (λ query. query.signature.name) (queries_of files.now)) }
{
    for file in files {
        push_query_names(alloc, names, file.queries.as_slice())?;
    }
    Ok(())
}

// The methods.
fn methods(alloc: Global, files: &[QueryFile]) -> Result<List<List<u8>>, AllocError>
    ensures { IfOk result (λ names. names ≡ methods (queries_of files.now)) }
{
    let mut names = List::new(alloc);
    push_name(alloc, &mut names, "WithTx")?;
    push_all_query_names(alloc, &mut names, files)?;
    Ok(names)
}

// Appends the names of the files of queries.
fn push_paths(
    alloc: Global,
    names: &mut List<List<u8>>,
    files: &[QueryFile],
) -> Result<(), AllocError>
    ensures { OnOk result (names.new ≡ names.old ++ map (λ file. query_path file.source) files.now) }
{
    for file in files {
        let path = query_path(alloc, &file.source)?;
        push_name(alloc, names, path.as_str())?;
    }
    Ok(())
}

// The names of the files.
fn file_names(alloc: Global, files: &[QueryFile]) -> Result<List<List<u8>>, AllocError>
    ensures { IfOk result (λ names. names ≡ file_names files.now) }
{
    let mut names = List::new(alloc);
    push_name(alloc, &mut names, "db.go")?;
    push_name(alloc, &mut names, "models.go")?;
    push_paths(alloc, &mut names, files)?;
    Ok(names)
}

/// Whether two identifiers of one name space of the package are equal.
pub fn go_clash(
    alloc: Global,
    models: &[ModelDecl],
    files: &[QueryFile],
) -> Result<bool, AllocError>
    ensures { IfOk result (λ found. found ≡ clash models.now files.now) }
{
    let top = top_level(alloc, models, files)?;
    let methods = methods(alloc, files)?;
    let paths = file_names(alloc, files)?;
    Ok(
        has_equal(alloc, top.as_slice())?
            || has_equal(alloc, methods.as_slice())?
            || has_equal(alloc, paths.as_slice())?,
    )
}
