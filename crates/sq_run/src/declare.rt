//! The declarations that a writer is given.

ghost use Rattle.std.specs.Prelude.{◌≡◌, map, IfOk};
ghost use Rattle.sq_base.specs.Answers.{Gives as Answers, IsFaultOf};
ghost use Rattle.sq_plan.specs.Asked.{Follows};
ghost use Rattle.sq_run.specs.Judged.{judged, output_of};
ghost use Rattle.sq_run.specs.Project;
ghost use Rattle.sq_run.specs.Parsed.{statement_check};
ghost use Rattle.sq_run.specs.Project.{after_query, declared, declared_by, file_name, judged_query, judged_read, judged_statement, not_built, queries_in, queries_read, with_file};
ghost use Rattle.sq_run.specs.Query.{named_statement, query_in};

use crate::judge::{Judged, judge, output_of};
use crate::query::{Query, check_statement, named_statement, read_query};
use crate::sources::{Made, SourceFile, read_sources};
use sq_base::{Code, Fault, List, Name, NoForm, Refusal, Tree};
use sq_catalog::{Catalogue, Table};
use sq_plan::{Finding, Halt, Purpose, START, SoFar, list_refusal};
use sq_shown::{Command, ModelDecl, Output as Column, QueryFile, QuerySig, Signature};
use sq_syntax::Token;
use std::alloc::{AllocError, Global};

/// The columns of a table's model.
fn model_columns(alloc: Global, table: &Table) -> Result<List<Column>, AllocError>
    ensures { IfOk result (λ columns. columns ≡ map output_of table.now.columns) }
{
    let mut columns = List::new(alloc);
    for column in table.columns.as_slice() {
        columns.push(output_of(alloc, column)?)?;
    }
    Ok(columns)
}

/// The declaration of a table's model.
fn model_of(alloc: Global, table: &Table) -> Result<ModelDecl, AllocError>
    ensures { IfOk result (λ model. model ≡ Project.model_of table.now) }
{
    Ok(ModelDecl {
        id: table.id,
        schema: table.schema.copy(alloc)?,
        name: table.name.copy(alloc)?,
        columns: model_columns(alloc, table)?,
    })
}

/// The declarations of the models of all tables.
pub fn models_of(alloc: Global, tables: &[Table]) -> Result<List<ModelDecl>, AllocError>
    ensures { IfOk result (λ models. models ≡ map Project.model_of tables.now) }
{
    let mut models = List::new(alloc);
    for table in tables {
        models.push(model_of(alloc, table)?)?;
    }
    Ok(models)
}

/// The name of the file at a path: what stands behind its last slash.
fn file_name(path: &str) -> &str
    ensures { result.now ≡ file_name path.now }
{
    match path.rfind('/') {
        Some(last) => path.split_at(last + 1).1,
        None => path,
    }
}

/// The declaration of a judged query.
fn declared(alloc: Global, query: Query, judged: Judged) -> QuerySig
    ensures { result ≡ declared query judged }
{
    QuerySig {
        signature: Signature {
            name: query.name,
            command: Command::Many,
            text: query.text,
            params: List::new(alloc),
            columns: judged.columns,
        },
        model: judged.model,
    }
}

/// Judges a query over the catalogue.
fn judge_query(alloc: Global, catalogue: &Catalogue, query: Query) -> Result<QuerySig, Fault>
    ensures { Answers (declared_by query (judged catalogue.now query.select)) result }
{
    let judged = judge(alloc, catalogue, &query.select)?;
    Ok(declared(alloc, query, judged))
}

/// Refuses a form that isn't built yet, where its file begins.
fn not_built(alloc: Global) -> Fault
    ensures { IsFaultOf not_built result }
{
    Fault::Refused(Refusal::at(alloc, Code::NotYet, START))
}

/// Judges the query that a named statement asks, over the catalogue.
fn judge_select(
    alloc: Global,
    catalogue: &Catalogue,
    name: Name,
    statement: &[Token],
) -> Result<QuerySig, Fault>
    ensures { Answers (judged_query catalogue.now (query_in name statement.now)) result }
{
    match read_query(alloc, name, statement) {
        Ok(query) => judge_query(alloc, catalogue, query),
        Err(NoForm::Absent) => Err(not_built(alloc)),
        Err(NoForm::Memory) => Err(Fault::Memory),
    }
}

/// Judges a named statement over the catalogue, where it is read.
fn judge_read(
    alloc: Global,
    catalogue: &Catalogue,
    name: Name,
    statement: &[Token],
) -> Result<QuerySig, Fault>
    ensures { Answers (judged_read catalogue.now (query_in name statement.now) (statement_check statement.now)) result }
{
    check_statement(alloc, statement)?;
    judge_select(alloc, catalogue, name, statement)
}

/// Judges the one annotated statement of a file over the catalogue.
fn judge_statement(
    alloc: Global,
    catalogue: &Catalogue,
    tokens: &[Token],
) -> Result<QuerySig, Fault>
    ensures { Answers (judged_statement catalogue.now (named_statement tokens.now)) result }
{
    match named_statement(alloc, tokens) {
        Ok((name, statement)) => judge_read(alloc, catalogue, name, statement),
        Err(NoForm::Absent) => Err(not_built(alloc)),
        Err(NoForm::Memory) => Err(Fault::Memory),
    }
}

/// Adds the query of the file at a path, or lists its refusal.
fn add_query(
    alloc: Global,
    catalogue: &Catalogue,
    done: &mut SoFar<List<QuerySig>>,
    path: &str,
    tokens: &[Token],
) -> Result<(), AllocError>
    ensures { IfOk result (λ _. done.new ≡ after_query catalogue.now path.now done.old (named_statement tokens.now)) }
{
    match judge_statement(alloc, catalogue, tokens) {
        Ok(query) => done.made.push(query),
        Err(Fault::Refused(refusal)) => list_refusal(alloc, &mut done.found, path, refusal),
        Err(Fault::Memory) => Err(AllocError),
    }
}

/// The queries of a file, after what was found before.
fn queries_in(
    alloc: Global,
    catalogue: &Catalogue,
    file: &SourceFile,
    found: List<Finding>,
) -> Result<SoFar<List<QuerySig>>, AllocError>
    ensures { IfOk result (λ done. done ≡ queries_in catalogue.now file.now found) }
{
    let mut done = SoFar {
        made: List::new(alloc),
        found,
    };
    add_query(
        alloc,
        catalogue,
        &mut done,
        file.path.as_str(),
        file.tokens.as_slice(),
    )?;
    Ok(done)
}

/// A file with its queries, behind the files before it.
fn with_file(
    alloc: Global,
    files: List<QueryFile>,
    path: &str,
    own: SoFar<List<QuerySig>>,
) -> Result<SoFar<List<QueryFile>>, AllocError>
    ensures { IfOk result (λ done. done ≡ with_file files path.now own) }
{
    let SoFar { made, found } = own;
    let mut files = files;
    files.push(QueryFile {
        source: Name::new(alloc, file_name(path))?,
        queries: made,
    })?;
    Ok(SoFar { made: files, found })
}

/// The files of queries that are judged so far, over a catalogue.
#[derive(Drop)]
struct QueryFiles<'a> {
    catalogue: &'a Catalogue,
    done: SoFar<List<QueryFile>>,
}

impl Made for QueryFiles<'_> {
    ghost use Rattle.std.specs.Prelude.{List};
    ghost use Rattle.sq_catalog.specs.Contents.{Contents};
    ghost use Rattle.sq_plan.specs.declared.so_far.SoFar.{SoFar as Done};
    ghost use Rattle.sq_run.specs.Project.{after_queries};
    ghost use Rattle.sq_shown.specs.declared.declaration.QueryFile.{QueryFile as File};

    ghost Value = { Contents × Done (List File) };

    ghost value = { λ all. (all.catalogue.now, all.done) };

    ghost after = { λ all file. (all.0, after_queries all.0 all.1 file) };

    fn with(self, alloc: Global, file: SourceFile) -> Result<Self, AllocError> {
        let QueryFiles { catalogue, done } = self;
        let SoFar { made, found } = done;
        let own = queries_in(alloc, catalogue, &file, found)?;
        let done = with_file(alloc, made, file.path.as_str(), own)?;
        Ok(QueryFiles { catalogue, done })
    }
}

/// Reads files of queries and judges them over the catalogue.
pub fn read_queries<T: Tree>(
    alloc: Global,
    tree: &mut T,
    catalogue: &Catalogue,
    paths: &[Name],
) -> Result<List<QueryFile>, Halt>
    ensures { Follows (queries_read catalogue.now paths.now) (T.state tree.old) (T.state tree.new) result }
{
    let start = QueryFiles {
        catalogue,
        done: SoFar {
            made: List::new(alloc),
            found: List::new(alloc),
        },
    };
    let all = read_sources(alloc, tree, Purpose::Queries, paths, start)?;
    let QueryFiles { catalogue: _, done } = all;
    done.unless_found()
}
