//! The file db.go.

ghost use Rattle.std.specs.Prelude.{◌≡◌, IfOk};
ghost use Rattle.sq_shown.specs.Layout.{db_declarations, db_file, db_imports, file_text};

use crate::line::file_text;
use sq_base::{File, List, Name};
use std::alloc::{AllocError, Global};

/// What a connection and a transaction both have.
const DBTX: &str = "type DBTX interface {\n\
    \tExecContext(context.Context, string, ...interface{}) (sql.Result, error)\n\
    \tPrepareContext(context.Context, string) (*sql.Stmt, error)\n\
    \tQueryContext(context.Context, string, ...interface{}) (*sql.Rows, error)\n\
    \tQueryRowContext(context.Context, string, ...interface{}) *sql.Row\n\
    }\n";

/// The queries over a connection.
const NEW: &str = "func New(db DBTX) *Queries {\n\
    \treturn &Queries{db: db}\n\
    }\n";

/// The struct whose methods the queries are.
const QUERIES: &str = "type Queries struct {\n\
    \tdb DBTX\n\
    }\n";

/// The queries within a transaction.
const WITH_TX: &str = "func (q *Queries) WithTx(tx *sql.Tx) *Queries {\n\
    \treturn &Queries{db: tx}\n\
    }\n";

// The declarations of db.go.
#[tactic(auto, unfolding(sq_shown::specs::Layout::db_declarations))]
fn db_declarations(alloc: Global) -> Result<List<List<u8>>, AllocError>
    ensures { IfOk result (λ declarations. declarations ≡ db_declarations) }
{
    let mut declarations = List::new(alloc);
    declarations.push(List::from_slice(alloc, DBTX.as_bytes())?)?;
    declarations.push(List::from_slice(alloc, NEW.as_bytes())?)?;
    declarations.push(List::from_slice(alloc, QUERIES.as_bytes())?)?;
    declarations.push(List::from_slice(alloc, WITH_TX.as_bytes())?)?;
    Ok(declarations)
}

// The text of db.go with these declarations.
fn db_text(
    alloc: Global,
    package_name: &str,
    declarations: &[List<u8>],
) -> Result<List<u8>, AllocError>
    ensures { IfOk result (λ text. text ≡ file_text package_name.now db_imports declarations.now) }
{
    file_text(
        alloc,
        package_name,
        &["context", "database/sql"],
        declarations,
    )
}

/// The file db.go.
#[tactic(auto, unfolding(sq_shown::specs::Layout::db_file))]
pub fn db_file(alloc: Global, package_name: &str) -> Result<File, AllocError>
    ensures { IfOk result (λ file. file ≡ db_file package_name.now) }
{
    let declarations = db_declarations(alloc)?;
    Ok(File {
        path: Name::new(alloc, "db.go")?,
        bytes: db_text(alloc, package_name, declarations.as_slice())?,
    })
}
