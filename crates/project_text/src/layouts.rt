//! Go files, written.

use crate::given::{Given, Held, read_given};
use crate::seen::{bytes_of, show_bytes};
use case_files::Subject;
use sq_base::{List, Name, PgType, Scalar};
use sq_go::{go_clash, go_files};
use sq_shown::{Command, ModelDecl, Output, QueryFile, QuerySig, Signature};
use std::alloc::{AllocError, Global};
use type_text::type_named;

/// The files that are written for tables and queries. The first line is `$ write PACKAGE`, or `$ clash`
/// where it is asked whether two names are equal. The part `tables` has lines
/// `ID | SCHEMA | NAME | COLUMNS`, and the other parts are files of queries with lines
/// `NAME | ID OF A TABLE | COLUMNS | TEXT`, where the file's name ends at a space. A column is `NAME TYPE`, with a `!` where it is not null.
#[derive(Drop)]
pub struct Layouts {
    kept: String,
}

impl Layouts {
    pub fn new(alloc: Global) -> Layouts {
        Layouts {
            kept: String::new(alloc),
        }
    }
}

fn columns(alloc: Global, text: &str) -> Result<List<Output>, AllocError> {
    let mut columns = List::new(alloc);
    for part in text.split(", ") {
        let (name, of) = part.split_once(' ').unwrap_or((part, ""));
        let known = type_named(of.strip_suffix('!').unwrap_or(of));
        columns.push(Output {
            name: Name::new(alloc, name)?,
            of: known.unwrap_or(PgType {
                scalar: Scalar::Unknown,
                array: false,
            }),
            nullable: !of.ends_with('!'),
        })?;
    }
    Ok(columns)
}

fn table(alloc: Global, line: &str) -> Result<ModelDecl, AllocError> {
    let mut parts = line.split(" | ");
    Ok(ModelDecl {
        id: parts.next().unwrap_or("").parse::<u32>().unwrap_or(0),
        schema: Name::new(alloc, parts.next().unwrap_or(""))?,
        name: Name::new(alloc, parts.next().unwrap_or(""))?,
        columns: columns(alloc, parts.next().unwrap_or(""))?,
    })
}

fn query(alloc: Global, line: &str) -> Result<QuerySig, AllocError> {
    let mut parts = line.split(" | ");
    let name = Name::new(alloc, parts.next().unwrap_or(""))?;
    let model = parts.next().unwrap_or("").parse::<u32>().ok();
    let columns = columns(alloc, parts.next().unwrap_or(""))?;
    Ok(QuerySig {
        signature: Signature {
            name,
            command: Command::Many,
            text: bytes_of(alloc, parts.next().unwrap_or(""))?,
            params: List::new(alloc),
            columns,
        },
        model,
    })
}

fn query_file(alloc: Global, held: &Held) -> Result<QueryFile, AllocError> {
    let mut queries = List::new(alloc);
    for line in held.text.as_str().lines() {
        queries.push(query(alloc, line)?)?;
    }
    let source = held.path.as_str().split(' ').next().unwrap_or("");
    Ok(QueryFile {
        source: Name::new(alloc, source)?,
        queries,
    })
}

fn written(
    alloc: Global,
    head: &str,
    tables: &[ModelDecl],
    files: &[QueryFile],
) -> Result<String, AllocError> {
    let Some(package) = head.strip_prefix("$ write ") else {
        let clash = go_clash(alloc, tables, files)?;
        return format!(in alloc; "{clash}");
    };
    let mut text = String::new(alloc);
    let written = go_files(alloc, package, tables, files)?;
    for file in written.as_slice() {
        text.push_str("+++ ")?;
        text.push_str(file.path.as_str())?;
        text.push('\n')?;
        show_bytes(alloc, &mut text, file.bytes.as_slice())?;
    }
    Ok(text)
}

fn answered(alloc: Global, given: &Given) -> Result<String, AllocError> {
    let mut tables = Vec::new(alloc);
    let mut files = Vec::new(alloc);
    for held in &given.files {
        if held.path.as_str() != "tables" {
            files.push(query_file(alloc, held)?)?;
            continue;
        }
        for line in held.text.as_str().lines() {
            tables.push(table(alloc, line)?)?;
        }
    }
    let head = given.head.as_str();
    written(alloc, head, tables.as_slice(), files.as_slice())
}

impl Subject for Layouts {
    fn answer(&mut self, alloc: Global, input: &str) -> Result<String, AllocError> {
        let given = read_given(alloc, &mut self.kept, input)?;
        answered(alloc, &given)
    }
}
