ghost use Rattle.std.specs.Prelude.{◌≡◌, ◌<◌, ◌≤◌, ◌+◌, [], codes, length, Ok, Some, None, IfOk, unwrap_or};
ghost use Rattle.sq_reader.specs.Gives.{Gives};
ghost use Rattle.sq_reader.specs.Parts.{many, not_none, run_at};
ghost use Rattle.sq_reader.specs.Forms.{package_at, import_at, import_block_at, imports_at, field_at, struct_at, row_at, constant_at, target_at, targets_at, method_at};
ghost use Rattle.sq_reader.specs.Forms;
ghost use Rattle.sq_reader.specs.declared.parts.Class.TheVariants.{Word, Spelling, Path, Newline, Bracket};

use crate::parts::{Class, NoPart, before, behind, raw_of, run_of};
use sq_base::{List, Name};
use sq_shown::{Command, ShownField};
use std::alloc::{AllocError, Global};

/// A struct: its name and its fields.
#[derive(Drop)]
pub(crate) struct Struct {
    pub name: Name,
    pub fields: List<ShownField>,
}

/// The constant of a query: its name, the query's name and command, and the query's text.
#[derive(Drop)]
pub(crate) struct Constant {
    pub name: Name,
    pub query: Name,
    pub command: Command,
    pub text: List<u8>,
}

/// Where a method puts the columns of a row.
#[derive(Drop)]
pub(crate) enum Targets {
    /// The only column is the whole row.
    Whole,
    /// Each column is a field of the row's struct.
    Fields(List<Name>),
}

/// The method of a query: the type of its rows, the constant of its text, and its targets.
#[derive(Drop)]
pub(crate) struct Method {
    pub result: Name,
    pub constant: Name,
    pub targets: Targets,
}

/// The name or the type at the front as a text of its own, and the rest.
pub(crate) fn name_of<'a>(
    alloc: Global,
    text: &'a [u8],
    class: Class,
) -> Result<(Name, &'a [u8]), NoPart>
    ensures shorter { IfOk result (λ x. length x.1.now < length text.now) }
    ensures part { Gives (λ x. (x.0, x.1.now)) result (run_at class text.now) }
{
    let (bytes, rest) = run_of(text, class)?;
    match std::str::from_utf8(bytes) {
        Ok(name) => Ok((Name::new(alloc, name)?, rest)),
        Err(_) => Err(NoPart::Absent),
    }
}

/// The rest behind the line of the package.
#[tactic(auto, unfolding(crate::specs::Forms::package_at))]
pub(crate) fn package_of(text: &[u8]) -> Result<&[u8], NoPart>
    ensures { Gives (λ rest. rest.now) result (package_at text.now) }
{
    let rest = behind(text, b"\npackage ")?;
    let (_name, rest) = run_of(rest, Class::Word)?;
    behind(rest, b"\n")
}

/// The rest behind an empty line, where one stands at the front.
fn after_gap(text: &[u8]) -> &[u8]
    ensures shorter { length result.now ≤ length text.now }
    ensures rest { result.now ≡ Forms.after_gap text.now }
{
    match text.strip_prefix(b"\n") {
        Some(rest) => rest,
        None => text,
    }
}

/// The path of an import.
#[tactic(auto, unfolding(crate::specs::Forms::import_at))]
fn import_of<'a>(alloc: Global, text: &'a [u8]) -> Result<(List<u8>, &'a [u8]), NoPart>
    ensures shorter { IfOk result (λ x. length x.1.now < length text.now) }
    ensures part { Gives (λ x. (x.0, x.1.now)) result (import_at text.now) }
{
    let rest = behind(after_gap(text), b"\t\"")?;
    let (path, rest) = run_of(rest, Class::Path)?;
    let rest = behind(rest, b"\"\n")?;
    Ok((List::from_slice(alloc, path)?, rest))
}

/// The paths of the imports at the front.
fn import_lines_of<'a>(alloc: Global, text: &'a [u8]) -> Result<(List<List<u8>>, &'a [u8]), NoPart>
    ensures { Gives (λ x. (x.0, x.1.now)) result (Some (many import_at text.now)) }
{
    let mut paths = List::new(alloc);
    let mut rest = text;
    loop {
        match import_of(alloc, rest) {
            Ok((path, later)) => {
                paths.push(path)?;
                rest = later;
            }
            Err(NoPart::Absent) => return Ok((paths, rest)),
            Err(NoPart::Memory) => return Err(NoPart::Memory),
        }
    }
}

/// The paths of the imports of a file.
#[tactic(auto, unfolding(crate::specs::Forms::import_block_at))]
fn import_block_of<'a>(alloc: Global, text: &'a [u8]) -> Result<(List<List<u8>>, &'a [u8]), NoPart>
    ensures { Gives (λ x. (x.0, x.1.now)) result (import_block_at text.now) }
{
    let rest = behind(text, b"\nimport (\n")?;
    let (paths, rest) = import_lines_of(alloc, rest)?;
    if paths.len() == 0 {
        return Err(NoPart::Absent);
    }
    let rest = behind(rest, b")\n")?;
    Ok((paths, rest))
}

/// The paths of the imports of a file, where it has any.
pub(crate) fn imports_of<'a>(
    alloc: Global,
    text: &'a [u8],
) -> Result<(List<List<u8>>, &'a [u8]), AllocError>
    ensures { IfOk result (λ x. (x.0, x.1.now) ≡ imports_at text.now) }
{
    match import_block_of(alloc, text) {
        Ok(found) => Ok(found),
        Err(NoPart::Absent) => Ok((List::new(alloc), text)),
        Err(NoPart::Memory) => Err(AllocError),
    }
}

/// A field of a struct.
#[tactic(auto, unfolding(crate::specs::Forms::field_at))]
fn field_of<'a>(alloc: Global, text: &'a [u8]) -> Result<(ShownField, &'a [u8]), NoPart>
    ensures shorter { IfOk result (λ x. length x.1.now < length text.now) }
    ensures part { Gives (λ x. (x.0, x.1.now)) result (field_at text.now) }
{
    let rest = behind(text, b"\t")?;
    let (name, rest) = name_of(alloc, rest, Class::Word)?;
    let rest = behind(rest, b" ")?;
    let (of, rest) = name_of(alloc, rest, Class::Spelling)?;
    let rest = behind(rest, b"\n")?;
    Ok((ShownField { name, of }, rest))
}

/// The fields at the front.
fn fields_of<'a>(alloc: Global, text: &'a [u8]) -> Result<(List<ShownField>, &'a [u8]), NoPart>
    ensures within { IfOk result (λ x. length x.1.now ≤ length text.now) }
    ensures part { Gives (λ x. (x.0, x.1.now)) result (Some (many field_at text.now)) }
{
    let mut fields = List::new(alloc);
    let mut rest = text;
    loop {
        match field_of(alloc, rest) {
            Ok((field, later)) => {
                fields.push(field)?;
                rest = later;
            }
            Err(NoPart::Absent) => return Ok((fields, rest)),
            Err(NoPart::Memory) => return Err(NoPart::Memory),
        }
    }
}

/// A struct.
#[tactic(auto, unfolding(crate::specs::Forms::struct_at))]
pub(crate) fn struct_of<'a>(alloc: Global, text: &'a [u8]) -> Result<(Struct, &'a [u8]), NoPart>
    ensures shorter { IfOk result (λ x. length x.1.now < length text.now) }
    ensures part { Gives (λ x. (x.0, x.1.now)) result (struct_at text.now) }
{
    let rest = behind(text, b"\ntype ")?;
    let (name, rest) = name_of(alloc, rest, Class::Word)?;
    let rest = behind(rest, b" struct {\n")?;
    let (fields, rest) = fields_of(alloc, rest)?;
    let rest = behind(rest, b"}\n")?;
    Ok((Struct { name, fields }, rest))
}

/// Whether this is the name of the struct of a query's rows.
fn is_row_of(query: &[u8], name: &[u8]) -> bool
    ensures { result ≡ Forms.is_row_of query.now name.now }
{
    match name.strip_suffix(b"Row") {
        Some(front) => front == query,
        None => false,
    }
}

/// The struct of a query's rows, where it stands.
pub(crate) fn row_of<'a>(
    alloc: Global,
    text: &'a [u8],
    query: &[u8],
) -> Result<(Option<Struct>, &'a [u8]), AllocError>
    ensures within { IfOk result (λ x. length x.1.now ≤ length text.now) }
    ensures row { IfOk result (λ x. (x.0, x.1.now) ≡ row_at query.now text.now) }
{
    match struct_of(alloc, text) {
        Ok((found, rest)) => {
            if is_row_of(query, found.name.as_bytes()) {
                Ok((Some(found), rest))
            } else {
                Ok((None, text))
            }
        }
        Err(NoPart::Absent) => Ok((None, text)),
        Err(NoPart::Memory) => Err(AllocError),
    }
}

/// The constant of a query.
#[tactic(auto, unfolding(crate::specs::Forms::constant_at))]
pub(crate) fn constant_of<'a>(alloc: Global, text: &'a [u8]) -> Result<(Constant, &'a [u8]), NoPart>
    ensures shorter { IfOk result (λ x. length x.1.now < length text.now) }
    ensures part { Gives (λ x. (x.0, x.1.now)) result (constant_at text.now) }
{
    let rest = behind(text, b"\nconst ")?;
    let (name, rest) = name_of(alloc, rest, Class::Word)?;
    let rest = behind(rest, b" = `-- name: ")?;
    let (query, rest) = name_of(alloc, rest, Class::Word)?;
    let rest = behind(rest, b" :many\n")?;
    let (raw, rest) = raw_of(alloc, rest)?;
    let text = List::from_slice(alloc, before(raw.as_slice(), b"\n")?)?;
    let rest = behind(rest, b"\n")?;
    let command = Command::Many;
    Ok((
        Constant {
            name,
            query,
            command,
            text,
        },
        rest,
    ))
}

/// The target of a field.
#[tactic(auto, unfolding(crate::specs::Forms::target_at))]
fn target_of<'a>(alloc: Global, text: &'a [u8]) -> Result<(Name, &'a [u8]), NoPart>
    ensures shorter { IfOk result (λ x. length x.1.now < length text.now) }
    ensures part { Gives (λ x. (x.0, x.1.now)) result (target_at text.now) }
{
    let rest = behind(text, b"\t\t\t&i.")?;
    let (field, rest) = name_of(alloc, rest, Class::Word)?;
    let rest = behind(rest, b",\n")?;
    Ok((field, rest))
}

/// The targets of fields at the front.
fn target_lines_of<'a>(alloc: Global, text: &'a [u8]) -> Result<(List<Name>, &'a [u8]), NoPart>
    ensures within { IfOk result (λ x. length x.1.now ≤ length text.now) }
    ensures part { Gives (λ x. (x.0, x.1.now)) result (Some (many target_at text.now)) }
{
    let mut names = List::new(alloc);
    let mut rest = text;
    loop {
        match target_of(alloc, rest) {
            Ok((name, later)) => {
                names.push(name)?;
                rest = later;
            }
            Err(NoPart::Absent) => return Ok((names, rest)),
            Err(NoPart::Memory) => return Err(NoPart::Memory),
        }
    }
}

/// The targets of a method.
fn targets_of<'a>(alloc: Global, text: &'a [u8]) -> Result<(Targets, &'a [u8]), NoPart>
    ensures within { IfOk result (λ x. length x.1.now ≤ length text.now) }
    ensures part { Gives (λ x. (x.0, x.1.now)) result (targets_at text.now) }
{
    if let Some(rest) = text.strip_prefix(b"\t\t\t&i,\n") {
        return Ok((Targets::Whole, rest));
    }
    let (names, rest) = target_lines_of(alloc, text)?;
    if names.len() == 0 {
        return Err(NoPart::Absent);
    }
    Ok((Targets::Fields(names), rest))
}

/// The method of a query.
#[tactic(auto, unfolding(crate::specs::Forms::method_at))]
pub(crate) fn method_of<'a>(
    alloc: Global,
    text: &'a [u8],
    query: &[u8],
) -> Result<(Method, &'a [u8]), NoPart>
    ensures shorter { IfOk result (λ x. length x.1.now < length text.now) }
    ensures part { Gives (λ x. (x.0, x.1.now)) result (method_at query.now text.now) }
{
    let rest = behind(text, b"\nfunc (q *Queries) ")?;
    let rest = behind(rest, query)?;
    let rest = behind(rest, b"(ctx context.Context) ([]")?;
    let (result, rest) = name_of(alloc, rest, Class::Spelling)?;
    let rest = behind(rest, b", error) {\n\trows, err := q.db.QueryContext(ctx, ")?;
    let (constant, rest) = name_of(alloc, rest, Class::Word)?;
    let rest = behind(
        rest,
        b")\n\tif err != nil {\n\t\treturn nil, err\n\t}\n\tdefer rows.Close()\n\tvar items []",
    )?;
    let rest = behind(rest, result.as_bytes())?;
    let rest = behind(rest, b"\n\tfor rows.Next() {\n\t\tvar i ")?;
    let rest = behind(rest, result.as_bytes())?;
    let rest = behind(rest, b"\n\t\tif err := rows.Scan(\n")?;
    let (targets, rest) = targets_of(alloc, rest)?;
    let rest = behind(
        rest,
        b"\t\t); err != nil {\n\t\t\treturn nil, err\n\t\t}\n\t\titems = append(items, i)\n\t}\n\tif err := rows.Close(); err != nil {\n\t\treturn nil, err\n\t}\n\tif err := rows.Err(); err != nil {\n\t\treturn nil, err\n\t}\n\treturn items, nil\n}\n",
    )?;
    Ok((
        Method {
            result,
            constant,
            targets,
        },
        rest,
    ))
}
