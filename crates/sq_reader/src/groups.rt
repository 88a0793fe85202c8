ghost use Rattle.std.specs.Prelude.{◌≡◌, ◌<◌, ◌≤◌, ◌∷◌, [], ◌++◌, length, Ok, Some, None, IfOk, OnOk, MatchOption};
ghost use Rattle.sq_reader.specs.Gives.{Halts};
ghost use Rattle.sq_reader.specs.Parts;
ghost use Rattle.sq_reader.specs.Forms;
ghost use Rattle.sq_reader.specs.Items;

use crate::forms::{Constant, Method, Struct, Targets, constant_of, method_of, row_of, struct_of};
use crate::items::{Call, Fixed, Group, Halt, Item, Meaning, Source, Space, Spot};
use crate::parts::{Class, NoPart, run_length};
use sq_base::{List, Name};
use sq_shown::ShownField;
use std::alloc::{AllocError, Global};

/// The spot of the item at the front.
pub(crate) fn spot_of(file: usize, text: &[u8]) -> Spot
    ensures { result ≡ Items.spot file text.now }
{
    let gap = run_length(text, Class::Newline);
    Spot {
        file,
        left: text[gap..].len(),
    }
}

/// Whether this is a path's last part.
pub(crate) fn is_last_part(part: &[u8], path: &[u8]) -> bool
    ensures { result ≡ Items.is_last_part part.now path.now }
{
    match path.strip_suffix(part) {
        Some(front) => front.is_empty() || front.ends_with(b"/"),
        None => false,
    }
}

/// Whether a package is imported.
pub(crate) fn is_imported(imports: &List<List<u8>>, name: &[u8]) -> bool
    ensures { result ≡ Items.is_imported imports.now name.now }
{
    imports
        .as_slice()
        .iter()
        .any(|path| is_last_part(name, path.as_slice()))
}

/// The rest behind the longest front of the class.
fn after_run(text: &[u8], class: Class) -> &[u8]
    ensures { result.now ≡ Parts.after_run class text.now }
{
    &text[run_length(text, class)..]
}

/// The package before the dot of a type.
fn package_of(of: &[u8]) -> Option<&[u8]>
    ensures { MatchOption result (Items.package_of of.now ≡ None) (λ x. Items.package_of of.now ≡ Some x.now) }
{
    let base = after_run(of, Class::Bracket);
    let length = run_length(base, Class::Word);
    if base[length..].starts_with(b".") {
        Some(&base[..length])
    } else {
        None
    }
}

/// Whether a text begins with an upper-case letter.
fn begins_upper(text: &[u8]) -> bool
    ensures { result ≡ Items.begins_upper text.now }
{
    match text {
        [first, ..] => first.is_ascii_uppercase(),
        [] => false,
    }
}

/// Whether what a type uses is declared.
fn type_stands(imports: &List<List<u8>>, of: &[u8]) -> bool
    ensures { result ≡ Items.type_stands imports.now of.now }
{
    match package_of(of) {
        Some(name) => is_imported(imports, name),
        None => !begins_upper(after_run(of, Class::Bracket)),
    }
}

/// Whether what the types of fields use is declared.
fn fields_stand(imports: &List<List<u8>>, fields: &List<ShownField>) -> bool
    ensures { result ≡ Items.fields_stand imports.now fields.now }
{
    fields
        .as_slice()
        .iter()
        .all(|field| type_stands(imports, field.of.as_bytes()))
}

/// Whether what the type of a whole row uses is declared.
fn result_stands(imports: &List<List<u8>>, targets: &Targets, of: &[u8]) -> bool
    ensures { result ≡ Items.result_stands imports.now targets.now of.now }
{
    match targets {
        Targets::Whole => type_stands(imports, of),
        Targets::Fields(_) => true,
    }
}

/// The constant of a query, which has to stand here.
fn constant_standing<'a>(
    alloc: Global,
    source: &Source,
    text: &'a [u8],
) -> Result<(Constant, &'a [u8]), Halt>
    ensures shorter { IfOk result (λ x. length x.1.now < length text.now) }
    ensures read { Halts (λ x. (x.0, x.1.now)) result (Items.stands (Forms.constant_at text.now) (Items.spot source.now.file text.now)) }
{
    match constant_of(alloc, text) {
        Ok(found) => Ok(found),
        Err(NoPart::Absent) => Err(Halt::At(spot_of(source.file, text))),
        Err(NoPart::Memory) => Err(Halt::NoMemory),
    }
}

/// The method of a query, which has to stand here.
fn method_standing<'a>(
    alloc: Global,
    source: &Source,
    text: &'a [u8],
    query: &[u8],
) -> Result<(Method, &'a [u8]), Halt>
    ensures shorter { IfOk result (λ x. length x.1.now < length text.now) }
    ensures read { Halts (λ x. (x.0, x.1.now)) result (Items.stands (Forms.method_at query.now text.now) (Items.spot source.now.file text.now)) }
{
    match method_of(alloc, text, query) {
        Ok(found) => Ok(found),
        Err(NoPart::Absent) => Err(Halt::At(spot_of(source.file, text))),
        Err(NoPart::Memory) => Err(Halt::NoMemory),
    }
}

/// The struct of a model, which has to stand here.
fn struct_standing<'a>(
    alloc: Global,
    source: &Source,
    text: &'a [u8],
) -> Result<(Struct, &'a [u8]), Halt>
    ensures shorter { IfOk result (λ x. length x.1.now < length text.now) }
    ensures read { Halts (λ x. (x.0, x.1.now)) result (Items.stands (Forms.struct_at text.now) (Items.spot source.now.file text.now)) }
{
    match struct_of(alloc, text) {
        Ok(found) => Ok(found),
        Err(NoPart::Absent) => Err(Halt::At(spot_of(source.file, text))),
        Err(NoPart::Memory) => Err(Halt::NoMemory),
    }
}

/// The item of a model.
fn model_item(source: &Source, text: &[u8], found: Struct) -> Item
    ensures { result ≡ Items.model_item source.now text.now found }
{
    let declared = fields_stand(&source.imports, &found.fields);
    let Struct { name, fields } = found;
    Item {
        spot: spot_of(source.file, text),
        space: Space::Package,
        name,
        declared,
        meaning: Meaning::Model(fields),
    }
}

/// The items of a model.
fn model_group<'a>(
    alloc: Global,
    source: &Source,
    text: &'a [u8],
) -> Result<(List<Item>, &'a [u8]), Halt>
    ensures shorter { IfOk result (λ x. length x.1.now < length text.now) }
    ensures read { Halts (λ x. (x.0, x.1.now)) result (Items.model_group source.now text.now) }
{
    let (found, rest) = struct_standing(alloc, source, text)?;
    let mut items = List::new(alloc);
    items.push(model_item(source, text, found))?;
    Ok((items, rest))
}

/// Puts the item of the struct of a query's rows behind others, where it stands.
fn push_row(
    alloc: Global,
    items: &mut List<Item>,
    source: &Source,
    text: &[u8],
    row: &Option<Struct>,
) -> Result<(), AllocError>
    ensures { OnOk result (items.new ≡ items.old ++ Items.row_items source.now text.now row.now) }
{
    if let Some(row) = row {
        items.push(Item {
            spot: spot_of(source.file, text),
            space: Space::Package,
            name: row.name.copy(alloc)?,
            declared: fields_stand(&source.imports, &row.fields),
            meaning: Meaning::Plain,
        })?;
    }
    Ok(())
}

/// Whether what a method uses is declared.
fn method_stands(source: &Source, constant: &Constant, method: &Method) -> bool
    ensures { result ≡ Items.method_stands source.now constant.now method.now }
{
    is_imported(&source.imports, b"context")
        && method.constant.as_bytes() == constant.name.as_bytes()
        && result_stands(&source.imports, &method.targets, method.result.as_bytes())
}

/// The item of a query's constant.
fn constant_item(
    alloc: Global,
    source: &Source,
    text: &[u8],
    constant: &Constant,
) -> Result<Item, AllocError>
    ensures { IfOk result (λ item. item ≡ Items.constant_item source.now text.now constant.now) }
{
    Ok(Item {
        spot: spot_of(source.file, text),
        space: Space::Package,
        name: constant.name.copy(alloc)?,
        declared: true,
        meaning: Meaning::Plain,
    })
}

/// The item of a query's method.
fn method_item(
    source: &Source,
    text: &[u8],
    constant: Constant,
    row: Option<Struct>,
    method: Method,
) -> Item
    ensures { result ≡ Items.method_item source.now text.now constant row method }
{
    let declared = method_stands(source, &constant, &method);
    let Constant {
        name: _,
        query,
        command,
        text: asked,
    } = constant;
    let Method {
        result: of,
        constant: _,
        targets,
    } = method;
    Item {
        spot: spot_of(source.file, text),
        space: Space::Methods,
        name: query,
        declared,
        meaning: Meaning::Query(Call {
            command,
            text: asked,
            row,
            result: of,
            targets,
        }),
    }
}

/// The items of a query.
#[tactic(auto, unfolding(crate::specs::Items::query_group))]
fn query_group<'a>(
    alloc: Global,
    source: &Source,
    text: &'a [u8],
) -> Result<(List<Item>, &'a [u8]), Halt>
    ensures shorter { IfOk result (λ x. length x.1.now < length text.now) }
    ensures read { Halts (λ x. (x.0, x.1.now)) result (Items.query_group source.now text.now) }
{
    let (constant, here) = constant_standing(alloc, source, text)?;
    let (row, there) = row_of(alloc, here, constant.query.as_bytes())?;
    let (method, rest) = method_standing(alloc, source, there, constant.query.as_bytes())?;
    let mut items = List::new(alloc);
    items.push(constant_item(alloc, source, text, &constant)?)?;
    push_row(alloc, &mut items, source, here, &row)?;
    items.push(method_item(source, there, constant, row, method))?;
    Ok((items, rest))
}

/// The items of the model or the query at the front.
fn group_of<'a>(
    alloc: Global,
    group: Group,
    source: &Source,
    text: &'a [u8],
) -> Result<(List<Item>, &'a [u8]), Halt>
    ensures shorter { IfOk result (λ x. length x.1.now < length text.now) }
    ensures read { Halts (λ x. (x.0, x.1.now)) result (Items.group_at group source.now text.now) }
{
    match group {
        Group::Models => model_group(alloc, source, text),
        Group::Calls => query_group(alloc, source, text),
    }
}

/// These items, and then those.
pub(crate) fn joined(items: List<Item>, more: List<Item>) -> Result<List<Item>, AllocError>
    ensures { IfOk result (λ all. all ≡ items ++ more) }
{
    let mut all = items.into_vec();
    let mut more = more.into_vec();
    all.append(&mut more)?;
    Ok(List::from_vec(all))
}

/// The items of models or queries up to the end.
pub(crate) fn groups_of(
    alloc: Global,
    group: Group,
    source: &Source,
    text: &[u8],
) -> Result<List<Item>, Halt>
    ensures { Halts (λ items. items) result (Items.groups group source.now text.now) }
{
    let mut items = List::new(alloc);
    if text == b"\n".as_slice() {
        return Ok(items);
    }
    let mut rest = text;
    loop {
        match group_of(alloc, group, source, rest) {
            Ok((more, later)) => {
                items = joined(items, more)?;
                if later.is_empty() {
                    return Ok(items);
                }
                rest = later;
            }
            Err(fault) => return Err(fault),
        }
    }
}
