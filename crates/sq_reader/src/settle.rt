ghost use Rattle.std.specs.Prelude.{◌≡◌, ◌∷◌, [], ◌++◌, Ok, Some, None, IfOk, OnOk, MatchOption};
ghost use Rattle.std.specs.Option.{option_to_list};
ghost use Rattle.sq_reader.specs.Gives.{Gives, Halts};
ghost use Rattle.sq_reader.specs.Columns;
ghost use Rattle.sq_reader.specs.Reading;

use crate::forms::{Struct, Targets};
use crate::items::{Call, Halt, Item, Meaning, Space};
use crate::parts::NoPart;
use sq_base::{List, Name};
use sq_shown::{Shown, ShownField};
use std::alloc::{AllocError, Global};

/// Whether two name spaces are one.
fn same_space(one: Space, other: Space) -> bool
    ensures { result ≡ Reading.same_space one other }
{
    match (one, other) {
        (Space::Package, Space::Package)
        | (Space::Methods, Space::Methods)
        | (Space::Files, Space::Files) => true,
        _ => false,
    }
}

/// Whether an earlier item declares this one's name in its name space.
fn declares_again(earlier: &[Item], item: &Item) -> bool
    ensures { result ≡ Reading.declares_again earlier.now item.now }
{
    earlier.iter().any(|other| {
        same_space(other.space, item.space) && other.name.as_bytes() == item.name.as_bytes()
    })
}

/// The fields of an item, if it is the model of this name.
fn model_of<'a>(item: &'a Item, name: &[u8]) -> Option<&'a List<ShownField>>
    ensures { MatchOption result (Columns.model_at item.now name.now ≡ None) (λ fields. Columns.model_at item.now name.now ≡ Some fields.now) }
{
    if item.name.as_bytes() != name {
        return None;
    }
    match &item.meaning {
        Meaning::Model(fields) => Some(fields),
        Meaning::Plain | Meaning::Query(_) => None,
    }
}

/// The fields of the first model of this name.
fn model_named<'a>(items: &'a [Item], name: &[u8]) -> Option<&'a List<ShownField>>
    ensures { MatchOption result (Columns.model_named items.now name.now ≡ None) (λ fields. Columns.model_named items.now name.now ≡ Some fields.now) }
{
    for item in items {
        if let Some(fields) = model_of(item, name) {
            return Some(fields);
        }
    }
    None
}

/// The fields of the struct of this name.
fn struct_named<'a>(
    items: &'a [Item],
    row: &'a Option<Struct>,
    name: &[u8],
) -> Option<&'a List<ShownField>>
    ensures { MatchOption result (Columns.struct_named items.now row.now name.now ≡ None) (λ fields. Columns.struct_named items.now row.now name.now ≡ Some fields.now) }
{
    match row {
        Some(row) if row.name.as_bytes() == name => Some(&row.fields),
        _ => model_named(items, name),
    }
}

/// The type of the first field of this name.
fn type_in<'a>(fields: &'a [ShownField], name: &[u8]) -> Option<&'a Name>
    ensures { MatchOption result (Columns.type_in fields.now name.now ≡ None) (λ of. Columns.type_in fields.now name.now ≡ Some of.now) }
{
    for field in fields {
        if field.name.as_bytes() == name {
            return Some(&field.of);
        }
    }
    None
}

/// The column of a name, with its field's type.
fn column_of(alloc: Global, fields: &[ShownField], name: &Name) -> Result<ShownField, NoPart>
    ensures { Gives (λ column. column) result (Columns.column_in fields.now name.now) }
{
    let Some(of) = type_in(fields, name.as_bytes()) else {
        return Err(NoPart::Absent);
    };
    Ok(ShownField {
        name: name.copy(alloc)?,
        of: of.copy(alloc)?,
    })
}

/// A column for each name, in the order of the names.
fn picked(alloc: Global, fields: &[ShownField], names: &[Name]) -> Result<List<ShownField>, NoPart>
    ensures { Gives (λ columns. columns) result (Columns.picked fields.now names.now) }
{
    let mut columns = List::new(alloc);
    for name in names {
        match column_of(alloc, fields, name) {
            Ok(column) => columns.push(column)?,
            Err(fault) => return Err(fault),
        }
    }
    Ok(columns)
}

/// The columns of a query.
fn columns_of(alloc: Global, items: &[Item], call: &Call) -> Result<List<ShownField>, NoPart>
    ensures { Gives (λ columns. columns) result (Columns.columns items.now call.now) }
{
    match &call.targets {
        Targets::Whole => {
            let mut columns = List::new(alloc);
            columns.push(ShownField {
                name: Name::new(alloc, "_")?,
                of: call.result.copy(alloc)?,
            })?;
            Ok(columns)
        }
        Targets::Fields(names) => match struct_named(items, &call.row, call.result.as_bytes()) {
            Some(fields) => picked(alloc, fields.as_slice(), names.as_slice()),
            None => Err(NoPart::Absent),
        },
    }
}

/// The signature of a query.
fn signature(
    alloc: Global,
    name: &Name,
    call: &Call,
    columns: List<ShownField>,
) -> Result<Shown, AllocError>
    ensures { IfOk result (λ shown. shown ≡ Columns.signature name.now call.now columns) }
{
    Ok(Shown {
        name: name.copy(alloc)?,
        command: call.command,
        text: List::from_slice(alloc, call.text.as_slice())?,
        params: List::new(alloc),
        columns,
    })
}

/// The signature of an item, if it has one.
fn shown_by(alloc: Global, items: &[Item], item: &Item) -> Result<Option<Shown>, Halt>
    ensures { Halts (λ shown. option_to_list shown) result (Reading.shown_by items.now item.now item.now.meaning) }
{
    let Meaning::Query(call) = &item.meaning else {
        return Ok(None);
    };
    match columns_of(alloc, items, call) {
        Ok(columns) => Ok(Some(signature(alloc, &item.name, call, columns)?)),
        Err(NoPart::Absent) => Err(Halt::At(item.spot)),
        Err(NoPart::Memory) => Err(Halt::NoMemory),
    }
}

/// The signature of an item, if it has one, and nothing of it is at fault.
fn settled(
    alloc: Global,
    items: &[Item],
    earlier: &[Item],
    item: &Item,
) -> Result<Option<Shown>, Halt>
    ensures { Halts (λ shown. option_to_list shown) result (Reading.settled items.now earlier.now item.now) }
{
    if declares_again(earlier, item) || !item.declared {
        return Err(Halt::At(item.spot));
    }
    shown_by(alloc, items, item)
}

/// Puts what an item gives behind others.
fn push_shown(all: &mut List<Shown>, shown: Option<Shown>) -> Result<(), AllocError>
    ensures { OnOk result (all.new ≡ all.old ++ option_to_list shown) }
{
    if let Some(shown) = shown {
        all.push(shown)?;
    }
    Ok(())
}

/// The signatures of all items.
pub(crate) fn all_settled(alloc: Global, items: &[Item]) -> Result<List<Shown>, Halt>
    ensures { Halts (λ shown. shown) result (Reading.settled_from items.now [] items.now) }
{
    let mut all = List::new(alloc);
    for (place, item) in items.iter().enumerate() {
        match settled(alloc, items, &items[..place], item) {
            Ok(shown) => push_shown(&mut all, shown)?,
            Err(fault) => return Err(fault),
        }
    }
    Ok(all)
}
