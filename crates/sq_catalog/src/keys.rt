//! Primary keys.

ghost use Rattle.std.specs.Prelude.{◌≡◌, ◌<◌, ◌==◌, IfOk, codes, map, nat_lt, length, [], Ok, Err};
ghost use Rattle.std.specs.List.{list_any};
ghost use Rattle.std.specs.Option.{option_copied};
ghost use Rattle.sq_catalog.specs.Answers.{Answers, Gives, and_then};
ghost use Rattle.sq_catalog.specs.Keys.{key_name, places_of, new_key, key_of, all_marked, with_key, with_key_of, limited, completed, in_key, moved, key_without, without_column};

use crate::columns::{column, mark_at, take_columns};
use crate::{Cause, ChangeFault, Column, Key, Keys, NewKey, Table};
use sq_base::{List, Name};
use std::alloc::{AllocError, Global};

/// The primary key of a table.
pub fn primary_key(table: &Table) -> Option<&Key>
    ensures { option_copied result ≡ table.now.key }
{
    table.key.as_ref()
}

// The most columns that a table can have.
const MOST_COLUMNS: usize = 1600;

// The name of a key that a statement names so, in a table of this name.
fn key_name(alloc: Global, table: &str, name: Option<Name>) -> Result<Name, AllocError>
    ensures { IfOk result (λ made. made ≡ key_name table.now name) }
{
    if let Some(name) = name {
        return Ok(name);
    }
    let mut text = String::from_str(alloc, table)?;
    text.push_str("_pkey")?;
    Ok(Name::from_string(text))
}

// The places of the columns of these names.
fn places_of(alloc: Global, table: &Table, names: List<Name>) -> Result<List<u32>, ChangeFault>
    ensures { Gives (places_of table.now [] names) result }
{
    let mut places = List::new(alloc);
    for name in names.into_vec() {
        let Some(at) = column(table, name.as_str()) else {
            return Err(ChangeFault::Refused(Cause::Missing(name)));
        };
        // a place past 32 bits would take more memory than there is
        let Ok(place) = u32::try_from(at) else {
            return Err(ChangeFault::Memory);
        };
        places.push(place)?;
    }
    Ok(places)
}

// A new key of a table.
fn new_key(alloc: Global, table: &Table, new: NewKey) -> Result<Key, ChangeFault>
    ensures { Gives (new_key table.now new) result }
{
    if table.key.is_some() {
        let words = Name::new(alloc, "PRIMARY KEY")?;
        return Err(ChangeFault::Refused(Cause::Exists(words)));
    }
    let NewKey { name, columns } = new;
    let columns = places_of(alloc, table, columns)?;
    let name = key_name(alloc, table.name.as_str(), name)?;
    Ok(Key { name, columns })
}

// The new key among those that a statement asks for.
fn key_of(alloc: Global, table: &Table, keys: Keys) -> Result<Option<Key>, ChangeFault>
    ensures { Gives (key_of table.now keys) result }
{
    match keys {
        Keys::Nothing => Ok(None),
        Keys::One(new) => {
            let key = new_key(alloc, table, new)?;
            Ok(Some(key))
        }
        Keys::Several => {
            let words = Name::new(alloc, "PRIMARY KEY")?;
            Err(ChangeFault::Refused(Cause::Exists(words)))
        }
    }
}

// Gives columns at these places NOT NULL.
fn mark_all(columns: &mut Vec<Column>, places: &[u32])
    ensures { columns.new.items ≡ all_marked columns.old.items places.now }
{
    for place in places {
        mark_at(columns, *place as usize, true);
    }
}

// Gives a table its key.
fn set_key(alloc: Global, table: &mut Table, key: Key)
    ensures { table.new ≡ with_key table.old key }
{
    let mut columns = take_columns(alloc, table);
    mark_all(&mut columns, key.columns.as_slice());
    table.columns = List::from_vec(columns);
    table.key = Some(key);
}

// Gives a table a new primary key.
pub(crate) fn add_key(alloc: Global, table: &mut Table, new: NewKey) -> Result<(), ChangeFault>
    ensures { Answers table.old (and_then (new_key table.old new) (λ made. Ok (with_key table.old made))) table.new result }
{
    let key = new_key(alloc, table, new)?;
    set_key(alloc, table, key);
    Ok(())
}

// Refuses a table with too many columns.
fn limited(alloc: Global, table: &Table) -> Result<(), ChangeFault>
    ensures { Answers table.now (limited table.now) table.now result }
{
    if MOST_COLUMNS < table.columns.len() {
        let name = table.name.copy(alloc)?;
        return Err(ChangeFault::Refused(Cause::TooManyColumns(name)));
    }
    Ok(())
}

// Gives a table the key that a statement asks for, where it has not too many columns.
pub(crate) fn complete(alloc: Global, table: &mut Table, keys: Keys) -> Result<(), ChangeFault>
    ensures { Answers table.old (completed table.old keys) table.new result }
{
    let key = key_of(alloc, table, keys)?;
    limited(alloc, table)?;
    if let Some(key) = key {
        set_key(alloc, table, key);
    }
    Ok(())
}

// Whether a key has the column at a place.
fn has_place(key: &Key, at: usize) -> bool
    ensures { result ≡ list_any (λ place. place == at) key.now.columns }
{
    key.columns
        .as_slice()
        .iter()
        .any(|place| *place as usize == at)
}

// Whether the column at a place belongs to the primary key.
pub(crate) fn in_key(table: &Table, at: usize) -> bool
    ensures { result ≡ in_key table.now at }
{
    match &table.key {
        Some(key) => has_place(key, at),
        None => false,
    }
}

// Where a column stands once the one at a place has gone.
fn moved(gone: usize, at: u32) -> u32
    ensures { result ≡ moved gone at }
{
    if gone < at as usize { at - 1 } else { at }
}

// The places of columns once the one at a place has gone.
fn moved_places(places: List<u32>, gone: usize) -> List<u32>
    ensures { result ≡ map (moved gone) places }
{
    let mut places = places.into_vec();
    for place in places.iter_mut() {
        *place = moved(gone, *place);
    }
    List::from_vec(places)
}

// What is left of a key once the column at a place has gone.
fn key_without(gone: usize, key: Option<Key>) -> Option<Key>
    ensures { result ≡ key_without gone key }
{
    let key = key?;
    if has_place(&key, gone) {
        return None;
    }
    let Key { name, columns } = key;
    Some(Key {
        name,
        columns: moved_places(columns, gone),
    })
}

// Takes the column at a place out of a table.
pub(crate) fn drop_at(alloc: Global, table: &mut Table, gone: usize)
    requires { gone < length table.old.columns }
    ensures { table.new ≡ without_column table.old gone }
{
    let mut columns = take_columns(alloc, table);
    columns.remove(gone);
    table.columns = List::from_vec(columns);
    table.key = key_without(gone, table.key.take());
}
