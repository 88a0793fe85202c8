//! What changes of tables and types ask of the catalogue.

ghost use Rattle.std.specs.Prelude.{◌≡◌, IfOk};
ghost use Rattle.sq_migrate.specs.Asked as spec;
ghost use Rattle.sq_base.specs.Answers.{Gives};

use crate::asking::{check_home, last_of, schema_of, target};
use crate::columns::{column_keys, column_of, keys, table_key, text};
use crate::labels::label;
use crate::types::{known_schema, type_of};
use sq_base::Fault;
use sq_catalog::{Action, Beside, Catalogue, Change, NewKey};
use sq_syntax::{
    AlterTable, Identifier, Neighbour, QualifiedName, SetType, TableAction, TypeChange,
};
use std::alloc::{AllocError, Global};

/// An action of this table.
pub fn acting(
    alloc: Global,
    catalogue: &Catalogue,
    x: &AlterTable,
    action: Action,
) -> Result<Change, Fault>
    ensures { Gives (spec.acting catalogue.now x.now action) result }
{
    check_home(alloc, catalogue, &x.name)?;
    Ok(Change::AlterTable {
        table: target(alloc, x.if_exists, &x.name)?,
        action,
    })
}

fn column_asked(
    alloc: Global,
    catalogue: &Catalogue,
    x: &AlterTable,
    if_not_exists: bool,
    column: &sq_syntax::Column,
) -> Result<Change, Fault>
    ensures { Gives (spec.column_asked catalogue.now x.now if_not_exists column.now) result }
{
    check_home(alloc, catalogue, &x.name)?;
    let made = column_of(alloc, catalogue, column)?;
    let asked = column_keys(alloc, &column.name, column.constraints.as_slice())?;
    Ok(Change::AlterTable {
        table: target(alloc, x.if_exists, &x.name)?,
        action: Action::AddColumn {
            column: made,
            if_not_exists,
            keys: keys(asked),
        },
    })
}

fn type_asked(
    alloc: Global,
    catalogue: &Catalogue,
    x: &AlterTable,
    set: &SetType,
) -> Result<Change, Fault>
    ensures { Gives (spec.type_asked catalogue.now x.now set.now) result }
{
    check_home(alloc, catalogue, &x.name)?;
    let to = type_of(alloc, catalogue, false, &set.to)?;
    Ok(Change::AlterTable {
        table: target(alloc, x.if_exists, &x.name)?,
        action: Action::SetType {
            column: text(alloc, &set.column)?,
            of: to.of,
        },
    })
}

// Of the constraints of a table a key alone is kept.
fn key_asked(
    alloc: Global,
    catalogue: &Catalogue,
    x: &AlterTable,
    key: Option<NewKey>,
) -> Result<Option<Change>, Fault>
    ensures { Gives (spec.key_asked catalogue.now x.now key) result }
{
    match key {
        Some(key) => Ok(Some(acting(alloc, catalogue, x, Action::AddPrimaryKey { key })?)),
        None => Ok(None),
    }
}

/// What an action of a table asks for.
pub fn action_asked(
    alloc: Global,
    catalogue: &Catalogue,
    x: &AlterTable,
    action: &TableAction,
) -> Result<Option<Change>, Fault>
    ensures { Gives (spec.action_asked catalogue.now x.now action.now) result }
{
    match action {
        TableAction::AddColumn(_, if_not_exists, column) => {
            Ok(Some(column_asked(alloc, catalogue, x, *if_not_exists, column)?))
        }
        TableAction::AddConstraint(constraint) => {
            let key = table_key(alloc, constraint)?;
            key_asked(alloc, catalogue, x, key)
        }
        TableAction::DropColumn(_, if_exists, name, _) => {
            let name = text(alloc, name)?;
            let action = Action::DropColumn {
                name,
                if_exists: *if_exists,
            };
            Ok(Some(acting(alloc, catalogue, x, action)?))
        }
        TableAction::DropConstraint(_, name, _) => {
            let name = text(alloc, name)?;
            Ok(Some(acting(alloc, catalogue, x, Action::DropConstraint { name })?))
        }
        TableAction::SetNotNull(_, name) => {
            let column = text(alloc, name)?;
            Ok(Some(acting(alloc, catalogue, x, Action::SetNotNull { column })?))
        }
        TableAction::DropNotNull(_, name) => {
            let column = text(alloc, name)?;
            Ok(Some(acting(alloc, catalogue, x, Action::DropNotNull { column })?))
        }
        TableAction::SetType(set) => Ok(Some(type_asked(alloc, catalogue, x, set)?)),
        TableAction::Other(_) => Ok(None),
    }
}

/// A table gets another name.
pub fn rename_asked(
    alloc: Global,
    catalogue: &Catalogue,
    x: &AlterTable,
    to: &Identifier,
) -> Result<Change, Fault>
    ensures { Gives (spec.rename_asked catalogue.now x.now to.now) result }
{
    check_home(alloc, catalogue, &x.name)?;
    Ok(Change::RenameTable {
        table: target(alloc, x.if_exists, &x.name)?,
        to: text(alloc, to)?,
    })
}

/// A table comes into another schema.
pub fn move_asked(
    alloc: Global,
    catalogue: &Catalogue,
    x: &AlterTable,
    to: &Identifier,
) -> Result<Change, Fault>
    ensures { Gives (spec.move_asked catalogue.now x.now to.now) result }
{
    check_home(alloc, catalogue, &x.name)?;
    known_schema(alloc, catalogue, to.place, to.name.as_str())?;
    Ok(Change::SetTableSchema {
        table: target(alloc, x.if_exists, &x.name)?,
        to: text(alloc, to)?,
    })
}

fn beside_of(alloc: Global, place: &Neighbour) -> Result<Beside, AllocError>
    ensures { IfOk result (λ beside. beside ≡ spec.beside_of place.now) }
{
    match place {
        Neighbour::Unsaid => Ok(Beside::Last),
        Neighbour::Before(bytes) => Ok(Beside::Before(label(alloc, bytes.as_slice())?)),
        Neighbour::After(bytes) => Ok(Beside::After(label(alloc, bytes.as_slice())?)),
    }
}

fn value_asked(
    alloc: Global,
    catalogue: &Catalogue,
    x: &QualifiedName,
    bytes: &[u8],
    if_not_exists: bool,
    place: &Neighbour,
) -> Result<Change, Fault>
    ensures { Gives (spec.value_asked catalogue.now x.now bytes.now if_not_exists place.now) result }
{
    check_home(alloc, catalogue, x)?;
    Ok(Change::AddValue {
        schema: schema_of(alloc, x)?,
        name: last_of(alloc, x)?,
        label: label(alloc, bytes)?,
        if_not_exists,
        beside: beside_of(alloc, place)?,
    })
}

fn value_name_asked(
    alloc: Global,
    catalogue: &Catalogue,
    x: &QualifiedName,
    from: &[u8],
    to: &[u8],
) -> Result<Change, Fault>
    ensures { Gives (spec.value_name_asked catalogue.now x.now from.now to.now) result }
{
    check_home(alloc, catalogue, x)?;
    Ok(Change::RenameValue {
        schema: schema_of(alloc, x)?,
        name: last_of(alloc, x)?,
        from: label(alloc, from)?,
        to: label(alloc, to)?,
    })
}

fn type_name_asked(
    alloc: Global,
    catalogue: &Catalogue,
    x: &QualifiedName,
    to: &Identifier,
) -> Result<Change, Fault>
    ensures { Gives (spec.type_name_asked catalogue.now x.now to.now) result }
{
    check_home(alloc, catalogue, x)?;
    Ok(Change::RenameType {
        schema: schema_of(alloc, x)?,
        name: last_of(alloc, x)?,
        to: text(alloc, to)?,
    })
}

fn type_schema_asked(
    alloc: Global,
    catalogue: &Catalogue,
    x: &QualifiedName,
    to: &Identifier,
) -> Result<Change, Fault>
    ensures { Gives (spec.type_schema_asked catalogue.now x.now to.now) result }
{
    check_home(alloc, catalogue, x)?;
    known_schema(alloc, catalogue, to.place, to.name.as_str())?;
    Ok(Change::SetTypeSchema {
        schema: schema_of(alloc, x)?,
        name: last_of(alloc, x)?,
        to: text(alloc, to)?,
    })
}

/// What a change of a type asks for.
pub fn type_change_asked(
    alloc: Global,
    catalogue: &Catalogue,
    x: &QualifiedName,
    change: &TypeChange,
) -> Result<Option<Change>, Fault>
    ensures { Gives (spec.type_change_asked catalogue.now x.now change.now) result }
{
    match change {
        TypeChange::AddValue(if_not_exists, bytes, place) => {
            let bytes = bytes.as_slice();
            Ok(Some(value_asked(alloc, catalogue, x, bytes, *if_not_exists, place)?))
        }
        TypeChange::RenameValue(from, to) => {
            Ok(Some(value_name_asked(alloc, catalogue, x, from.as_slice(), to.as_slice())?))
        }
        TypeChange::RenameTo(to) => Ok(Some(type_name_asked(alloc, catalogue, x, to)?)),
        TypeChange::SetSchema(to) => Ok(Some(type_schema_asked(alloc, catalogue, x, to)?)),
        TypeChange::Other(_) => Ok(None),
    }
}
