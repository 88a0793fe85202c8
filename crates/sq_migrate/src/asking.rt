//! What new things and drops ask of the catalogue.

ghost use Rattle.std.specs.Prelude.{◌≡◌, IfOk};
ghost use Rattle.sq_migrate.specs.Asked as spec;
ghost use Rattle.sq_base.specs.Answers.{Gives};
ghost use Rattle.sq_migrate.specs.Types as types;

use crate::columns::{columns_of, keys, table_keys, text};
use crate::labels::labels;
use crate::types::{known_schema, place_of, type_of};
use sq_base::{Fault, Name};
use sq_catalog::{Catalogue, Change, Target};
use sq_syntax::{
    Behavior, CreateDomain, CreateSchema, CreateTable, CreateType, DropNamed, DropSchema, Dropped,
    Identifier, QualifiedName,
};
use std::alloc::{AllocError, Global};

fn home(x: &QualifiedName) -> &str
    ensures { result.now ≡ spec.schema_of x.now }
{
    match &x.schema {
        None => "public",
        Some(schema) => schema.name.as_str(),
    }
}

/// The schema of a name: by default `public`.
pub fn schema_of(alloc: Global, x: &QualifiedName) -> Result<Name, AllocError>
    ensures { IfOk result (λ schema. schema ≡ spec.schema_of x.now) }
{
    Name::new(alloc, home(x))
}

/// The last part of a name.
pub fn last_of(alloc: Global, x: &QualifiedName) -> Result<Name, AllocError>
    ensures { IfOk result (λ name. name ≡ spec.last_of x.now) }
{
    text(alloc, &x.name)
}

/// Refuses a name whose schema is not there.
pub fn check_home(alloc: Global, catalogue: &Catalogue, x: &QualifiedName) -> Result<(), Fault>
    ensures { Gives (types.known_schema catalogue.now (types.place_of x.now) (spec.schema_of x.now)) result }
{
    known_schema(alloc, catalogue, place_of(x), home(x))
}

/// Whether CASCADE is written.
fn is_cascade(behavior: Behavior) -> bool
    ensures { result ≡ spec.is_cascade behavior }
{
    matches!(behavior, Behavior::Cascade)
}

/// What a change is about, and whether it may be absent.
pub fn target(alloc: Global, if_exists: bool, x: &QualifiedName) -> Result<Target, AllocError>
    ensures { IfOk result (λ target. target ≡ spec.target if_exists x.now) }
{
    Ok(Target {
        schema: schema_of(alloc, x)?,
        name: last_of(alloc, x)?,
        if_exists,
    })
}

/// A new schema.
pub fn schema_asked(alloc: Global, x: &CreateSchema) -> Result<Change, Fault>
    ensures { Gives (spec.schema_asked x.now) result }
{
    Ok(Change::CreateSchema {
        name: text(alloc, &x.name)?,
        if_not_exists: x.if_not_exists,
    })
}

/// A new table.
pub fn table_asked(alloc: Global, catalogue: &Catalogue, x: &CreateTable) -> Result<Change, Fault>
    ensures { Gives (spec.table_asked catalogue.now x.now) result }
{
    check_home(alloc, catalogue, &x.name)?;
    let columns = columns_of(alloc, catalogue, x.elements.as_slice())?;
    Ok(Change::CreateTable {
        schema: schema_of(alloc, &x.name)?,
        name: last_of(alloc, &x.name)?,
        if_not_exists: x.if_not_exists,
        columns,
        keys: keys(table_keys(alloc, x.elements.as_slice())?),
    })
}

/// A new enumeration.
pub fn enum_asked(alloc: Global, catalogue: &Catalogue, x: &CreateType) -> Result<Change, Fault>
    ensures { Gives (spec.enum_asked catalogue.now x.now) result }
{
    check_home(alloc, catalogue, &x.name)?;
    Ok(Change::CreateEnum {
        schema: schema_of(alloc, &x.name)?,
        name: last_of(alloc, &x.name)?,
        labels: labels(alloc, &x.labels)?,
    })
}

/// A new domain.
pub fn domain_asked(alloc: Global, catalogue: &Catalogue, x: &CreateDomain) -> Result<Change, Fault>
    ensures { Gives (spec.domain_asked catalogue.now x.now) result }
{
    check_home(alloc, catalogue, &x.name)?;
    let base = type_of(alloc, catalogue, false, &x.base)?;
    Ok(Change::CreateDomain {
        schema: schema_of(alloc, &x.name)?,
        name: last_of(alloc, &x.name)?,
        base: base.of,
    })
}

/// A schema goes.
pub fn schema_drop_asked(alloc: Global, x: &DropSchema, name: &Identifier) -> Result<Change, Fault>
    ensures { Gives (spec.schema_drop_asked x.now name.now) result }
{
    Ok(Change::DropSchema {
        name: text(alloc, name)?,
        if_exists: x.if_exists,
        cascade: is_cascade(x.behavior),
    })
}

fn drop_of(kind: Dropped, cascade: bool, of: Target) -> Change
    ensures { result ≡ spec.drop_of kind cascade of }
{
    match kind {
        Dropped::Table => Change::DropTable { table: of },
        Dropped::Type => Change::DropType { of, cascade },
        Dropped::Domain => Change::DropDomain { of, cascade },
    }
}

/// A table, a type or a domain goes.
pub fn drop_asked(
    alloc: Global,
    catalogue: &Catalogue,
    x: &DropNamed,
    name: &QualifiedName,
) -> Result<Change, Fault>
    ensures { Gives (spec.drop_asked catalogue.now x.now name.now) result }
{
    check_home(alloc, catalogue, name)?;
    let of = target(alloc, x.if_exists, name)?;
    Ok(drop_of(x.kind, is_cascade(x.behavior), of))
}
