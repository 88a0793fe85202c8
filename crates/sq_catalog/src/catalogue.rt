//! The catalogue and its look-ups.

ghost use Rattle.std.specs.Prelude.{◌≡◌, ◌<◌, ◌+◌, IfOk, IfSome, MatchOption, None, Ok, Some, length, slice_get};
ghost use Rattle.std.specs.Option.{option_copied};
ghost use Rattle.sq_catalog.specs.Answers.{Gives};
ghost use Rattle.sq_catalog.specs.Schemas.{has_schema};
ghost use Rattle.sq_catalog.specs.Catalogue.{empty, is_named, table_named, place_of_table, placed_table, Steps};

use crate::{Change, ChangeFault, DomainType, EnumType, Table};
use sq_base::Name;
use std::alloc::{AllocError, Global};
use std::marker::Model;

/// The schemas' contents, as the changes so far have made them.
#[derive(Debug, Drop)]
pub struct Catalogue {
    pub(crate) alloc: Global,
    pub(crate) schemas: Vec<Name>,
    pub(crate) tables: Vec<Table>,
    pub(crate) enums: Vec<EnumType>,
    pub(crate) domains: Vec<DomainType>,
    pub(crate) given: u32,
}

impl Model for Catalogue {
    ghost use Rattle.sq_catalog.specs.Contents.{Contents};

    ghost Value = { Contents };

    ghost view = { λ c. record { schemas = c.schemas.items; tables = c.tables.items; enums = c.enums.items; domains = c.domains.items; given = c.given } };
}

// Whether a table has this schema and this name.
fn is_named(table: &Table, schema: &str, name: &str) -> bool
    ensures { result ≡ is_named table.now schema.now name.now }
{
    table.schema.as_str() == schema && table.name.as_str() == name
}

impl Catalogue {
    /// A catalogue with the schema `public` and nothing in it.
    pub fn new(alloc: Global) -> Result<Catalogue, AllocError>
        ensures { IfOk result (λ catalogue. catalogue ≡ empty) }
    {
        let mut schemas = Vec::new(alloc);
        schemas.push(Name::new(alloc, "public")?)?;
        Ok(Catalogue {
            alloc,
            schemas,
            tables: Vec::new(alloc),
            enums: Vec::new(alloc),
            domains: Vec::new(alloc),
            given: 0,
        })
    }

    /// Whether there is a schema of this name.
    pub fn has_schema(&self, schema: &str) -> bool
        ensures { result ≡ has_schema self.now schema.now }
    {
        self.schemas
            .as_slice()
            .iter()
            .any(|name| name.as_str() == schema)
    }

    // How many ids are given with one more.
    pub(crate) fn one_more_given(&self) -> Result<u32, ChangeFault>
        ensures { Gives (Ok (self.now.given + 1)) result }
    {
        match self.given.checked_add(1) {
            Some(given) => Ok(given),
            None => Err(ChangeFault::Memory),
        }
    }

    /// Makes a change, or refuses it and leaves the catalogue as it was.
    pub fn apply(&mut self, change: Change) -> Result<(), ChangeFault>
        ensures { Steps self.old change self.new result }
    {
        match change {
            Change::CreateSchema {
                name,
                if_not_exists,
            } => self.create_schema(name, if_not_exists),
            Change::CreateTable {
                schema,
                name,
                if_not_exists,
                columns,
                keys,
            } => self.create_table(schema, name, if_not_exists, columns, keys),
            Change::DropTable { table } => self.drop_table(table),
            Change::AlterTable { table, action } => self.alter_table(table, action),
            Change::RenameTable { table, to } => self.rename_table(table, to),
            Change::SetTableSchema { table, to } => self.move_table(table, to),
            Change::CreateEnum {
                schema,
                name,
                labels,
            } => self.create_enum(schema, name, labels),
            Change::CreateDomain { schema, name, base } => self.create_domain(schema, name, base),
            Change::AddValue {
                schema,
                name,
                label,
                if_not_exists,
                beside,
            } => self.add_value(schema, name, label, if_not_exists, beside),
            Change::RenameValue {
                schema,
                name,
                from,
                to,
            } => self.rename_value(schema, name, from, to),
            Change::RenameType { schema, name, to } => self.rename_type(schema, name, to),
            Change::SetTypeSchema { schema, name, to } => self.move_type(schema, name, to),
            Change::DropType { of, cascade } => self.drop_type(of, cascade),
            Change::DropDomain { of, cascade } => self.drop_domain(of, cascade),
            Change::DropSchema {
                name,
                if_exists,
                cascade,
            } => self.drop_schema(name, if_exists, cascade),
        }
    }

    /// The table of this name in this schema.
    pub fn table(&self, schema: &str, name: &str) -> Option<&Table>
        ensures { option_copied result ≡ table_named self.now schema.now name.now }
    {
        self.tables
            .as_slice()
            .iter()
            .find(|table| is_named(table, schema, name))
    }

    // The place of the table of this name in this schema.
    pub(crate) fn place_of(&self, schema: &str, name: &str) -> Option<usize>
        ensures place { result ≡ place_of_table self.now schema.now name.now }
        ensures within { IfSome result (λ at. at < length self.now.tables) }
    {
        self.tables
            .as_slice()
            .iter()
            .position(|table| is_named(table, schema, name))
    }

    /// All tables, in the order in which they were made.
    pub fn tables(&self) -> &[Table]
        ensures { result.now ≡ self.now.tables }
    {
        self.tables.as_slice()
    }

    /// The table of this name in this schema, and its place in the order in which they were made.
    pub fn placed_table(&self, schema: &str, name: &str) -> Option<(usize, &Table)>
        ensures { MatchOption result (placed_table self.now schema.now name.now ≡ None) (λ r. placed_table self.now schema.now name.now ≡ Some (r.0, r.1.now)) }
    {
        let place = self.place_of(schema, name)?;
        let table = self.table_at(place)?;
        Some((place, table))
    }

    /// The table at this place in the order in which they were made.
    pub fn table_at(&self, index: usize) -> Option<&Table>
        ensures { option_copied result ≡ slice_get self.now.tables index }
    {
        self.tables.get(index)
    }
}
