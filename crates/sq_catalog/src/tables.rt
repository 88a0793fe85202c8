//! The changes of schemas and tables.

ghost use Rattle.std.specs.Prelude.{◌≡◌, ◌<◌, ◌∷◌, ◌++◌, [], Ok, Err, length};
ghost use Rattle.std.specs.Option.{option_copied};
ghost use Rattle.sq_catalog.specs.Answers.{Answers, Gives, and_then};
ghost use Rattle.sq_catalog.specs.Columns.{change_at};
ghost use Rattle.sq_catalog.specs.Keys.{completed};
ghost use Rattle.sq_catalog.specs.Catalogue.{schema_created, is_repeated, repeated_column, distinct, new_table, bare, with_new, table_made, table_created, table_dropped, with_table_at, titled, housed, renamed_at, moved_at, table_altered, table_renamed, table_moved};

use crate::action::act;
use crate::keys::complete;
use crate::{Action, Catalogue, Cause, ChangeFault, Column, Keys, Table, Target};
use sq_base::{List, Name};
use std::alloc::Global;

// Whether one of these columns has the name of this one.
fn is_repeated(column: &Column, columns: &[Column]) -> bool
    ensures { result ≡ is_repeated column.now columns.now }
{
    columns
        .iter()
        .any(|other| other.name.as_str() == column.name.as_str())
}

// The first name of a column that a later column has too.
fn repeated_column(columns: &[Column]) -> Option<&Name>
    ensures { option_copied result ≡ repeated_column columns.now }
{
    for at in 0..columns.len() {
        let column = &columns[at];
        let (_, later) = columns.split_at(at + 1);
        let again = is_repeated(column, later);
        if again {
            return Some(&column.name);
        }
    }
    None
}

// Refuses columns of one name.
fn check_columns(alloc: Global, columns: &[Column]) -> Result<(), ChangeFault>
    ensures { Gives (distinct columns.now) result }
{
    match repeated_column(columns) {
        Some(name) => {
            let name = name.copy(alloc)?;
            Err(ChangeFault::Refused(Cause::Exists(name)))
        }
        None => Ok(()),
    }
}

// A table whose columns have different names, with the key that a statement asks for.
fn new_table(alloc: Global, table: Table, keys: Keys) -> Result<Table, ChangeFault>
    ensures { Gives (new_table table keys) result }
{
    let mut table = table;
    check_columns(alloc, table.columns.as_slice())?;
    complete(alloc, &mut table, keys)?;
    Ok(table)
}

// Gives the table at a place another name.
fn set_name(tables: &mut Vec<Table>, at: usize, name: Name)
    requires { at < length tables.old.items }
    ensures { tables.new.items ≡ change_at (titled name) tables.old.items at }
{
    tables[at].name = name;
}

// Brings the table at a place into another schema.
fn set_schema(tables: &mut Vec<Table>, at: usize, schema: Name)
    requires { at < length tables.old.items }
    ensures { tables.new.items ≡ change_at (housed schema) tables.old.items at }
{
    tables[at].schema = schema;
}

impl Catalogue {
    // Makes a schema.
    pub(crate) fn create_schema(
        &mut self,
        name: Name,
        if_not_exists: bool,
    ) -> Result<(), ChangeFault>
        ensures { Answers self.old (schema_created self.old name if_not_exists) self.new result }
    {
        if !self.has_schema(name.as_str()) {
            self.schemas.push(name)?;
            return Ok(());
        }
        if if_not_exists || name.as_str() == "public" {
            return Ok(());
        }
        Err(ChangeFault::Refused(Cause::Exists(name)))
    }

    // Adds a table, which has the next id.
    fn add_table(&mut self, table: Table) -> Result<(), ChangeFault>
        ensures { Answers self.old (Ok (with_new self.old table)) self.new result }
    {
        let given = self.one_more_given()?;
        self.tables.push(table)?;
        self.given = given;
        Ok(())
    }

    // Makes a table.
    fn make_table(
        &mut self,
        schema: Name,
        name: Name,
        columns: List<Column>,
        keys: Keys,
    ) -> Result<(), ChangeFault>
        ensures { Answers self.old (table_made self.old schema name columns keys) self.new result }
    {
        let bare = Table {
            id: self.given,
            schema,
            name,
            columns,
            key: None,
        };
        let table = new_table(self.alloc, bare, keys)?;
        self.add_table(table)
    }

    // Makes a table whose name must be free.
    pub(crate) fn create_table(
        &mut self,
        schema: Name,
        name: Name,
        if_not_exists: bool,
        columns: List<Column>,
        keys: Keys,
    ) -> Result<(), ChangeFault>
        ensures { Answers self.old (table_created self.old schema name if_not_exists columns keys) self.new result }
    {
        match self.place_of(schema.as_str(), name.as_str()) {
            Some(_) if if_not_exists => Ok(()),
            Some(_) => Err(ChangeFault::Refused(Cause::Exists(name))),
            None => self.make_table(schema, name, columns, keys),
        }
    }

    // Takes a table away.
    pub(crate) fn drop_table(&mut self, table: Target) -> Result<(), ChangeFault>
        ensures { Answers self.old (table_dropped self.old table) self.new result }
    {
        match self.place_of(table.schema.as_str(), table.name.as_str()) {
            Some(at) => {
                self.tables.remove(at);
                Ok(())
            }
            None if table.if_exists => Ok(()),
            None => Err(ChangeFault::Refused(Cause::Missing(table.name))),
        }
    }

    // Makes a change of one table.
    pub(crate) fn alter_table(&mut self, table: Target, action: Action) -> Result<(), ChangeFault>
        ensures { Answers self.old (table_altered self.old table action) self.new result }
    {
        match self.place_of(table.schema.as_str(), table.name.as_str()) {
            Some(at) => act(self.alloc, &mut self.tables[at], action),
            None if table.if_exists => Ok(()),
            None => Err(ChangeFault::Refused(Cause::Missing(table.name))),
        }
    }

    // Gives the table at a place a name that must be free in its schema.
    fn rename_at(&mut self, at: usize, schema: Name, to: Name) -> Result<(), ChangeFault>
        requires { at < length self.old.tables }
        ensures { Answers self.old (renamed_at self.old at schema to) self.new result }
    {
        match self.place_of(schema.as_str(), to.as_str()) {
            Some(_) => Err(ChangeFault::Refused(Cause::Exists(to))),
            None => {
                set_name(&mut self.tables, at, to);
                Ok(())
            }
        }
    }

    // Brings the table at a place into a schema where its name must be free.
    fn move_at(&mut self, at: usize, name: Name, to: Name) -> Result<(), ChangeFault>
        requires { at < length self.old.tables }
        ensures { Answers self.old (moved_at self.old at name to) self.new result }
    {
        match self.place_of(to.as_str(), name.as_str()) {
            Some(_) => Err(ChangeFault::Refused(Cause::Exists(name))),
            None => {
                set_schema(&mut self.tables, at, to);
                Ok(())
            }
        }
    }

    // Gives a table a name that must be free in its schema.
    pub(crate) fn rename_table(&mut self, table: Target, to: Name) -> Result<(), ChangeFault>
        ensures { Answers self.old (table_renamed self.old table to) self.new result }
    {
        match self.place_of(table.schema.as_str(), table.name.as_str()) {
            Some(at) => self.rename_at(at, table.schema, to),
            None if table.if_exists => Ok(()),
            None => Err(ChangeFault::Refused(Cause::Missing(table.name))),
        }
    }

    // Brings a table into a schema where its name must be free.
    pub(crate) fn move_table(&mut self, table: Target, to: Name) -> Result<(), ChangeFault>
        ensures { Answers self.old (table_moved self.old table to) self.new result }
    {
        match self.place_of(table.schema.as_str(), table.name.as_str()) {
            Some(at) => self.move_at(at, table.name, to),
            None if table.if_exists => Ok(()),
            None => Err(ChangeFault::Refused(Cause::Missing(table.name))),
        }
    }
}
