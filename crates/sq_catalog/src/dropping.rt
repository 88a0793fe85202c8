//! What goes with a type or a schema.

ghost use Rattle.std.specs.Prelude.{◌≡◌, ◌<◌, ◌&&◌, IfOk, Ok, IsTrue, OnOk, List, ℕ, filter, length, map, not};
ghost use Rattle.std.specs.List.{filter_map, list_any};
ghost use Rattle.std.specs.Str.{bytes_eq};
ghost use Rattle.sq_catalog.specs.declared.table.Table.{Table};
ghost use Rattle.sq_catalog.specs.Answers.{Answers};
ghost use Rattle.sq_catalog.specs.Dropping.{id_of, has_id, is_of, uses, is_over, in_use, with_fallen, fallen, goes_at, strip_at, stripped, enum_stays, domain_stays, without_types, id_dropped, type_id, type_dropped, domain_id, domain_dropped, table_in, enum_in, domain_in, enum_id_in, domain_id_in, holds, types_in, without_schema, without_held, held_dropped, schema_dropped};

use crate::keys::drop_at;
use crate::{Catalogue, Cause, ChangeFault, DomainType, EnumType, Table, Target};
use sq_base::{Name, PgType, Scalar};
use std::alloc::{AllocError, Global};

// The id of an enumeration or a domain.
fn id_of(scalar: Scalar) -> Option<u32>
    ensures { result ≡ id_of scalar }
{
    match scalar {
        Scalar::Enum(id) => Some(id),
        Scalar::Domain(id) => Some(id),
        _ => None,
    }
}

// Whether an id is one of these.
fn has_id(ids: &[u32], id: u32) -> bool
    ensures { result ≡ has_id ids.now id }
{
    ids.iter().any(|other| *other == id)
}

// Whether a type is one of these enumerations and domains, or an array of one.
fn is_of(ids: &[u32], of: PgType) -> bool
    ensures { result ≡ is_of ids.now of }
{
    match id_of(of.scalar) {
        Some(id) => has_id(ids, id),
        None => false,
    }
}

// Whether a table has a column of one of these types.
fn uses(ids: &[u32], table: &Table) -> bool
    ensures { result ≡ uses ids.now table.now }
{
    table
        .columns
        .as_slice()
        .iter()
        .any(|column| is_of(ids, column.of))
}

// Whether a domain is over one of these types.
fn is_over(ids: &[u32], of: &DomainType) -> bool
    ensures { result ≡ is_over ids.now of.now }
{
    is_of(ids, of.base)
}

// Whether one of these tables has a column of one of these types.
fn any_uses(ids: &[u32], tables: &[Table]) -> bool
    ensures { result ≡ list_any (uses ids.now) tables.now }
{
    tables.iter().any(|table| uses(ids, table))
}

// Whether one of these domains is over one of these types.
fn any_is_over(ids: &[u32], domains: &[DomainType]) -> bool
    ensures { result ≡ list_any (is_over ids.now) domains.now }
{
    domains.iter().any(|of| is_over(ids, of))
}

// Whether one of these tables stands in this schema.
fn has_table(schema: &str, tables: &[Table]) -> bool
    ensures { result ≡ list_any (table_in schema.now) tables.now }
{
    tables.iter().any(|table| table.schema.as_str() == schema)
}

// Whether one of these enumerations stands in this schema.
fn has_enum(schema: &str, enums: &[EnumType]) -> bool
    ensures { result ≡ list_any (enum_in schema.now) enums.now }
{
    enums.iter().any(|of| of.schema.as_str() == schema)
}

// Whether one of these domains stands in this schema.
fn has_domain(schema: &str, domains: &[DomainType]) -> bool
    ensures { result ≡ list_any (domain_in schema.now) domains.now }
{
    domains.iter().any(|of| of.schema.as_str() == schema)
}

// Adds the id of a domain over one of these types.
fn add_fallen(ids: &mut Vec<u32>, of: &DomainType) -> Result<(), AllocError>
    ensures { OnOk result (ids.new.items ≡ with_fallen ids.old.items of.now) }
{
    if is_over(ids.as_slice(), of) {
        ids.push(of.id)?;
    }
    Ok(())
}

// These ids, and in turn those of all domains over one of them.
fn fallen(ids: Vec<u32>, domains: &[DomainType]) -> Result<Vec<u32>, AllocError>
    ensures { IfOk result (λ all. all.items ≡ fallen ids.items domains.now) }
{
    let mut all = ids;
    for of in domains {
        add_fallen(&mut all, of)?;
    }
    Ok(all)
}

// Whether the column at a place has one of these types.
fn goes_at(ids: &[u32], table: &Table, at: usize) -> bool
    ensures value { result ≡ goes_at ids.now table.now at }
    ensures within { IsTrue result → at < length table.now.columns }
{
    match table.columns.get(at) {
        Some(column) => is_of(ids, column.of),
        None => false,
    }
}

// Takes the column at a place away where it has one of these types.
fn strip_at(alloc: Global, ids: &[u32], table: &mut Table, at: usize)
    ensures { table.new ≡ strip_at ids.now table.old at }
{
    if goes_at(ids, table, at) {
        drop_at(alloc, table, at);
    }
}

// Takes the columns of these types from a table.
#[tactic(auto, using(crate::proofs::Stripped::below))]
fn strip(alloc: Global, ids: &[u32], table: &mut Table)
    ensures { table.new ≡ stripped ids.now table.old }
{
    let mut left = table.columns.len();
    while left > 0 {
        left -= 1;
        strip_at(alloc, ids, table, left);
    }
}

// Takes the columns of these types from all tables.
fn strip_all(alloc: Global, ids: &[u32], tables: &mut [Table])
    ensures { tables.new ≡ map (stripped ids.now) tables.old }
{
    for table in tables.iter_mut() {
        strip(alloc, ids, table);
    }
}

// Takes these enumerations away.
fn keep_enums(ids: &[u32], enums: &mut Vec<EnumType>)
    ensures { enums.new.items ≡ filter (enum_stays ids.now) enums.old.items }
{
    enums.retain(|of| !has_id(ids, of.id));
}

// Takes these domains away.
fn keep_domains(ids: &[u32], domains: &mut Vec<DomainType>)
    ensures { domains.new.items ≡ filter (domain_stays ids.now) domains.old.items }
{
    domains.retain(|of| !has_id(ids, of.id));
}

// Takes the tables of a schema away.
fn keep_tables(schema: &str, tables: &mut Vec<Table>)
    ensures { tables.new.items ≡ filter (λ (table : Table). not (table_in schema.now table)) tables.old.items }
{
    tables.retain(|table| table.schema.as_str() != schema);
}

// Takes a schema away.
fn keep_schemas(schema: &str, schemas: &mut Vec<Name>)
    ensures { schemas.new.items ≡ filter (λ (name : List ℕ). not (bytes_eq name schema.now)) schemas.old.items }
{
    schemas.retain(|name| name.as_str() != schema);
}

// The id of an enumeration, where it stands in this schema.
fn enum_id_in(schema: &str, of: &EnumType) -> Option<u32>
    ensures { result ≡ enum_id_in schema.now of.now }
{
    if of.schema.as_str() == schema {
        Some(of.id)
    } else {
        None
    }
}

// The id of a domain, where it stands in this schema.
fn domain_id_in(schema: &str, of: &DomainType) -> Option<u32>
    ensures { result ≡ domain_id_in schema.now of.now }
{
    if of.schema.as_str() == schema {
        Some(of.id)
    } else {
        None
    }
}

// The ids of a schema's enumerations.
fn enums_in(alloc: Global, schema: &str, enums: &[EnumType]) -> Result<Vec<u32>, AllocError>
    ensures { IfOk result (λ ids. ids.items ≡ filter_map (enum_id_in schema.now) enums.now) }
{
    enums
        .iter()
        .filter_map(|of| enum_id_in(schema, of))
        .collect(alloc)
}

// The ids of a schema's domains.
fn domains_in(alloc: Global, schema: &str, domains: &[DomainType]) -> Result<Vec<u32>, AllocError>
    ensures { IfOk result (λ ids. ids.items ≡ filter_map (domain_id_in schema.now) domains.now) }
{
    domains
        .iter()
        .filter_map(|of| domain_id_in(schema, of))
        .collect(alloc)
}

impl Catalogue {
    // Whether a column or a domain has one of these types.
    fn in_use(&self, ids: &[u32]) -> bool
        ensures { result ≡ in_use self.now ids.now }
    {
        any_uses(ids, self.tables.as_slice()) || any_is_over(ids, self.domains.as_slice())
    }

    // Takes these types away, and the columns that have one.
    fn remove_types(&mut self, ids: &[u32])
        ensures { self.new ≡ without_types self.old ids.now }
    {
        strip_all(self.alloc, ids, self.tables.as_mut_slice());
        keep_enums(ids, &mut self.enums);
        keep_domains(ids, &mut self.domains);
    }

    // Takes a type away, and under CASCADE what has it.
    fn drop_id(&mut self, name: Name, id: u32, cascade: bool) -> Result<(), ChangeFault>
        ensures { Answers self.old (id_dropped self.old name id cascade) self.new result }
    {
        let mut ids = Vec::new(self.alloc);
        ids.push(id)?;
        if !cascade && self.in_use(ids.as_slice()) {
            return Err(ChangeFault::Refused(Cause::InUse(name)));
        }
        let all = fallen(ids, self.domains.as_slice())?;
        self.remove_types(all.as_slice());
        Ok(())
    }

    // The id of the enumeration or domain of this name in this schema.
    fn type_id(&self, schema: &str, name: &str) -> Option<u32>
        ensures { result ≡ type_id self.now schema.now name.now }
    {
        let of = self.type_named(schema, name)?;
        id_of(of.scalar)
    }

    // The id of the domain of this name in this schema.
    fn domain_id(&self, schema: &str, name: &str) -> Option<u32>
        ensures { result ≡ domain_id self.now schema.now name.now }
    {
        let of = self.domain_named(schema, name)?;
        Some(of.id)
    }

    // Takes an enumeration or a domain away.
    pub(crate) fn drop_type(&mut self, of: Target, cascade: bool) -> Result<(), ChangeFault>
        ensures { Answers self.old (type_dropped self.old of cascade) self.new result }
    {
        match self.type_id(of.schema.as_str(), of.name.as_str()) {
            Some(id) => self.drop_id(of.name, id, cascade),
            None if of.if_exists => Ok(()),
            None => Err(ChangeFault::Refused(Cause::Missing(of.name))),
        }
    }

    // Takes a domain away.
    pub(crate) fn drop_domain(&mut self, of: Target, cascade: bool) -> Result<(), ChangeFault>
        ensures { Answers self.old (domain_dropped self.old of cascade) self.new result }
    {
        match self.domain_id(of.schema.as_str(), of.name.as_str()) {
            Some(id) => self.drop_id(of.name, id, cascade),
            None if of.if_exists => Ok(()),
            None => Err(ChangeFault::Refused(Cause::Missing(of.name))),
        }
    }

    // The ids of a schema's types.
    fn types_in(&self, schema: &str) -> Result<Vec<u32>, AllocError>
        ensures { IfOk result (λ ids. ids.items ≡ types_in self.now schema.now) }
    {
        let mut ids = enums_in(self.alloc, schema, self.enums.as_slice())?;
        let more = domains_in(self.alloc, schema, self.domains.as_slice())?;
        ids.extend_from_slice(more.as_slice())?;
        Ok(ids)
    }

    // Whether a schema holds a table or a type.
    fn holds(&self, schema: &str) -> bool
        ensures { result ≡ holds self.now schema.now }
    {
        has_table(schema, self.tables.as_slice())
            || has_enum(schema, self.enums.as_slice())
            || has_domain(schema, self.domains.as_slice())
    }

    // Takes a schema and its tables away.
    fn remove_schema(&mut self, schema: &str)
        ensures { self.new ≡ without_schema self.old schema.now }
    {
        keep_schemas(schema, &mut self.schemas);
        keep_tables(schema, &mut self.tables);
    }

    // Whether what a schema holds keeps it from going.
    fn is_in_the_way(&self, schema: &str, cascade: bool) -> bool
        ensures { result ≡ (not cascade && holds self.now schema.now) }
    {
        !cascade && self.holds(schema)
    }

    // Takes a schema away, all that it holds, and all that has one of its types.
    fn remove_held(&mut self, schema: &str) -> Result<(), ChangeFault>
        ensures { Answers self.old (Ok (without_held self.old schema.now)) self.new result }
    {
        let ids = self.types_in(schema)?;
        let all = fallen(ids, self.domains.as_slice())?;
        self.remove_schema(schema);
        self.remove_types(all.as_slice());
        Ok(())
    }

    // Takes a schema away, and under CASCADE what it holds.
    fn drop_held(&mut self, schema: Name, cascade: bool) -> Result<(), ChangeFault>
        ensures { Answers self.old (held_dropped self.old schema cascade) self.new result }
    {
        if self.is_in_the_way(schema.as_str(), cascade) {
            return Err(ChangeFault::Refused(Cause::InUse(schema)));
        }
        self.remove_held(schema.as_str())
    }

    // Takes a schema away that is there.
    pub(crate) fn drop_schema(
        &mut self,
        schema: Name,
        if_exists: bool,
        cascade: bool,
    ) -> Result<(), ChangeFault>
        ensures { Answers self.old (schema_dropped self.old schema if_exists cascade) self.new result }
    {
        if self.has_schema(schema.as_str()) {
            return self.drop_held(schema, cascade);
        }
        if if_exists {
            return Ok(());
        }
        Err(ChangeFault::Refused(Cause::Missing(schema)))
    }
}
