use sq_base::{List, Name, PgType};

/// A column of a table.
#[derive(Debug, Drop)]
pub struct Column {
    pub name: Name,
    pub of: PgType,
    pub not_null: bool,
}

/// A primary key: its name, and the places of its columns in the table, from 0.
#[derive(Debug, Drop)]
pub struct Key {
    pub name: Name,
    pub columns: List<u32>,
}

/// A table, with the id that no other table, enumeration or domain of the catalogue has.
#[derive(Debug, Drop)]
pub struct Table {
    pub id: u32,
    pub schema: Name,
    pub name: Name,
    pub columns: List<Column>,
    pub key: Option<Key>,
}

/// An enumeration with its labels in order.
#[derive(Debug, Drop)]
pub struct EnumType {
    pub id: u32,
    pub schema: Name,
    pub name: Name,
    pub labels: List<Name>,
}

/// A domain over a base type.
#[derive(Debug, Drop)]
pub struct DomainType {
    pub id: u32,
    pub schema: Name,
    pub name: Name,
    pub base: PgType,
}
