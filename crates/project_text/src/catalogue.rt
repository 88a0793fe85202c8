//! A catalogue, printed.

use sq_base::{Name, PgType, Scalar};
use sq_catalog::{Catalogue, DomainType, EnumType, Table, primary_key};
use std::alloc::{AllocError, Global};
use type_text::show_type;

/// More enumerations, and more domains, than a case has.
const MOST_TYPES: usize = 64;

/// A type by its name; an enumeration or a domain by its id.
fn show_column_type(alloc: Global, text: &mut String, of: PgType) -> Result<(), AllocError> {
    let (word, id) = match of.scalar {
        Scalar::Enum(id) => ("enum", id),
        Scalar::Domain(id) => ("domain", id),
        _ => return show_type(text, of),
    };
    let mark = if of.array { "[]" } else { "" };
    text.push_str(format!(in alloc; "{word} {id}{mark}")?.as_str())
}

/// A name, with its schema where that is not public.
fn show_name(text: &mut String, schema: &Name, name: &Name) -> Result<(), AllocError> {
    if schema.as_str() != "public" {
        text.push_str(schema.as_str())?;
        text.push('.')?;
    }
    text.push_str(name.as_str())
}

fn show_columns(alloc: Global, text: &mut String, table: &Table) -> Result<(), AllocError> {
    for (at, column) in table.columns.as_slice().iter().enumerate() {
        text.push_str(if at > 0 { ", " } else { "" })?;
        text.push_str(column.name.as_str())?;
        text.push(' ')?;
        show_column_type(alloc, text, column.of)?;
        text.push_str(if column.not_null { "!" } else { "" })?;
    }
    Ok(())
}

fn show_key(text: &mut String, table: &Table) -> Result<(), AllocError> {
    let Some(key) = primary_key(table) else {
        return Ok(());
    };
    text.push_str(" key ")?;
    text.push_str(key.name.as_str())?;
    text.push('(')?;
    for (at, place) in key.columns.as_slice().iter().enumerate() {
        text.push_str(if at > 0 { ", " } else { "" })?;
        text.push_str(match table.columns.get(*place as usize) {
            Some(column) => column.name.as_str(),
            None => "no column",
        })?;
    }
    text.push(')')
}

fn show_enum(text: &mut String, of: &EnumType) -> Result<(), AllocError> {
    text.push_str("enum ")?;
    show_name(text, &of.schema, &of.name)?;
    text.push('{')?;
    for (at, label) in of.labels.as_slice().iter().enumerate() {
        text.push_str(if at > 0 { ", " } else { "" })?;
        text.push_str(label.as_str())?;
    }
    text.push_str("}\n")
}

fn show_domain(
    alloc: Global,
    text: &mut String,
    catalogue: &Catalogue,
    of: &DomainType,
) -> Result<(), AllocError> {
    text.push_str("domain ")?;
    show_name(text, &of.schema, &of.name)?;
    text.push(' ')?;
    let domain = PgType {
        scalar: Scalar::Domain(of.id),
        array: false,
    };
    show_column_type(alloc, text, catalogue.base(domain))?;
    text.push('\n')
}

/// Writes the tables, the enumerations and the domains, each on a line of its own.
pub fn show_catalogue(
    alloc: Global,
    text: &mut String,
    catalogue: &Catalogue,
) -> Result<(), AllocError> {
    for table in catalogue.tables() {
        show_name(text, &table.schema, &table.name)?;
        text.push('(')?;
        show_columns(alloc, text, table)?;
        text.push(')')?;
        show_key(text, table)?;
        text.push('\n')?;
    }
    for index in 0..MOST_TYPES {
        if let Some(of) = catalogue.enum_at(index) {
            show_enum(text, of)?;
        }
    }
    for index in 0..MOST_TYPES {
        if let Some(of) = catalogue.domain_at(index) {
            show_domain(alloc, text, catalogue, of)?;
        }
    }
    Ok(())
}
