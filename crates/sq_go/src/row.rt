//! The type of a query's rows, and where they are scanned to.

ghost use Rattle.std.specs.Prelude.{◌≡◌, ◌++◌, ℕ, nat_eq, find, IfOk, OnOk, map, flat_map, option_map, codes};
ghost use Rattle.std.specs.List.{list_any};
ghost use Rattle.sq_shown.specs.Layout.{field_target, forms, has_own_struct, is_of_sql, model_name, model_of, row_forms, row_type, target_line, targets};

use crate::line::{push_framed, push_text};
use sq_base::{List, Name};
use sq_shown::{ModelDecl, Shown, ShownField, model_identifier};
use std::alloc::{AllocError, Global};

// The identifier of the model of this id.
fn model_with_id(alloc: Global, models: &[ModelDecl], id: u32) -> Result<Option<Name>, AllocError>
    ensures { IfOk result (λ found. found ≡ option_map model_name (find (λ model. nat_eq model.id id) models.now)) }
{
    for model in models {
        if model.id == id {
            return Ok(Some(model_identifier(alloc, &model.schema, &model.name)?));
        }
    }
    Ok(None)
}

/// The identifier of the model whose rows a query gives.
pub fn model_of(
    alloc: Global,
    models: &[ModelDecl],
    id: Option<u32>,
) -> Result<Option<Name>, AllocError>
    ensures { IfOk result (λ found. found ≡ model_of models.now id) }
{
    match id {
        Some(id) => model_with_id(alloc, models, id),
        None => Ok(None),
    }
}

/// The name of the struct of a query's own.
pub fn row_name(alloc: Global, query: &Shown) -> Result<List<u8>, AllocError>
    ensures { IfOk result (λ name. name ≡ query.now.name ++ codes "Row") }
{
    let mut name = List::from_slice(alloc, query.name.as_bytes())?;
    push_text(&mut name, "Row")?;
    Ok(name)
}

/// The type of a query's rows.
pub fn row_type(alloc: Global, model: &Option<Name>, query: &Shown) -> Result<List<u8>, AllocError>
    ensures { IfOk result (λ row. row ≡ row_type model.now query.now.name query.now.columns) }
{
    if let [column] = query.columns.as_slice() {
        return List::from_slice(alloc, column.of.as_bytes());
    }
    match model {
        Some(identifier) => List::from_slice(alloc, identifier.as_bytes()),
        None => row_name(alloc, query),
    }
}

/// Whether a query has a struct of its own.
pub fn has_own_struct(model: &Option<Name>, columns: &[ShownField]) -> bool
    ensures { result ≡ has_own_struct model.now columns.now }
{
    match columns {
        [_] => false,
        _ => model.is_none(),
    }
}

/// Whether a form is a type of the package database/sql.
fn is_of_sql(form: &Name) -> bool
    ensures { result ≡ is_of_sql form.now }
{
    form.as_bytes().starts_with(b"sql.")
}

/// Whether fields have a type of the package database/sql.
pub fn use_sql(fields: &[ShownField]) -> bool
    ensures { result ≡ list_any is_of_sql (forms fields.now) }
{
    for field in fields {
        if is_of_sql(&field.of) {
            return true;
        }
    }
    false
}

/// Whether the declarations of a query use a type of the package database/sql.
pub fn row_uses_sql(model: &Option<Name>, columns: &[ShownField]) -> bool
    ensures { result ≡ list_any is_of_sql (row_forms model.now columns.now) }
{
    if let [column] = columns {
        return is_of_sql(&column.of);
    }
    match model {
        Some(_) => false,
        None => use_sql(columns),
    }
}

// Appends the lines that scan to the fields of a struct.
fn push_field_targets(out: &mut List<u8>, columns: &[ShownField]) -> Result<(), AllocError>
    ensures { OnOk result (out.new ≡ out.old ++ flat_map target_line (map field_target columns.now)) }
{
    for column in columns {
        push_framed(out, "\t\t\t&i.", column.name.as_bytes(), ",")?;
    }
    Ok(())
}

/// Appends the lines that say where the columns are scanned to.
pub fn push_targets(out: &mut List<u8>, columns: &[ShownField]) -> Result<(), AllocError>
    ensures { OnOk result (out.new ≡ out.old ++ flat_map target_line (targets columns.now)) }
{
    match columns {
        [_] => push_framed(out, "\t\t\t", b"&i", ","),
        _ => push_field_targets(out, columns),
    }
}
