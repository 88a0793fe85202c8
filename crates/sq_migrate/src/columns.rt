//! The columns and keys of statements.

ghost use Rattle.std.specs.Prelude.{◌≡◌, ◌++◌, [], IfOk, map};
ghost use Rattle.sq_migrate.specs.Columns as spec;
ghost use Rattle.sq_migrate.specs.Columns.{and_key};
ghost use Rattle.sq_base.specs.Answers.{Gives};

use crate::types::{Typed, type_of};
use sq_base::{Fault, List, Name};
use sq_catalog::{Catalogue, Column, Keys, NewKey};
use sq_syntax::{
    Constraint, ConstraintForm, Element, Identifier, TableConstraint, TableConstraintForm,
};
use std::alloc::{AllocError, Global};

/// The text of a name.
pub fn text(alloc: Global, x: &Identifier) -> Result<Name, AllocError>
    ensures { IfOk result (λ text. text ≡ spec.text x.now) }
{
    x.name.copy(alloc)
}

fn text_if_any(alloc: Global, x: &Option<Identifier>) -> Result<Option<Name>, AllocError>
    ensures { IfOk result (λ text. text ≡ spec.text_if_any x.now) }
{
    match x {
        Some(x) => Ok(Some(text(alloc, x)?)),
        None => Ok(None),
    }
}

fn texts(alloc: Global, names: &List<Identifier>) -> Result<List<Name>, AllocError>
    ensures { IfOk result (λ texts. texts ≡ map spec.text names.now) }
{
    let mut texts = List::new(alloc);
    for name in names.as_slice() {
        texts.push(text(alloc, name)?)?;
    }
    Ok(texts)
}

fn forbids_null(form: &ConstraintForm) -> bool
    ensures { result ≡ spec.forbids_null form.now }
{
    matches!(
        form,
        ConstraintForm::NotNull | ConstraintForm::Identity(_, _)
    )
}

fn is_key(form: &ConstraintForm) -> bool
    ensures { result ≡ spec.is_key form.now }
{
    matches!(form, ConstraintForm::PrimaryKey)
}

fn is_marked(constraints: &[Constraint]) -> bool
    ensures { result ≡ spec.is_marked constraints.now }
{
    constraints.iter().any(|x| forbids_null(&x.form))
}

/// A column as it is written.
pub fn column_of(
    alloc: Global,
    catalogue: &Catalogue,
    x: &sq_syntax::Column,
) -> Result<Column, Fault>
    ensures { Gives (spec.column_of catalogue.now x.now) result }
{
    let of: Typed = type_of(alloc, catalogue, true, &x.of)?;
    Ok(Column {
        name: text(alloc, &x.name)?,
        of: of.of,
        not_null: of.is_serial || is_marked(x.constraints.as_slice()),
    })
}

/// The columns among these elements of a table, from left to right.
pub fn columns_of(
    alloc: Global,
    catalogue: &Catalogue,
    elements: &[Element],
) -> Result<List<Column>, Fault>
    ensures { Gives (spec.columns_of catalogue.now elements.now) result }
{
    let mut columns = List::new(alloc);
    for element in elements {
        if let Element::Column(x) = element {
            columns.push(column_of(alloc, catalogue, x)?)?;
        }
    }
    Ok(columns)
}

fn column_key(
    alloc: Global,
    column: &Identifier,
    x: &Constraint,
) -> Result<Option<NewKey>, AllocError>
    ensures { IfOk result (λ key. key ≡ spec.column_key column.now.name x.now) }
{
    if !is_key(&x.form) {
        return Ok(None);
    }
    let mut columns = List::new(alloc);
    columns.push(text(alloc, column)?)?;
    Ok(Some(NewKey {
        name: text_if_any(alloc, &x.name)?,
        columns,
    }))
}

fn push_key(found: &mut List<NewKey>, key: Option<NewKey>) -> Result<(), AllocError>
    ensures { IfOk result (λ done. found.new ≡ found.old ++ and_key key []) }
{
    if let Some(key) = key {
        found.push(key)?;
    }
    Ok(())
}

fn push_column_keys(
    alloc: Global,
    found: &mut List<NewKey>,
    column: &Identifier,
    constraints: &[Constraint],
) -> Result<(), AllocError>
    ensures { IfOk result (λ done. found.new ≡ found.old ++ spec.column_keys column.now.name constraints.now) }
{
    for x in constraints {
        push_key(found, column_key(alloc, column, x)?)?;
    }
    Ok(())
}

/// The keys that the constraints of a column ask for.
pub fn column_keys(
    alloc: Global,
    column: &Identifier,
    constraints: &[Constraint],
) -> Result<List<NewKey>, AllocError>
    ensures { IfOk result (λ keys. keys ≡ spec.column_keys column.now.name constraints.now) }
{
    let mut found = List::new(alloc);
    push_column_keys(alloc, &mut found, column, constraints)?;
    Ok(found)
}

/// The key that a constraint of a table asks for.
pub fn table_key(alloc: Global, x: &TableConstraint) -> Result<Option<NewKey>, AllocError>
    ensures { IfOk result (λ key. key ≡ spec.table_key x.now) }
{
    match &x.form {
        TableConstraintForm::PrimaryKey(names, _) => Ok(Some(NewKey {
            name: text_if_any(alloc, &x.name)?,
            columns: texts(alloc, names)?,
        })),
        _ => Ok(None),
    }
}

fn push_element_keys(alloc: Global, found: &mut List<NewKey>, x: &Element) -> Result<(), AllocError>
    ensures { IfOk result (λ done. found.new ≡ found.old ++ spec.element_keys x.now) }
{
    match x {
        Element::Column(x) => push_column_keys(alloc, found, &x.name, x.constraints.as_slice()),
        Element::Constraint(x) => push_key(found, table_key(alloc, x)?),
    }
}

/// The keys that the elements of a table ask for.
pub fn table_keys(alloc: Global, elements: &[Element]) -> Result<List<NewKey>, AllocError>
    ensures { IfOk result (λ keys. keys ≡ spec.table_keys elements.now) }
{
    let mut found = List::new(alloc);
    for x in elements {
        push_element_keys(alloc, &mut found, x)?;
    }
    Ok(found)
}

/// The keys that one statement asks for.
pub fn keys(found: List<NewKey>) -> Keys
    ensures { result ≡ spec.keys found }
{
    let mut found = found.into_vec();
    match found.pop() {
        None => Keys::Nothing,
        Some(key) if found.is_empty() => Keys::One(key),
        Some(_) => Keys::Several,
    }
}
