//! Signatures as the written files show them.

ghost use Rattle.std.specs.Prelude.{◌≡◌, IfOk, codes};
ghost use Rattle.sq_shown.specs.Signature.{field, fields, shown, shown_columns};

use crate::form::go_form;
use crate::identifier::{numbered, pascal};
use crate::{Output, Shown, ShownField, Signature};
use sq_base::{List, Name};
use std::alloc::{AllocError, Global};

// A column under this identifier, with its type's form.
#[tactic(auto, unfolding(crate::specs::Signature::field))]
fn field(alloc: Global, identifier: Name, column: &Output) -> Result<ShownField, AllocError>
    ensures { IfOk result (λ shown. shown ≡ field identifier column.now) }
{
    let of = go_form(alloc, column.of, column.nullable)?;
    Ok(ShownField {
        name: identifier,
        of,
    })
}

/// The fields of a struct with these columns.
pub fn fields(alloc: Global, columns: &[Output]) -> Result<List<ShownField>, AllocError>
    ensures { IfOk result (λ all. all ≡ fields columns.now) }
{
    let mut identifiers = List::new(alloc);
    let mut all = List::new(alloc);
    for column in columns {
        let identifier = pascal(alloc, column.name.as_bytes())?;
        let unequal = numbered(alloc, identifiers.as_slice(), &identifier)?;
        all.push(field(alloc, unequal, column)?)?;
        identifiers.push(identifier)?;
    }
    Ok(all)
}

// The columns of a query.
fn shown_columns(alloc: Global, columns: &[Output]) -> Result<List<ShownField>, AllocError>
    ensures { IfOk result (λ all. all ≡ shown_columns columns.now) }
{
    match columns {
        [column] => {
            let mut all = List::new(alloc);
            all.push(field(alloc, Name::new(alloc, "_")?, column)?)?;
            Ok(all)
        }
        _ => fields(alloc, columns),
    }
}

/// A signature as the written files show it.
pub fn shown(alloc: Global, signature: &Signature) -> Result<Shown, AllocError>
    ensures { IfOk result (λ all. all ≡ shown signature.now) }
{
    Ok(Shown {
        name: signature.name.copy(alloc)?,
        command: signature.command,
        text: List::from_slice(alloc, signature.text.as_slice())?,
        params: List::new(alloc),
        columns: shown_columns(alloc, signature.columns.as_slice())?,
    })
}
