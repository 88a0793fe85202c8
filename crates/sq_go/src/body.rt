//! The declarations of a file, and whether they use the package database/sql.

ghost use Rattle.std.specs.Prelude.{◌≡◌, ◌++◌, ◌∷◌, ◌||◌, [], IfOk, OnOk, map, flat_map};
ghost use Rattle.std.specs.List.{list_any};
ghost use Rattle.sq_shown.specs.Layout.{constant, is_of_sql, method, model_forms, model_struct, query_declarations, query_forms, row_forms, row_struct, row_type, shown_declarations, targets};

use crate::line::struct_text;
use crate::many::many;
use crate::raw::constant;
use crate::row::{has_own_struct, model_of, row_name, row_type, row_uses_sql, use_sql};
use sq_base::{List, Name};
use sq_shown::{Command, ModelDecl, QuerySig, Shown, fields, model_identifier, shown};
use std::alloc::{AllocError, Global};

/// The declarations so far, and whether one of them uses the package database/sql.
#[derive(Drop)]
pub struct Body {
    pub declarations: List<List<u8>>,
    pub sql: bool,
}

// Appends the struct of a model.
fn push_model(alloc: Global, body: &mut Body, model: &ModelDecl) -> Result<(), AllocError>
    ensures declarations { OnOk result (body.new.declarations ≡ body.old.declarations ++ model_struct model.now ∷ []) }
    ensures sql { OnOk result (body.new.sql ≡ (body.old.sql || list_any is_of_sql (model_forms model.now))) }
{
    let name = model_identifier(alloc, &model.schema, &model.name)?;
    let fields = fields(alloc, model.columns.as_slice())?;
    let text = struct_text(alloc, name.as_bytes(), fields.as_slice())?;
    body.declarations.push(text)?;
    body.sql = body.sql || use_sql(fields.as_slice());
    Ok(())
}

/// The structs of models.
pub fn model_body(alloc: Global, models: &[ModelDecl]) -> Result<Body, AllocError>
    ensures declarations { IfOk result (λ body. body.declarations ≡ map model_struct models.now) }
    ensures sql { IfOk result (λ body. body.sql ≡ list_any is_of_sql (flat_map model_forms models.now)) }
{
    let mut body = Body {
        declarations: List::new(alloc),
        sql: false,
    };
    for model in models {
        push_model(alloc, &mut body, model)?;
    }
    Ok(body)
}

// Appends the struct of a query's own, where it has one.
fn push_row_struct(
    alloc: Global,
    declarations: &mut List<List<u8>>,
    model: &Option<Name>,
    query: &Shown,
) -> Result<(), AllocError>
    ensures { OnOk result (declarations.new ≡ declarations.old ++ row_struct model.now query.now.name query.now.columns) }
{
    if !has_own_struct(model, query.columns.as_slice()) {
        return Ok(());
    }
    let name = row_name(alloc, query)?;
    let text = struct_text(alloc, name.as_slice(), query.columns.as_slice())?;
    declarations.push(text)
}

// Appends the method of a query.
fn push_method(
    alloc: Global,
    declarations: &mut List<List<u8>>,
    query: &Shown,
    row: &[u8],
) -> Result<(), AllocError>
    ensures { OnOk result (declarations.new ≡ declarations.old ++ method query.now.command query.now.name row.now (targets query.now.columns)) }
{
    match query.command {
        Command::Many => declarations.push(many(alloc, query, row)?),
        Command::One | Command::Exec | Command::ExecRows => Ok(()),
    }
}

// Appends the declarations of a query as it is shown.
#[tactic(auto, unfolding(sq_shown::specs::Layout::shown_declarations))]
fn push_shown(
    alloc: Global,
    declarations: &mut List<List<u8>>,
    model: &Option<Name>,
    query: &Shown,
) -> Result<(), AllocError>
    ensures { OnOk result (declarations.new ≡ declarations.old ++ shown_declarations model.now query.now) }
{
    let row = row_type(alloc, model, query)?;
    declarations.push(constant(alloc, query)?)?;
    push_row_struct(alloc, declarations, model, query)?;
    push_method(alloc, declarations, query, row.as_slice())
}

// Appends the declarations of a query.
fn push_query(
    alloc: Global,
    body: &mut Body,
    models: &[ModelDecl],
    query: &QuerySig,
) -> Result<(), AllocError>
    ensures declarations { OnOk result (body.new.declarations ≡ body.old.declarations ++ query_declarations models.now query.now) }
    ensures sql { OnOk result (body.new.sql ≡ (body.old.sql || list_any is_of_sql (query_forms models.now query.now))) }
{
    let model = model_of(alloc, models, query.model)?;
    let shown = shown(alloc, &query.signature)?;
    push_shown(alloc, &mut body.declarations, &model, &shown)?;
    body.sql = body.sql || row_uses_sql(&model, shown.columns.as_slice());
    Ok(())
}

/// The declarations of queries.
pub fn query_body(
    alloc: Global,
    models: &[ModelDecl],
    queries: &[QuerySig],
) -> Result<Body, AllocError>
    ensures declarations { IfOk result (λ body. body.declarations ≡ flat_map (query_declarations models.now) queries.now) }
    ensures sql { IfOk result (λ body. body.sql ≡ list_any is_of_sql (flat_map (query_forms models.now) queries.now)) }
{
    let mut body = Body {
        declarations: List::new(alloc),
        sql: false,
    };
    for query in queries {
        push_query(alloc, &mut body, models, query)?;
    }
    Ok(body)
}
