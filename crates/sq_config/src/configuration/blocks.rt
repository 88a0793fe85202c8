ghost use Rattle.std.specs.Prelude.{◌≡◌, IfOk};
ghost use Rattle.serde_json.specs.View.{view, members_view, items_view};
ghost use Rattle.sq_config.specs.Shape;

use crate::configuration::key_paths::{item_in, key_in};
use crate::configuration::shape::{bad_paths, is_text, missing_key, unless};
use crate::configuration::writers::{bad_codegen, bad_gen};
use serde_json::{Map, Value};
use sq_base::Name;
use std::alloc::{AllocError, Global};

/// Judges the value of a key of a block.
fn bad_in_block(
    alloc: Global,
    path: Name,
    key: &str,
    value: &Value,
) -> Result<Option<Name>, AllocError>
    ensures { IfOk result (λ bad. bad ≡ Shape.bad_in_block path key.now (view value.now)) }
{
    match key {
        "codegen" => bad_codegen(alloc, path, value),
        "engine" => Ok(unless(is_text("postgresql", value), path)),
        "gen" => bad_gen(alloc, path, value),
        "queries" | "schema" => bad_paths(alloc, path, value),
        _ => Ok(Some(path)),
    }
}

/// Judges the present keys of a block, up to the first bad one.
fn bad_key_of_block(
    alloc: Global,
    at: &str,
    members: &Map<String, Value>,
) -> Result<Option<Name>, AllocError>
    ensures { IfOk result (λ bad. bad ≡ Shape.first_bad_key Shape.bad_in_block at.now (members_view members.now.entries)) }
{
    for (key, value) in members {
        let path = key_in(alloc, at, key.as_str())?;
        if let Some(bad) = bad_in_block(alloc, path, key.as_str(), value)? {
            return Ok(Some(bad));
        }
    }
    Ok(None)
}

/// Judges a block.
fn bad_block(alloc: Global, at: Name, value: &Value) -> Result<Option<Name>, AllocError>
    ensures { IfOk result (λ bad. bad ≡ Shape.bad_block at (view value.now)) }
{
    let Value::Object(members) = value else {
        return Ok(Some(at));
    };
    match bad_key_of_block(alloc, at.as_str(), members)? {
        Some(bad) => Ok(Some(bad)),
        None => missing_key(alloc, &["engine", "queries", "schema"], at.as_str(), value),
    }
}

/// Judges the items of `sql`, up to the first bad one.
fn bad_block_of(alloc: Global, at: &str, items: &[Value]) -> Result<Option<Name>, AllocError>
    ensures { IfOk result (λ bad. bad ≡ Shape.first_bad_item Shape.bad_block at.now 0 (items_view items.now)) }
{
    for (index, item) in items.iter().enumerate() {
        if let Some(bad) = bad_block(alloc, item_in(alloc, at, index)?, item)? {
            return Ok(Some(bad));
        }
    }
    Ok(None)
}

/// Judges the list `sql`.
pub fn bad_sql(alloc: Global, at: Name, value: &Value) -> Result<Option<Name>, AllocError>
    ensures { IfOk result (λ bad. bad ≡ Shape.bad_sql at (view value.now)) }
{
    match value {
        Value::Array(items) => bad_block_of(alloc, at.as_str(), items.as_slice()),
        _ => Ok(Some(at)),
    }
}
