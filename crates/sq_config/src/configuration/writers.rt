ghost use Rattle.std.specs.Prelude.{◌≡◌, [], IfOk};
ghost use Rattle.serde_json.specs.View.{view, members_view, items_view};
ghost use Rattle.sq_config.specs.Shape;

use crate::configuration::key_paths::{item_in, key_in};
use crate::configuration::shape::{bad_path, bad_text, missing_key};
use serde_json::{Map, Value};
use sq_base::Name;
use std::alloc::{AllocError, Global};

/// Judges the value of a key in `go`.
fn bad_in_go(
    alloc: Global,
    path: Name,
    key: &str,
    value: &Value,
) -> Result<Option<Name>, AllocError>
    ensures { IfOk result (λ bad. bad ≡ Shape.bad_in_go path key.now (view value.now)) }
{
    match key {
        "out" => bad_path(alloc, path, value),
        _ => Ok(None),
    }
}

/// Judges the present keys of `go`, up to the first bad one.
fn bad_key_of_go(
    alloc: Global,
    at: &str,
    members: &Map<String, Value>,
) -> Result<Option<Name>, AllocError>
    ensures { IfOk result (λ bad. bad ≡ Shape.first_bad_key Shape.bad_in_go at.now (members_view members.now.entries)) }
{
    for (key, value) in members {
        let path = key_in(alloc, at, key.as_str())?;
        if let Some(bad) = bad_in_go(alloc, path, key.as_str(), value)? {
            return Ok(Some(bad));
        }
    }
    Ok(None)
}

/// Judges the object `go`.
fn bad_go(alloc: Global, at: Name, value: &Value) -> Result<Option<Name>, AllocError>
    ensures { IfOk result (λ bad. bad ≡ Shape.bad_go at (view value.now)) }
{
    let Value::Object(members) = value else {
        return Ok(Some(at));
    };
    match bad_key_of_go(alloc, at.as_str(), members)? {
        Some(bad) => Ok(Some(bad)),
        None => missing_key(alloc, &["out"], at.as_str(), value),
    }
}

/// Judges the value of a key in `gen`.
fn bad_in_gen(
    alloc: Global,
    path: Name,
    key: &str,
    value: &Value,
) -> Result<Option<Name>, AllocError>
    ensures { IfOk result (λ bad. bad ≡ Shape.bad_in_gen path key.now (view value.now)) }
{
    match key {
        "go" => bad_go(alloc, path, value),
        _ => Ok(Some(path)),
    }
}

/// Judges the present keys of `gen`, up to the first bad one.
fn bad_key_of_gen(
    alloc: Global,
    at: &str,
    members: &Map<String, Value>,
) -> Result<Option<Name>, AllocError>
    ensures { IfOk result (λ bad. bad ≡ Shape.first_bad_key Shape.bad_in_gen at.now (members_view members.now.entries)) }
{
    for (key, value) in members {
        let path = key_in(alloc, at, key.as_str())?;
        if let Some(bad) = bad_in_gen(alloc, path, key.as_str(), value)? {
            return Ok(Some(bad));
        }
    }
    Ok(None)
}

/// Judges the object `gen`.
pub fn bad_gen(alloc: Global, at: Name, value: &Value) -> Result<Option<Name>, AllocError>
    ensures { IfOk result (λ bad. bad ≡ Shape.bad_gen at (view value.now)) }
{
    let Value::Object(members) = value else {
        return Ok(Some(at));
    };
    match bad_key_of_gen(alloc, at.as_str(), members)? {
        Some(bad) => Ok(Some(bad)),
        None => missing_key(alloc, &["go"], at.as_str(), value),
    }
}

/// Judges the options of a plugin: any object.
fn bad_options(at: Name, value: &Value) -> Option<Name>
    ensures { result ≡ Shape.bad_options at (view value.now) }
{
    match value {
        Value::Object(_) => None,
        _ => Some(at),
    }
}

/// Judges the value of a key of a plugin.
fn bad_in_plugin(
    alloc: Global,
    path: Name,
    key: &str,
    value: &Value,
) -> Result<Option<Name>, AllocError>
    ensures { IfOk result (λ bad. bad ≡ Shape.bad_in_plugin path key.now (view value.now)) }
{
    match key {
        "options" => Ok(bad_options(path, value)),
        "out" => bad_path(alloc, path, value),
        "plugin" => Ok(bad_text(path, value)),
        _ => Ok(Some(path)),
    }
}

/// Judges the present keys of a plugin, up to the first bad one.
fn bad_key_of_plugin(
    alloc: Global,
    at: &str,
    members: &Map<String, Value>,
) -> Result<Option<Name>, AllocError>
    ensures { IfOk result (λ bad. bad ≡ Shape.first_bad_key Shape.bad_in_plugin at.now (members_view members.now.entries)) }
{
    for (key, value) in members {
        let path = key_in(alloc, at, key.as_str())?;
        if let Some(bad) = bad_in_plugin(alloc, path, key.as_str(), value)? {
            return Ok(Some(bad));
        }
    }
    Ok(None)
}

/// Judges an item of `codegen`.
fn bad_plugin(alloc: Global, at: Name, value: &Value) -> Result<Option<Name>, AllocError>
    ensures { IfOk result (λ bad. bad ≡ Shape.bad_plugin at (view value.now)) }
{
    let Value::Object(members) = value else {
        return Ok(Some(at));
    };
    match bad_key_of_plugin(alloc, at.as_str(), members)? {
        Some(bad) => Ok(Some(bad)),
        None => missing_key(alloc, &["out", "plugin"], at.as_str(), value),
    }
}

/// Judges the items of `codegen`, up to the first bad one.
fn bad_plugin_of(alloc: Global, at: &str, items: &[Value]) -> Result<Option<Name>, AllocError>
    ensures { IfOk result (λ bad. bad ≡ Shape.first_bad_item Shape.bad_plugin at.now 0 (items_view items.now)) }
{
    for (index, item) in items.iter().enumerate() {
        if let Some(bad) = bad_plugin(alloc, item_in(alloc, at, index)?, item)? {
            return Ok(Some(bad));
        }
    }
    Ok(None)
}

/// Judges the list `codegen`.
pub fn bad_codegen(alloc: Global, at: Name, value: &Value) -> Result<Option<Name>, AllocError>
    ensures { IfOk result (λ bad. bad ≡ Shape.bad_codegen at (view value.now)) }
{
    match value {
        Value::Array(items) => bad_plugin_of(alloc, at.as_str(), items.as_slice()),
        _ => Ok(Some(at)),
    }
}
