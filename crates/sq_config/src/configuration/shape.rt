ghost use Rattle.std.specs.Prelude.{◌≡◌, map, IfOk, is_some};
ghost use Rattle.serde_json.specs.View.{view, items_view};
ghost use Rattle.serde_json.specs.Find.{get};
ghost use Rattle.sq_config.specs.Shape;

use crate::configuration::key_paths::{item_in, key_in};
use crate::is_accepted_path;
use serde_json::Value;
use sq_base::Name;
use std::alloc::{AllocError, Global};

/// The path of what is bad, unless it is good.
pub fn unless(good: bool, path: Name) -> Option<Name>
    ensures { result ≡ Shape.unless good path }
{
    if good { None } else { Some(path) }
}

/// Whether a value is this text.
pub fn is_text(text: &str, value: &Value) -> bool
    ensures { result ≡ Shape.is_text text.now (view value.now) }
{
    match value {
        Value::String(found) => found.as_str() == text,
        _ => false,
    }
}

/// Judges a path.
pub fn bad_path(alloc: Global, at: Name, value: &Value) -> Result<Option<Name>, AllocError>
    ensures { IfOk result (λ bad. bad ≡ Shape.bad_path at (view value.now)) }
{
    match value {
        Value::String(path) => Ok(unless(is_accepted_path(alloc, path.as_str())?, at)),
        _ => Ok(Some(at)),
    }
}

/// Judges the paths of a list.
fn bad_path_of(alloc: Global, at: &str, paths: &[Value]) -> Result<Option<Name>, AllocError>
    ensures { IfOk result (λ bad. bad ≡ Shape.first_bad_item Shape.bad_path at.now 0 (items_view paths.now)) }
{
    for (index, path) in paths.iter().enumerate() {
        if let Some(bad) = bad_path(alloc, item_in(alloc, at, index)?, path)? {
            return Ok(Some(bad));
        }
    }
    Ok(None)
}

/// Judges a path, or a list of paths.
pub fn bad_paths(alloc: Global, at: Name, value: &Value) -> Result<Option<Name>, AllocError>
    ensures { IfOk result (λ bad. bad ≡ Shape.bad_paths at (view value.now)) }
{
    match value {
        Value::Array(paths) => bad_path_of(alloc, at.as_str(), paths.as_slice()),
        _ => bad_path(alloc, at, value),
    }
}

/// Judges a text.
pub fn bad_text(at: Name, value: &Value) -> Option<Name>
    ensures { result ≡ Shape.bad_text at (view value.now) }
{
    match value {
        Value::String(_) => None,
        _ => Some(at),
    }
}

/// Whether an object has a key.
fn has_key(object: &Value, key: &str) -> bool
    ensures { result ≡ is_some (get key.now (view object.now)) }
{
    object.get(key).is_some()
}

/// The path of the first required key that an object lacks.
pub fn missing_key(
    alloc: Global,
    required: &[&str],
    at: &str,
    object: &Value,
) -> Result<Option<Name>, AllocError>
    ensures { IfOk result (λ bad. bad ≡ Shape.missing_key (map (λ key. key.now) required.now) at.now (view object.now)) }
{
    for key in required {
        if !has_key(object, key) {
            return Ok(Some(key_in(alloc, at, key)?));
        }
    }
    Ok(None)
}
