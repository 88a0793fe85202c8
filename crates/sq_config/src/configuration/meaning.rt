ghost use Rattle.std.specs.Prelude.{◌≡◌, IfOk};
ghost use Rattle.serde_json.specs.View.{view, members_view, items_view};
ghost use Rattle.sq_config.specs.Meaning;

use crate::configuration::{OptionPair, OptionValue};
use crate::joined_path;
use serde_json::{Map, Value};
use sq_base::{List, Name};
use std::alloc::{AllocError, Global};

/// The text that a value is.
fn text_of(value: &Value) -> &str
    ensures { result.now ≡ Meaning.text_of (view value.now) }
{
    match value {
        Value::String(text) => text.as_str(),
        _ => "",
    }
}

/// The text at a key.
pub fn text_at<'a>(key: &str, value: &'a Value) -> &'a str
    ensures { result.now ≡ Meaning.text_at key.now (view value.now) }
{
    match value.get(key) {
        Some(found) => text_of(found),
        None => "",
    }
}

/// The paths of a list, joined to the folder.
fn joined_items(alloc: Global, folder: &str, items: &[Value]) -> Result<List<Name>, AllocError>
    ensures { IfOk result (λ paths. paths ≡ Meaning.joined_items folder.now (items_view items.now)) }
{
    let mut paths = List::new(alloc);
    for item in items {
        paths.push(joined_path(alloc, folder, text_of(item))?)?;
    }
    Ok(paths)
}

/// A path or a list of paths, joined to the folder.
fn joined_paths(alloc: Global, folder: &str, value: &Value) -> Result<List<Name>, AllocError>
    ensures { IfOk result (λ paths. paths ≡ Meaning.joined_paths folder.now (view value.now)) }
{
    if let Value::Array(items) = value {
        return joined_items(alloc, folder, items.as_slice());
    }
    let mut paths = List::new(alloc);
    paths.push(joined_path(alloc, folder, text_of(value))?)?;
    Ok(paths)
}

/// The paths at a key.
pub fn paths_at(
    alloc: Global,
    folder: &str,
    key: &str,
    value: &Value,
) -> Result<List<Name>, AllocError>
    ensures { IfOk result (λ paths. paths ≡ Meaning.paths_at folder.now key.now (view value.now)) }
{
    match value.get(key) {
        Some(found) => joined_paths(alloc, folder, found),
        None => Ok(List::new(alloc)),
    }
}

/// The value of an option.
fn option_value(alloc: Global, value: &Value) -> Result<OptionValue, AllocError>
    ensures { IfOk result (λ option. option ≡ Meaning.option_value (view value.now)) }
{
    match value {
        Value::String(text) => Ok(OptionValue::Text(Name::new(alloc, text.as_str())?)),
        Value::Bool(flag) => Ok(OptionValue::Flag(*flag)),
        _ => Ok(OptionValue::Other),
    }
}

/// The pairs of an object, where `out` may stand apart from them.
fn pairs_of(
    alloc: Global,
    apart: bool,
    members: &Map<String, Value>,
) -> Result<List<OptionPair>, AllocError>
    ensures { IfOk result (λ pairs. pairs ≡ Meaning.pairs_of apart (members_view members.now.entries)) }
{
    let mut pairs = List::new(alloc);
    for (key, value) in members {
        if apart && key.as_str() == "out" {
            continue;
        }
        pairs.push(OptionPair {
            key: Name::new(alloc, key.as_str())?,
            value: option_value(alloc, value)?,
        })?;
    }
    Ok(pairs)
}

/// The pairs of a value that is an object.
pub fn pairs_in(alloc: Global, apart: bool, value: &Value) -> Result<List<OptionPair>, AllocError>
    ensures { IfOk result (λ pairs. pairs ≡ Meaning.pairs_in apart (view value.now)) }
{
    match value {
        Value::Object(members) => pairs_of(alloc, apart, members),
        _ => Ok(List::new(alloc)),
    }
}
