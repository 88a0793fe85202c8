ghost use Rattle.std.specs.Prelude.{◌≡◌, [], IfOk};
ghost use Rattle.serde_json.specs.View.{view, members_view};
ghost use Rattle.sq_config.specs.Shape;

use crate::configuration::blocks::bad_sql;
use crate::configuration::key_paths::key_in;
use crate::configuration::shape::{is_text, missing_key, unless};
use serde_json::{Map, Value};
use sq_base::Name;
use std::alloc::{AllocError, Global};

/// Judges the list `plugins`, whose items are not read.
fn bad_plugins(at: Name, value: &Value) -> Option<Name>
    ensures { result ≡ Shape.bad_plugins at (view value.now) }
{
    match value {
        Value::Array(_) => None,
        _ => Some(at),
    }
}

/// Judges the value of a key of the whole configuration.
fn bad_in_top(
    alloc: Global,
    path: Name,
    key: &str,
    value: &Value,
) -> Result<Option<Name>, AllocError>
    ensures { IfOk result (λ bad. bad ≡ Shape.bad_in_top path key.now (view value.now)) }
{
    match key {
        "plugins" => Ok(bad_plugins(path, value)),
        "sql" => bad_sql(alloc, path, value),
        "version" => Ok(unless(is_text("2", value), path)),
        _ => Ok(Some(path)),
    }
}

/// Judges the present keys of the whole configuration, up to the first bad one.
fn bad_key_of_top(
    alloc: Global,
    at: &str,
    members: &Map<String, Value>,
) -> Result<Option<Name>, AllocError>
    ensures { IfOk result (λ bad. bad ≡ Shape.first_bad_key Shape.bad_in_top at.now (members_view members.now.entries)) }
{
    for (key, value) in members {
        let path = key_in(alloc, at, key.as_str())?;
        if let Some(bad) = bad_in_top(alloc, path, key.as_str(), value)? {
            return Ok(Some(bad));
        }
    }
    Ok(None)
}

/// Judges the whole configuration, at its path.
fn bad_top(alloc: Global, at: Name, value: &Value) -> Result<Option<Name>, AllocError>
    ensures { IfOk result (λ bad. bad ≡ Shape.bad_top at (view value.now)) }
{
    let Value::Object(members) = value else {
        return Ok(Some(at));
    };
    match bad_key_of_top(alloc, at.as_str(), members)? {
        Some(bad) => Ok(Some(bad)),
        None => missing_key(alloc, &["sql", "version"], at.as_str(), value),
    }
}

/// The path of the first bad key of a configuration.
pub fn bad_key(alloc: Global, value: &Value) -> Result<Option<Name>, AllocError>
    ensures { IfOk result (λ bad. bad ≡ Shape.bad_key (view value.now)) }
{
    bad_top(alloc, Name::new(alloc, "")?, value)
}
