ghost use Rattle.std.specs.Prelude.{◌≡◌, IfOk};
ghost use Rattle.serde_json.specs.View.{view};
ghost use Rattle.sq_config.specs.Configuration.{Configures, bad_out, with_good_outs, read_value, configuration_of};

use crate::configuration::entries::meaning_of;
use crate::configuration::json::json_value;
use crate::configuration::outs::{all_entries, other_writer, same_out};
use crate::configuration::top::bad_key;
use crate::configuration::{BadConfiguration, Block, Configuration, Unread};
use serde_json::Value;
use sq_base::{Code, Name};
use std::alloc::{AllocError, Global};

/// What is bad first in the outputs.
fn bad_out(alloc: Global, blocks: &[Block]) -> Result<Option<BadConfiguration>, AllocError>
    ensures { IfOk result (λ bad. bad ≡ bad_out blocks.now) }
{
    let entries = all_entries(alloc, blocks)?;
    if let Some(first) = same_out(alloc, entries.as_slice())? {
        return Ok(Some(BadConfiguration {
            code: Code::SameOut,
            first,
        }));
    }
    match other_writer(alloc, entries.as_slice())? {
        Some(first) => Ok(Some(BadConfiguration {
            code: Code::NoWriter,
            first,
        })),
        None => Ok(None),
    }
}

/// A configuration, unless its outputs are bad.
fn with_good_outs(alloc: Global, configuration: Configuration) -> Result<Configuration, Unread>
    ensures { Configures (with_good_outs configuration) result }
{
    match bad_out(alloc, configuration.blocks.as_slice())? {
        Some(bad) => Err(Unread::Bad(bad)),
        None => Ok(configuration),
    }
}

/// What a value is read as.
fn read_value(alloc: Global, folder: &str, value: &Value) -> Result<Configuration, Unread>
    ensures { Configures (read_value folder.now (view value.now)) result }
{
    match bad_key(alloc, value)? {
        Some(first) => Err(Unread::Bad(BadConfiguration {
            code: Code::BadKey,
            first,
        })),
        None => with_good_outs(alloc, meaning_of(alloc, folder, value)?),
    }
}

/// Reads the bytes of a configuration (version 2 of sqlc's configuration file, as JSON), whose paths are
/// joined to this folder. It is refused with 70 where the bytes are no JSON; then with 71 for the first key
/// that is unknown, has a value of another kind, or is missing; then with 73 for the first output whose
/// folder is that of an earlier one; then with 72 for the first writer that is not there.
pub fn configuration_of(alloc: Global, folder: &str, bytes: &[u8]) -> Result<Configuration, Unread>
    ensures { Configures (configuration_of folder.now bytes.now) result }
{
    match json_value(alloc, bytes)? {
        Some(value) => read_value(alloc, folder, &value),
        None => Err(Unread::Bad(BadConfiguration {
            code: Code::BadJson,
            first: Name::empty(alloc),
        })),
    }
}
