//! The words of the command line, a configuration, and its paths.

ghost use Rattle.std.specs.Prelude.{◌≡◌, IfOk, map, string_bytes};
ghost use Rattle.sq_config.specs.CommandLine.{request_of};
ghost use Rattle.sq_config.specs.Configuration as spec;
ghost use Rattle.sq_config.specs.Configuration.{Configures};
ghost use Rattle.sq_config.specs.Paths;

use sq_base::{Code, List, Name};
use sq_config::{BadConfiguration, Configuration, Request, Unread};
use std::alloc::{AllocError, Global};

pub fn read_words(alloc: Global, words: &[String]) -> Result<Option<Request>, AllocError>
    ensures { IfOk result (λ request. request ≡ request_of (map string_bytes words.now)) }
{
    sq_config::read_words(alloc, words)
}

pub fn configuration_of(alloc: Global, folder: &str, bytes: &[u8]) -> Result<Configuration, Unread>
    ensures { Configures (spec.configuration_of folder.now bytes.now) result }
{
    sq_config::configuration_of(alloc, folder, bytes)
}

pub fn is_accepted_path(alloc: Global, path: &str) -> Result<bool, AllocError>
    ensures { IfOk result (λ accepted. accepted ≡ Paths.is_accepted_path path.now) }
{
    sq_config::is_accepted_path(alloc, path)
}

pub fn joined_path(alloc: Global, folder: &str, path: &str) -> Result<Name, AllocError>
    ensures { IfOk result (λ joined. joined ≡ Paths.joined_path folder.now path.now) }
{
    sq_config::joined_path(alloc, folder, path)
}
