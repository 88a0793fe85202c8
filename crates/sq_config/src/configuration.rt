//! A whole configuration.
mod blocks;
mod entries;
mod json;
mod key_paths;
mod meaning;
mod outs;
mod reading;
mod shape;
mod top;
mod writers;

pub use reading::configuration_of;
use sq_base::{Code, List, Name};
use std::alloc::AllocError;

/// The value of an option.
#[derive(Debug, Drop)]
pub enum OptionValue {
    Text(Name),
    Flag(bool),
    /// Any other JSON value.
    Other,
}

/// An option with its value.
#[derive(Debug, Drop)]
pub struct OptionPair {
    pub key: Name,
    pub value: OptionValue,
}

/// What a writer is told.
#[derive(Debug, Drop)]
pub struct Options {
    /// The folder of the output, as it stands in the configuration.
    pub out: Name,
    /// The options, in byte order of their keys.
    pub pairs: List<OptionPair>,
}

/// One output of a block.
#[derive(Debug, Drop)]
pub struct Entry {
    /// The name of the writer.
    pub writer: Name,
    pub options: Options,
    /// The path of the output's folder, joined to the folder of the configuration.
    pub path: Name,
    /// The path of the entry's key, as `sql[0].gen.go`.
    pub key: Name,
}

/// A schema, the queries over it, and where they are written to: one item of `sql`.
#[derive(Debug, Drop)]
pub struct Block {
    /// The paths of the schema, joined to the folder of the configuration.
    pub schema: List<Name>,
    /// The paths of the queries, joined to the folder of the configuration.
    pub queries: List<Name>,
    /// The outputs: that of `gen`, and then those of `codegen`.
    pub entries: List<Entry>,
}

/// A configuration: its blocks, in order.
#[derive(Debug, Drop)]
pub struct Configuration {
    pub blocks: List<Block>,
}

/// Why a configuration is refused.
#[derive(Debug, Drop)]
pub struct BadConfiguration {
    /// `BadJson`: it is no JSON. `BadKey`: a key is unknown, has a value of another kind, or is missing.
    /// `SameOut`: two outputs lead to one folder. `NoWriter`: there is no writer of this name.
    pub code: Code,
    /// The path of the key at `BadKey` and `SameOut`, the name at `NoWriter`, and empty at `BadJson`.
    pub first: Name,
}

/// Why there is no configuration.
#[derive(Debug, Drop)]
pub enum Unread {
    Bad(BadConfiguration),
    /// Memory was wanting.
    Memory,
}

impl From<AllocError> for Unread {
    ghost use Rattle.std.specs.Prelude.{◌≡◌};
    ghost use Rattle.sq_config.specs.declared.configuration.Unread.TheVariants.{Memory};

    ghost from_gives = { λ _ unread. unread ≡ Memory };

    fn from(_error: AllocError) -> Unread {
        Unread::Memory
    }
}
