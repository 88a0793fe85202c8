ghost use Rattle.std.specs.Prelude.{◌≡◌};
ghost use Rattle.sq_reader.specs.declared.items.Halt.TheVariants.{NoMemory};

use crate::forms::{Struct, Targets};
use sq_base::{List, Name};
use sq_shown::{Command, ShownField};
use std::alloc::{AllocError, AllocFailed};

/// Where an item stands: its file's number, from 0, and how many bytes are left there from its first
/// line on that is not empty.
#[derive(Clone, Copy)]
pub(crate) struct Spot {
    pub file: usize,
    pub left: usize,
}

/// Names that may not be equal.
#[derive(Clone, Copy)]
pub(crate) enum Space {
    /// What is declared in the package.
    Package,
    /// The methods of Queries.
    Methods,
    /// The files.
    Files,
}

/// What the method of a query gives its caller.
#[derive(Drop)]
pub(crate) struct Call {
    pub command: Command,
    pub text: List<u8>,
    pub row: Option<Struct>,
    pub result: Name,
    pub targets: Targets,
}

/// What an item is for those that name it.
#[derive(Drop)]
pub(crate) enum Meaning {
    /// Nothing but a name.
    Plain,
    /// The fields of a model.
    Model(List<ShownField>),
    /// The method of a query.
    Query(Call),
}

/// A declaration of a file.
#[derive(Drop)]
pub(crate) struct Item {
    pub spot: Spot,
    pub space: Space,
    pub name: Name,
    /// Whether its constant and the imports that it uses are declared.
    pub declared: bool,
    pub meaning: Meaning,
}

/// A file whose declarations are read: its number, and the paths of its imports.
#[derive(Drop)]
pub(crate) struct Source {
    pub file: usize,
    pub imports: List<List<u8>>,
}

/// The declarations of db.go.
#[derive(Clone, Copy)]
pub(crate) enum Fixed {
    Interface,
    New,
    Queries,
    WithTx,
}

/// What a file declares again and again.
#[derive(Clone, Copy)]
pub(crate) enum Group {
    Models,
    /// Queries with their constants and methods.
    Calls,
}

/// Why a file was not read to its end.
#[derive(Drop)]
pub(crate) enum Halt {
    At(Spot),
    NoMemory,
}

impl From<AllocError> for Halt {
    ghost from_gives = { λ _ fault. fault ≡ NoMemory };

    fn from(_error: AllocError) -> Halt {
        Halt::NoMemory
    }
}

impl<T: Drop> From<AllocFailed<T>> for Halt {
    ghost from_gives = { λ _ fault. fault ≡ NoMemory };

    fn from(_error: AllocFailed<T>) -> Halt {
        Halt::NoMemory
    }
}
