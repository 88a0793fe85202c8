//! The replay of schema statements, and the types that they name.

ghost use Rattle.std.specs.Prelude.{◌≡◌, IfOk};
ghost use Rattle.sq_base.specs.Answers.{Gives};
ghost use Rattle.sq_migrate.specs.Replay as spec;
ghost use Rattle.sq_migrate.specs.Replay.{state};
ghost use Rattle.sq_migrate.specs.Types as types;

use sq_base::{Fault, List, Refusal};
use sq_catalog::Catalogue;
use sq_migrate::Typed;
use sq_syntax::{Ddl, TypeName};
use std::alloc::{AllocError, Global};

pub fn replay(
    alloc: Global,
    catalogue: &mut Catalogue,
    statements: &List<Ddl>,
) -> Result<List<Refusal>, AllocError>
    ensures { IfOk result (λ refusals. state catalogue.new refusals ≡ spec.replayed catalogue.old statements.now) }
{
    sq_migrate::replay(alloc, catalogue, statements)
}

pub fn type_of(
    alloc: Global,
    catalogue: &Catalogue,
    in_column: bool,
    x: &TypeName,
) -> Result<Typed, Fault>
    ensures { Gives (types.type_of catalogue.now in_column x.now) result }
{
    sq_migrate::type_of(alloc, catalogue, in_column, x)
}
