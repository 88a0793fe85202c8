//! What holds of every catalogue.
ghost use Rattle.std.specs.Prelude.{IfOk, IfSome, List, ℕ};
ghost use Rattle.sq_base.specs.Types.{IsBase};
ghost use Rattle.sq_base.specs.declared.types.PgType.{PgType};
ghost use Rattle.sq_catalog.specs.Contents.{Contents};
ghost use Rattle.sq_catalog.specs.Catalogue.{empty, step};
ghost use Rattle.sq_catalog.specs.Kept.{BringsHeld, IsCatalogue, IsHeld};
ghost use Rattle.sq_catalog.specs.Named.{BringsNames, HasNames};
ghost use Rattle.sq_catalog.specs.UserTypes.{base, type_named};
ghost use Rattle.sq_catalog.specs.declared.change.Change.{Change};

/// A change whose types are held keeps the rules of the catalogue.
pub fn step_keeps()
    ensures { (c : Contents) → (change : Change) → BringsHeld c change → IsCatalogue c → IfOk (step c change) IsCatalogue }
{}

/// The catalogue that has only the schema public keeps the rules.
pub fn empty_is_catalogue()
    ensures { IsCatalogue empty }
{}

/// A change whose names fit keeps the names of the catalogue: none is empty or has more than 63 bytes
/// (PostgreSQL manual, section 4.1.1).
pub fn step_keeps_names()
    ensures { (c : Contents) → (change : Change) → BringsNames change → HasNames c → IfOk (step c change) HasNames }
{}

/// The names of the catalogue that has only the schema public fit.
pub fn empty_has_names()
    ensures { HasNames empty }
{}

/// A type that is found by its name is held.
pub fn type_named_is_held()
    ensures { (c : Contents) → (schema name : List ℕ) → IfSome (type_named c schema name) (IsHeld c) }
{}

/// The base type of a held type is held, and is no domain.
pub fn base_is_held()
    ensures { (c : Contents) → (of : PgType) → IsCatalogue c → IsHeld c of → IsHeld c (base c of) × IsBase (base c of) }
{}
