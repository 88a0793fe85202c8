//! What holds of the replay.
ghost use Rattle.std.specs.Prelude.{List};
ghost use Rattle.std.specs.List.{AllByRecursion};
ghost use Rattle.sq_syntax.specs.declared.ddl.Ddl.{Ddl};
ghost use Rattle.sq_catalog.specs.Contents.{Contents};
ghost use Rattle.sq_catalog.specs.Kept.{IsCatalogue};
ghost use Rattle.sq_catalog.specs.Named.{HasNames};
ghost use Rattle.sq_migrate.specs.Naming.{GivesNames};
ghost use Rattle.sq_migrate.specs.Replay.{replayed};

/// The replay keeps the rules of the catalogue.
pub fn replay_keeps()
    ensures { (c : Contents) → (statements : List Ddl) → IsCatalogue c → IsCatalogue (replayed c statements).catalogue }
{}

/// The replay of statements whose names fit keeps the names of the catalogue, whatever is refused:
/// none is empty or has more than 63 bytes (PostgreSQL manual, section 4.1.1).
pub fn replay_keeps_names()
    ensures { (c : Contents) → (statements : List Ddl) → AllByRecursion GivesNames statements → HasNames c → HasNames (replayed c statements).catalogue }
{}
