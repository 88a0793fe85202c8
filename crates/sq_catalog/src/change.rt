ghost use Rattle.std.specs.Prelude.{◌≡◌};

use crate::Column;
use sq_base::{List, Name, PgType};
use std::alloc::{AllocError, AllocFailed};

/// What a change is about by its schema and name, and whether it may be absent (IF EXISTS).
#[derive(Debug, Drop)]
pub struct Target {
    pub schema: Name,
    pub name: Name,
    pub if_exists: bool,
}

/// A primary key as a statement asks for it: its name, where one is given, and its columns.
#[derive(Debug, Drop)]
pub struct NewKey {
    pub name: Option<Name>,
    pub columns: List<Name>,
}

/// The primary keys that one statement asks for.
#[derive(Debug, Drop)]
pub enum Keys {
    /// None at all.
    Nothing,
    /// Exactly one.
    One(NewKey),
    /// More than a table can have.
    Several,
}

/// A change of one table alone (PostgreSQL manual, ALTER TABLE).
#[derive(Debug, Drop)]
pub enum Action {
    /// A new last column, and the key that it makes.
    AddColumn {
        column: Column,
        if_not_exists: bool,
        keys: Keys,
    },
    /// A column goes.
    DropColumn {
        name: Name,
        if_exists: bool,
    },
    /// A column gets another name.
    RenameColumn {
        from: Name,
        to: Name,
    },
    /// A column gets NOT NULL.
    SetNotNull {
        column: Name,
    },
    /// A column loses NOT NULL.
    DropNotNull {
        column: Name,
    },
    /// A column gets another type.
    SetType {
        column: Name,
        of: PgType,
    },
    /// The table gets a primary key.
    AddPrimaryKey {
        key: NewKey,
    },
    /// A constraint goes: only that of the primary key is known.
    DropConstraint {
        name: Name,
    },
    /// A constraint gets another name: only that of the primary key is known.
    RenameConstraint {
        from: Name,
        to: Name,
    },
}

/// A change of the catalogue, as a statement of a migration asks for it.
#[derive(Debug, Drop)]
pub enum Change {
    /// A new schema (PostgreSQL manual, CREATE SCHEMA).
    CreateSchema {
        name: Name,
        if_not_exists: bool,
    },
    /// A new table with these columns (PostgreSQL manual, CREATE TABLE).
    CreateTable {
        schema: Name,
        name: Name,
        if_not_exists: bool,
        columns: List<Column>,
        keys: Keys,
    },
    /// A table goes (PostgreSQL manual, DROP TABLE).
    DropTable {
        table: Target,
    },
    /// A table is changed by itself (PostgreSQL manual, ALTER TABLE).
    AlterTable {
        table: Target,
        action: Action,
    },
    /// A table gets another name.
    RenameTable {
        table: Target,
        to: Name,
    },
    /// A table comes into another schema.
    SetTableSchema {
        table: Target,
        to: Name,
    },
    /// A new enumeration (PostgreSQL manual, CREATE TYPE).
    CreateEnum {
        schema: Name,
        name: Name,
        labels: List<Name>,
    },
    /// A new domain (PostgreSQL manual, CREATE DOMAIN).
    CreateDomain {
        schema: Name,
        name: Name,
        base: PgType,
    },
    /// An enumeration gets one more label (PostgreSQL manual, ALTER TYPE).
    AddValue {
        schema: Name,
        name: Name,
        label: Name,
        if_not_exists: bool,
        beside: Beside,
    },
    /// A label of an enumeration gets another text.
    RenameValue {
        schema: Name,
        name: Name,
        from: Name,
        to: Name,
    },
    /// An enumeration or domain gets another name.
    RenameType {
        schema: Name,
        name: Name,
        to: Name,
    },
    /// An enumeration or domain comes into another schema.
    SetTypeSchema {
        schema: Name,
        name: Name,
        to: Name,
    },
    /// A type goes, under CASCADE with what has it (PostgreSQL manual, DROP TYPE).
    DropType {
        of: Target,
        cascade: bool,
    },
    /// A domain goes, under CASCADE with what has it (PostgreSQL manual, DROP DOMAIN).
    DropDomain {
        of: Target,
        cascade: bool,
    },
    /// A schema goes, under CASCADE with what it holds (PostgreSQL manual, DROP SCHEMA).
    DropSchema {
        name: Name,
        if_exists: bool,
        cascade: bool,
    },
}

/// Where a new label of an enumeration comes.
#[derive(Debug, Drop)]
pub enum Beside {
    /// Behind all others.
    Last,
    /// Right before this label.
    Before(Name),
    /// Right behind this label.
    After(Name),
}

/// Why a change is refused.
#[derive(Debug, Drop)]
pub enum Cause {
    /// The name is taken.
    Exists(Name),
    /// There is nothing of this name.
    Missing(Name),
    /// Something still has this type, or stands in this schema.
    InUse(Name),
    /// The column belongs to the primary key.
    InPrimaryKey(Name),
    /// The table would have over 1,600 columns.
    TooManyColumns(Name),
}

/// Why a change is not made.
#[derive(Debug, Drop)]
pub enum ChangeFault {
    Refused(Cause),
    /// Memory was wanting, or no id is left.
    Memory,
}

impl From<AllocError> for ChangeFault {
    ghost use Rattle.sq_catalog.specs.declared.change.ChangeFault.TheVariants.{Memory};

    ghost from_gives = { λ _ fault. fault ≡ Memory };

    fn from(_error: AllocError) -> ChangeFault {
        ChangeFault::Memory
    }
}

impl<T: Drop> From<AllocFailed<T>> for ChangeFault {
    ghost use Rattle.sq_catalog.specs.declared.change.ChangeFault.TheVariants.{Memory};

    ghost from_gives = { λ _ fault. fault ≡ Memory };

    fn from(_error: AllocFailed<T>) -> ChangeFault {
        ChangeFault::Memory
    }
}
