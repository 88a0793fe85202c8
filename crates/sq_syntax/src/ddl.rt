use crate::{Identifier, Node, QualifiedName, Reading, TypeName};
use sq_base::{List, Name};

/// A schema statement, as it is written.
#[derive(Drop)]
pub enum Ddl {
    CreateSchema(Node<CreateSchema>),
    CreateTable(Node<CreateTable>),
    CreateType(Node<CreateType>),
    CreateDomain(Node<CreateDomain>),
    DropSchema(Node<DropSchema>),
    Drop(Node<DropNamed>),
    AlterTable(Node<AlterTable>),
    AlterType(Node<AlterType>),
}

/// `CREATE SCHEMA name AUTHORIZATION name` (PostgreSQL manual, CREATE SCHEMA)
#[derive(Drop)]
pub struct CreateSchema {
    pub if_not_exists: bool,
    pub name: Identifier,
    /// The name behind AUTHORIZATION.
    pub owner: Option<Identifier>,
}

/// `CREATE TABLE name (element, ..) ..` (PostgreSQL manual, CREATE TABLE)
#[derive(Drop)]
pub struct CreateTable {
    pub is_unlogged: bool,
    pub if_not_exists: bool,
    pub name: QualifiedName,
    pub elements: List<Element>,
    pub tails: List<Tail>,
}

/// `CREATE TYPE name AS ENUM (label, ..)` (PostgreSQL manual, CREATE TYPE), with the bytes of the
/// labels
#[derive(Drop)]
pub struct CreateType {
    pub name: QualifiedName,
    pub labels: List<List<u8>>,
}

/// `CREATE DOMAIN name AS type ..` (PostgreSQL manual, CREATE DOMAIN)
#[derive(Drop)]
pub struct CreateDomain {
    pub name: QualifiedName,
    pub has_as: bool,
    pub base: TypeName,
    pub constraints: List<Constraint>,
}

/// `DROP SCHEMA name, ..` (PostgreSQL manual, DROP SCHEMA)
#[derive(Drop)]
pub struct DropSchema {
    pub if_exists: bool,
    pub names: List<Identifier>,
    pub behavior: Behavior,
}

/// `DROP TABLE name, ..` and its like (PostgreSQL manual, DROP TABLE, DROP TYPE and DROP DOMAIN)
#[derive(Drop)]
pub struct DropNamed {
    pub kind: Dropped,
    pub if_exists: bool,
    pub names: List<QualifiedName>,
    pub behavior: Behavior,
}

#[derive(Clone, Copy, PartialEq, Eq)]
pub enum Dropped {
    Table,
    Type,
    Domain,
}

#[derive(Clone, Copy, PartialEq, Eq)]
pub enum Behavior {
    Unsaid,
    Cascade,
    Restrict,
}

/// `ALTER TABLE name ..` (PostgreSQL manual, ALTER TABLE)
#[derive(Drop)]
pub struct AlterTable {
    pub if_exists: bool,
    pub has_only: bool,
    pub name: QualifiedName,
    pub has_star: bool,
    pub change: TableChange,
}

#[derive(Drop)]
pub enum TableChange {
    /// `RENAME TO name`
    RenameTo(Identifier),
    /// `RENAME [COLUMN] name TO name`: whether COLUMN is written
    RenameColumn(bool, Identifier, Identifier),
    /// `RENAME CONSTRAINT name TO name`
    RenameConstraint(Identifier, Identifier),
    /// `SET SCHEMA name`
    SetSchema(Identifier),
    Actions(List<TableAction>),
}

#[derive(Drop)]
pub enum TableAction {
    /// `ADD [COLUMN] [IF NOT EXISTS] column`: whether COLUMN and whether IF NOT EXISTS is written
    AddColumn(bool, bool, Column),
    AddConstraint(TableConstraint),
    /// `DROP [COLUMN] [IF EXISTS] name`: whether COLUMN and whether IF EXISTS is written
    DropColumn(bool, bool, Identifier, Behavior),
    /// `DROP CONSTRAINT [IF EXISTS] name`: whether IF EXISTS is written
    DropConstraint(bool, Identifier, Behavior),
    /// `ALTER [COLUMN] name SET NOT NULL`: whether COLUMN is written
    SetNotNull(bool, Identifier),
    /// `ALTER [COLUMN] name DROP NOT NULL`: whether COLUMN is written
    DropNotNull(bool, Identifier),
    SetType(SetType),
    /// Every other action.
    Other(List<Reading>),
}

/// `ALTER [COLUMN] name [SET DATA] TYPE type COLLATE name USING ..`
#[derive(Drop)]
pub struct SetType {
    pub has_column: bool,
    pub column: Identifier,
    pub has_set_data: bool,
    pub to: TypeName,
    pub collation: Option<QualifiedName>,
    /// None where USING is not written.
    pub using: List<Reading>,
}

/// `ALTER TYPE name ..` (PostgreSQL manual, ALTER TYPE)
#[derive(Drop)]
pub struct AlterType {
    pub name: QualifiedName,
    pub change: TypeChange,
}

#[derive(Drop)]
pub enum TypeChange {
    /// `ADD VALUE [IF NOT EXISTS] label`: whether IF NOT EXISTS is written, and the bytes of the label
    AddValue(bool, List<u8>, Neighbour),
    /// `RENAME VALUE label TO label`, with the bytes of the labels
    RenameValue(List<u8>, List<u8>),
    /// `RENAME TO name`
    RenameTo(Identifier),
    /// `SET SCHEMA name`
    SetSchema(Identifier),
    /// Every other change.
    Other(List<Reading>),
}

/// Where a label is added, with the bytes of its neighbour.
#[derive(Drop)]
pub enum Neighbour {
    Unsaid,
    Before(List<u8>),
    After(List<u8>),
}

#[derive(Drop)]
pub enum Element {
    Column(Column),
    Constraint(TableConstraint),
}

/// `name type ..`
#[derive(Drop)]
pub struct Column {
    pub name: Identifier,
    pub of: TypeName,
    pub constraints: List<Constraint>,
}

/// A constraint of a column or a domain.
#[derive(Drop)]
pub struct Constraint {
    /// The name behind CONSTRAINT.
    pub name: Option<Identifier>,
    pub form: ConstraintForm,
}

#[derive(Drop)]
pub enum ConstraintForm {
    NotNull,
    Null,
    PrimaryKey,
    Unique,
    /// `COLLATE name`
    Collate(QualifiedName),
    /// `DEFAULT ..`
    Default(List<Reading>),
    /// `CHECK (..) [NO INHERIT]`: whether NO INHERIT is written
    Check(List<Reading>, bool),
    References(Reference),
    /// `GENERATED ALWAYS AS IDENTITY (..)`: None where the brackets are not written
    Identity(Generation, Option<List<Reading>>),
    /// `GENERATED ALWAYS AS (..) STORED`
    Stored(List<Reading>),
    Deferrable,
    NotDeferrable,
    /// `INITIALLY word`, with the folded word
    Initially(Name),
}

/// `REFERENCES name (names) MATCH word ON DELETE .. ON UPDATE ..`
#[derive(Drop)]
pub struct Reference {
    pub table: QualifiedName,
    /// None where they are not written.
    pub columns: List<Identifier>,
    /// The folded word behind MATCH.
    pub matching: Option<Name>,
    pub reactions: List<Reaction>,
}

/// `ON DELETE CASCADE` and its like
#[derive(Clone, Copy, PartialEq, Eq)]
pub struct Reaction {
    pub event: ReferenceEvent,
    pub action: ReferenceAction,
}

#[derive(Clone, Copy, PartialEq, Eq)]
pub enum ReferenceEvent {
    Delete,
    Update,
}

#[derive(Clone, Copy, PartialEq, Eq)]
pub enum ReferenceAction {
    Cascade,
    Restrict,
    NoAction,
    SetNull,
    SetDefault,
}

#[derive(Clone, Copy, PartialEq, Eq)]
pub enum Generation {
    Always,
    ByDefault,
}

#[derive(Drop)]
pub struct TableConstraint {
    /// The name behind CONSTRAINT.
    pub name: Option<Identifier>,
    pub form: TableConstraintForm,
}

#[derive(Drop)]
pub enum TableConstraintForm {
    /// `PRIMARY KEY (names) ..`: the tokens behind the brackets
    PrimaryKey(List<Identifier>, List<Reading>),
    /// `UNIQUE ..`
    Unique(List<Reading>),
    /// `CHECK ..`
    Check(List<Reading>),
    /// `FOREIGN KEY ..`
    ForeignKey(List<Reading>),
    /// `EXCLUDE ..`
    Exclude(List<Reading>),
}

/// What stands behind the elements of a table.
#[derive(Drop)]
pub enum Tail {
    /// `PARTITION BY ..`
    PartitionBy(List<Reading>),
    /// `WITH (..)`
    With(List<Reading>),
    /// `TABLESPACE name`
    Tablespace(Identifier),
}
