use crate::{Expression, From, Identifier, Node, Output, QualifiedName, Query, With};
use sq_base::{List, Place};
use sqlite_items::{Boxed, Items};

/// A query or a change of data, as it is written.
#[derive(Drop)]
pub enum Statement {
    Query(Boxed<Query>),
    Insert(Insert),
    Update(Update),
    Delete(Delete),
}

/// `INSERT INTO table ..` (PostgreSQL manual, INSERT). As each change it has the place of its first
/// token, and the numbers of its first and last token in the slice that was parsed.
#[derive(Drop)]
pub struct Insert {
    pub place: Place,
    pub first: u32,
    pub last: u32,
    /// The queries of WITH.
    pub with: Items<With<Boxed<Query>>>,
    pub table: QualifiedName,
    /// The name behind AS.
    pub alias: Option<Identifier>,
    /// None where they are not written.
    pub columns: List<Identifier>,
    pub source: InsertSource,
    pub conflict: Option<Conflict>,
    /// None where RETURNING is not written.
    pub returning: Items<Node<Output<Node<Expression>>>>,
}

/// Where the rows of an INSERT come from.
#[derive(Drop)]
pub enum InsertSource {
    /// `VALUES (x, ..), ..`
    Values(Items<ValuesRow>),
    Query(Boxed<Query>),
    /// `DEFAULT VALUES`
    DefaultValues,
}

/// `(x, ..)`, with the place of its bracket.
#[derive(Drop)]
pub struct ValuesRow {
    pub place: Place,
    pub values: Items<Given>,
}

/// What a column gets.
#[derive(Drop)]
pub enum Given {
    /// `DEFAULT`, and its place.
    Default(Place),
    Expression(Boxed<Node<Expression>>),
}

/// `ON CONFLICT ..`, with its place. An update needs a target.
#[derive(Drop)]
pub enum Conflict {
    /// `ON CONFLICT target DO NOTHING`
    Nothing(Place, Option<ConflictTarget>),
    /// `ON CONFLICT target DO UPDATE SET .. WHERE ..`
    Update(Place, ConflictTarget, Items<Assignment>, Option<Boxed<Node<Expression>>>),
}

#[derive(Drop)]
pub enum ConflictTarget {
    /// `(columns) WHERE condition`
    Columns(List<Identifier>, Option<Boxed<Node<Expression>>>),
    /// `ON CONSTRAINT name`
    Constraint(Identifier),
}

/// `column = x`
#[derive(Drop)]
pub struct Assignment {
    pub column: Identifier,
    pub value: Given,
}

/// `[AS] name` behind the table of a change.
#[derive(Drop)]
pub struct TableAlias {
    pub has_as: bool,
    pub name: Identifier,
}

/// `UPDATE table SET ..` (PostgreSQL manual, UPDATE)
#[derive(Drop)]
pub struct Update {
    pub place: Place,
    pub first: u32,
    pub last: u32,
    /// The queries of WITH.
    pub with: Items<With<Boxed<Query>>>,
    pub table: QualifiedName,
    pub alias: Option<TableAlias>,
    pub sets: Items<Assignment>,
    /// None where FROM is not written.
    pub from: Items<From>,
    pub condition: Option<Boxed<Node<Expression>>>,
    /// None where RETURNING is not written.
    pub returning: Items<Node<Output<Node<Expression>>>>,
}

/// `DELETE FROM table ..` (PostgreSQL manual, DELETE)
#[derive(Drop)]
pub struct Delete {
    pub place: Place,
    pub first: u32,
    pub last: u32,
    /// The queries of WITH.
    pub with: Items<With<Boxed<Query>>>,
    pub table: QualifiedName,
    pub alias: Option<TableAlias>,
    /// None where USING is not written.
    pub using: Items<From>,
    pub condition: Option<Boxed<Node<Expression>>>,
    /// None where RETURNING is not written.
    pub returning: Items<Node<Output<Node<Expression>>>>,
}
