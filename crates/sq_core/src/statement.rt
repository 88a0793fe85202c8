//! Statements after names and types are settled. Nothing leads back to these types.

use crate::node::{Node, Query, Source};
use crate::routine::Change;
use sq_base::List;
use sqlite_items::{Boxed, Items};

/// What is written for a column: DEFAULT, or an expression that has the column's type.
#[derive(Drop)]
pub enum Cell {
    Default,
    Given(Boxed<Node>),
}

/// The rows of an INSERT.
#[derive(Drop)]
pub enum Entries {
    /// VALUES, and DEFAULT VALUES, which is one row without a cell.
    Values(List<List<Cell>>),
    /// A query, whose columns are converted.
    Query(Boxed<Query>, List<Change>),
}

/// What SET changes: a column, by its place in the table, and what it is given.
#[derive(Drop)]
pub struct Assignment {
    pub column: usize,
    pub cell: Cell,
}

/// ON CONFLICT.
#[derive(Drop)]
pub enum Conflict {
    None,
    /// DO NOTHING, with the conditions of the conflict target.
    Skip(Items<Node>),
    /// DO UPDATE: the conditions of the conflict target, SET, and the conditions of its WHERE.
    Update(Items<Node>, List<Assignment>, Items<Node>),
}

/// A statement.
#[derive(Drop)]
pub enum CoreStatement {
    Select(Boxed<Query>),
    /// The queries of WITH, the table, the columns that are given values, the rows, ON CONFLICT
    /// and RETURNING.
    Insert {
        with: Items<Query>,
        table: usize,
        columns: List<usize>,
        entries: Entries,
        conflict: Conflict,
        returning: Items<Node>,
    },
    /// The queries of WITH, the table, SET, FROM, the conditions of WHERE and RETURNING.
    Update {
        with: Items<Query>,
        table: usize,
        sets: List<Assignment>,
        from: Items<Source>,
        conditions: Items<Node>,
        returning: Items<Node>,
    },
    /// The queries of WITH, the table, USING, the conditions of WHERE and RETURNING.
    Delete {
        with: Items<Query>,
        table: usize,
        from: Items<Source>,
        conditions: Items<Node>,
        returning: Items<Node>,
    },
}
