//! Queries after names and types are settled. The four types that lead back to each other are
//! enumerations of few variants; what an expression does stands in plain types beside them.

use crate::routine::{Aggregation, Inner, Joining, Manner, Operation, SetLink, Slot};
use sq_base::{List, PgType};
use sqlite_items::{Boxed, Items};

/// An expression.
#[cycle(core)]
pub enum Node {
    /// A constant, as its token is read, of a type.
    Constant(List<u8>, PgType),
    /// NULL of a type.
    Null(PgType),
    /// A parameter, by its number from 1, of the type that it has at this place.
    Param(u32, PgType),
    Column(Slot, PgType),
    /// An operation over operands.
    Apply(Operation, Items<Node>),
    /// A query inside, with the operand that is compared with its rows, where there is one.
    Subquery(Inner, Items<Node>, Boxed<Query>),
    /// An aggregate with its arguments, the items of its ORDER BY, and its FILTER, where there is one.
    Aggregate(Aggregation, Items<Node>, Items<Node>, Items<Node>),
}

/// What rows come from.
#[cycle(core)]
pub enum Source {
    /// A table, by its place in the catalogue.
    Table(usize),
    /// A query of WITH, by its place among all that are seen, from the outermost.
    Common(usize),
    /// A query in FROM.
    Derived(Boxed<Query>),
    /// A chain of joins.
    Chain(Boxed<Source>, Items<Step>),
}

/// A step of a chain of joins.
#[cycle(core)]
pub enum Step {
    /// CROSS JOIN.
    Cross(Source),
    /// A join on conditions, each of which is to be true.
    On(Joining, Source, Items<Node>),
}

/// A query.
#[cycle(core)]
pub enum Query {
    /// SELECT. FROM; the conditions of WHERE; the items of GROUP BY; the conditions of HAVING; the
    /// outputs; and the items of DISTINCT ON and of ORDER BY that are no outputs.
    Select {
        manner: Manner,
        from: Items<Source>,
        conditions: Items<Node>,
        groups: Items<Node>,
        having: Items<Node>,
        outputs: Items<Node>,
        keys: Items<Node>,
    },
    /// Set operations, from the left: a query, and one more for each operation.
    Combined(List<SetLink>, Items<Query>),
    /// The queries of WITH in order, each of which sees those before it, and the query that sees all.
    With(Items<Query>, Boxed<Query>),
    /// A query with ORDER BY over its outputs, where that is written, with the items of ORDER BY that
    /// are no outputs, and with the expressions of LIMIT and OFFSET.
    Limited(bool, Boxed<Query>, Items<Node>, Items<Node>),
}

// The types of the cycle have drops of their own, so that they are proved here and once: a derived
// drop is proved anew in each crate that drops a tree.
impl Drop for Node {
    #[cycle(core)]
    fn drop(self) {
        match self {
            Node::Constant(_reading, _) => (),
            Node::Null(_) | Node::Param(_, _) | Node::Column(_, _) => (),
            Node::Apply(_operation, operands) => drop(operands),
            Node::Subquery(_inner, operands, query) => {
                drop(operands);
                drop(query);
            }
            Node::Aggregate(_aggregation, arguments, sorts, filter) => {
                drop(arguments);
                drop(sorts);
                drop(filter);
            }
        }
    }
}

impl Drop for Source {
    #[cycle(core)]
    fn drop(self) {
        match self {
            Source::Table(_) | Source::Common(_) => (),
            Source::Derived(query) => drop(query),
            Source::Chain(first, steps) => {
                drop(first);
                drop(steps);
            }
        }
    }
}

impl Drop for Step {
    #[cycle(core)]
    fn drop(self) {
        match self {
            Step::Cross(source) => drop(source),
            Step::On(_joining, source, conditions) => {
                drop(source);
                drop(conditions);
            }
        }
    }
}

impl Drop for Query {
    #[cycle(core)]
    fn drop(self) {
        match self {
            Query::Select {
                manner: _,
                from,
                conditions,
                groups,
                having,
                outputs,
                keys,
            } => {
                drop(from);
                drop(conditions);
                drop(groups);
                drop(having);
                drop(outputs);
                drop(keys);
            }
            Query::Combined(_links, queries) => drop(queries),
            Query::With(queries, body) => {
                drop(queries);
                drop(body);
            }
            Query::Limited(_, query, keys, limits) => {
                drop(query);
                drop(keys);
                drop(limits);
            }
        }
    }
}
