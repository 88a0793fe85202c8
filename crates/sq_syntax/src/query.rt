use crate::{Expression, Identifier, Node, QualifiedName, Sort};
use sq_base::{List, Place};
use sqlite_items::{Boxed, Items};

/// A query as it is written (PostgreSQL manual, SELECT). It has the place of its first token, and
/// the numbers of its first and last token in the slice that was parsed.
#[cycle(trees)]
pub struct Query {
    pub place: Place,
    pub first: u32,
    pub last: u32,
    /// The queries of WITH.
    pub with: Items<With<Boxed<Query>>>,
    /// UNION and EXCEPT over chains of INTERSECT.
    pub body: Operands<Operands<Factor>>,
    pub order: Items<Sort<Node<Expression>>>,
    pub limit: Option<Limit<Node<Expression>>>,
    pub offset: Option<Offset<Node<Expression>>>,
    pub locks: List<Lock>,
}

impl Drop for Query {
    #[cycle(trees)]
    fn drop(self) {
        let Query {
            place: _,
            first: _,
            last: _,
            with,
            body,
            order,
            limit,
            offset,
            locks: _,
        } = self;
        drop(with);
        drop(body);
        drop(order);
        drop(limit);
        drop(offset);
    }
}

/// `name (columns) AS (query)`
#[derive(Drop)]
pub struct With<Q> {
    pub name: Identifier,
    /// None where they are not written.
    pub columns: List<Identifier>,
    pub materialized: Materialized,
    pub query: Q,
}

#[derive(Clone, Copy, PartialEq, Eq)]
pub enum Materialized {
    Unsaid,
    Yes,
    No,
}

/// Operands with set operations of one level between them.
#[derive(Drop)]
pub struct Operands<T> {
    pub first: T,
    pub links: Items<SetLink<T>>,
}

/// A set operation, the place of its word, and the operand after it.
#[derive(Drop)]
pub struct SetLink<T> {
    pub place: Place,
    pub operation: SetOperation,
    pub quantity: Quantity,
    pub operand: T,
}

#[derive(Clone, Copy, PartialEq, Eq)]
pub enum SetOperation {
    Union,
    Except,
    Intersect,
}

#[derive(Clone, Copy, PartialEq, Eq)]
pub enum Quantity {
    Unsaid,
    All,
    Distinct,
}

#[cycle(trees)]
pub enum Factor {
    Core(Select),
    /// `(query)`
    Nested(Boxed<Query>),
}

impl Drop for Factor {
    #[cycle(trees)]
    fn drop(self) {
        match self {
            Factor::Core(x) => drop(x),
            Factor::Nested(x) => drop(x),
        }
    }
}

/// `SELECT .. FROM .. WHERE .. GROUP BY .. HAVING ..`
#[cycle(trees)]
pub struct Select {
    pub distinct: Distinctness<Node<Expression>>,
    pub outputs: Items<Node<Output<Node<Expression>>>>,
    pub from: Items<From>,
    pub condition: Option<Node<Expression>>,
    pub group: Items<Node<Expression>>,
    pub having: Option<Node<Expression>>,
}

impl Drop for Select {
    #[cycle(trees)]
    fn drop(self) {
        let Select {
            distinct,
            outputs,
            from,
            condition,
            group,
            having,
        } = self;
        drop(distinct);
        drop(outputs);
        drop(from);
        drop(condition);
        drop(group);
        drop(having);
    }
}

/// What stands behind SELECT.
#[derive(Drop)]
pub enum Distinctness<E> {
    Unsaid,
    All,
    Distinct,
    /// `DISTINCT ON (x, ..)`
    On(Items<E>),
}

#[derive(Drop)]
pub enum Output<E> {
    /// `*`
    Star,
    /// `name.*`
    StarOf(Identifier),
    Value(E, Label),
}

#[derive(Drop)]
pub enum Label {
    Unsaid,
    /// `AS name`
    As(Identifier),
    /// The name alone.
    Bare(Identifier),
}

/// An item of FROM: a source and what is joined to it.
#[cycle(trees)]
pub struct From {
    pub source: Node<Source>,
    pub joins: Items<Join>,
}

impl Drop for From {
    #[cycle(trees)]
    fn drop(self) {
        let From { source, joins } = self;
        drop(source);
        drop(joins);
    }
}

#[cycle(trees)]
pub enum Join {
    /// `CROSS JOIN source`, with the place of CROSS
    Cross(Place, Node<Source>),
    /// The place of the first word, the kind, the source and its condition.
    Matched(Place, JoinKind, Node<Source>, Matched<Node<Expression>>),
}

impl Drop for Join {
    #[cycle(trees)]
    fn drop(self) {
        match self {
            Join::Cross(_, x) => drop(x),
            Join::Matched(_, _, x, condition) => {
                drop(x);
                drop(condition);
            }
        }
    }
}

#[derive(Clone, Copy, PartialEq, Eq)]
pub enum JoinKind {
    /// `JOIN`
    Unsaid,
    Inner,
    Left,
    LeftOuter,
    Right,
    RightOuter,
    Full,
    FullOuter,
}

#[derive(Drop)]
pub enum Matched<E> {
    On(E),
    Using(List<Identifier>),
}

#[cycle(trees)]
pub enum Source {
    Table(QualifiedName, Option<Alias>),
    /// `(query) alias`
    Derived(Boxed<Query>, Alias),
    /// `(from)`
    Grouped(Boxed<From>),
}

impl Drop for Source {
    #[cycle(trees)]
    fn drop(self) {
        match self {
            Source::Table(_name, _alias) => (),
            Source::Derived(x, _alias) => drop(x),
            Source::Grouped(x) => drop(x),
        }
    }
}

/// `[AS] name (columns)`
#[derive(Drop)]
pub struct Alias {
    pub has_as: bool,
    pub name: Identifier,
    /// None where they are not written.
    pub columns: List<Identifier>,
}

#[derive(Drop)]
pub enum Limit<E> {
    All,
    Count(E),
}

#[derive(Drop)]
pub struct Offset<E> {
    pub count: E,
    pub word: RowWord,
}

/// The word behind the number of OFFSET.
#[derive(Clone, Copy, PartialEq, Eq)]
pub enum RowWord {
    Unsaid,
    Row,
    Rows,
}

/// `FOR UPDATE` and its like
#[derive(Drop)]
pub struct Lock {
    pub strength: Strength,
    /// The names of OF, none where it is not written.
    pub of: List<Identifier>,
    pub waiting: Waiting,
}

#[derive(Clone, Copy, PartialEq, Eq)]
pub enum Strength {
    Update,
    NoKeyUpdate,
    Share,
    KeyShare,
}

#[derive(Clone, Copy, PartialEq, Eq)]
pub enum Waiting {
    Unsaid,
    NoWait,
    SkipLocked,
}
