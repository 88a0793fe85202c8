use crate::{ColumnName, Identifier, Query, TypeName};
use sq_base::{List, Name, Place};
use sqlite_items::{Boxed, Items};

/// A part of a statement and where it stands: its place, and the numbers of its first and last
/// token in the slice that was parsed, from 0.
///
/// The place of an expression is that of its operator's first word or sign; of a subscript it is
/// that of `[`; without an operator it is that of the first token. Every other part has the place
/// of its first token.
#[derive(Drop)]
pub struct Node<F> {
    pub place: Place,
    pub first: u32,
    pub last: u32,
    pub form: F,
}

/// An expression as it is written (PostgreSQL manual, section 4.2). Every choice of spelling is
/// kept, brackets too. A chain of operators of one level is one list.
#[cycle(trees)]
pub enum Expression {
    Constant(Constant),
    Parameter(Parameter),
    Column(ColumnName),
    /// `(x)`
    Bracketed(Boxed<Node<Expression>>),
    /// `(query)`
    Scalar(Boxed<Query>),
    /// `EXISTS (query)`
    Exists(Boxed<Query>),
    /// `ARRAY[x, ..]`
    ArrayList(Items<Node<Expression>>),
    /// `ARRAY(query)`
    ArrayQuery(Boxed<Query>),
    /// What stands between CASE and the first WHEN, the arms, and what follows ELSE.
    Case(
        Option<Boxed<Node<Expression>>>,
        Items<Arm<Node<Expression>>>,
        Option<Boxed<Node<Expression>>>,
    ),
    /// `CAST(x AS type)`
    Cast(Boxed<Node<Expression>>, TypeName),
    /// `type 'text'`
    TypedText(TypeName, List<u8>),
    /// `COALESCE(x, ..)` and its like
    Pooled(Pool, Items<Node<Expression>>),
    /// `NULLIF(x, y)`
    NullIf(Boxed<Node<Expression>>, Boxed<Node<Expression>>),
    /// `EXTRACT(word FROM x)`, with the folded word
    Extract(Name, Boxed<Node<Expression>>),
    Moment(Moment),
    /// `name(..)`, and what stands in its FILTER
    Call(Identifier, Arguments<Node<Expression>>, Option<Boxed<Node<Expression>>>),
    /// `x[i]`, any number of times
    Subscript(Boxed<Node<Expression>>, Items<Index<Node<Expression>>>),
    /// `x::type`, any number of times
    Converted(Boxed<Node<Expression>>, List<Conversion>),
    /// `-x` and `+x`, any number of times
    Signed(List<Sign>, Boxed<Node<Expression>>),
    /// `x COLLATE name`, any number of times
    Collated(Boxed<Node<Expression>>, List<Collation>),
    /// `x AT TIME ZONE y`, any number of times
    AtTimeZone(Boxed<Node<Expression>>, Items<Joint<Node<Expression>>>),
    /// Operands with the operators of one level between them
    Operation(Boxed<Node<Expression>>, Items<Link<Node<Expression>>>),
    /// `x [NOT] BETWEEN [SYMMETRIC] y AND z`: whether NOT and whether SYMMETRIC is written
    Between(Boxed<Node<Expression>>, bool, bool, Boxed<Node<Expression>>, Boxed<Node<Expression>>),
    /// `x [NOT] IN (y, ..)`: whether NOT is written
    InList(Boxed<Node<Expression>>, bool, Items<Node<Expression>>),
    /// `x [NOT] IN (query)`: whether NOT is written
    InQuery(Boxed<Node<Expression>>, bool, Boxed<Query>),
    /// `x [NOT] LIKE y`: whether NOT is written
    Like(Boxed<Node<Expression>>, bool, Matching, Boxed<Node<Expression>>),
    Compared(Boxed<Node<Expression>>, Comparison, Boxed<Node<Expression>>),
    /// `x operator ANY (array)`
    AnyArray(Boxed<Node<Expression>>, Operator, Quantifier, Boxed<Node<Expression>>),
    /// `x operator ANY (query)`
    AnyQuery(Boxed<Node<Expression>>, Operator, Quantifier, Boxed<Query>),
    /// `x IS NULL` and its like
    Tested(Boxed<Node<Expression>>, Test),
    /// `x IS [NOT] DISTINCT FROM y`: whether NOT is written
    Distinct(Boxed<Node<Expression>>, bool, Boxed<Node<Expression>>),
    /// `NOT x`, any number of times, with the places of NOT
    Not(List<Place>, Boxed<Node<Expression>>),
    And(Boxed<Node<Expression>>, Items<Joint<Node<Expression>>>),
    Or(Boxed<Node<Expression>>, Items<Joint<Node<Expression>>>),
}

// The types of the cycle have drops of their own, so that they are proved here and once: a derived
// drop is proved anew in each crate that drops a tree.
impl Drop for Expression {
    #[cycle(trees)]
    fn drop(self) {
        match self {
            Expression::Constant(_constant) => (),
            Expression::Parameter(_parameter) => (),
            Expression::Column(_name) => (),
            Expression::TypedText(_to, _text) => (),
            Expression::Moment(_) => (),
            Expression::Bracketed(x) | Expression::Tested(x, _) => drop(x),
            Expression::Cast(x, _to) => drop(x),
            Expression::Extract(_word, x) => drop(x),
            Expression::Converted(x, _links) => drop(x),
            Expression::Signed(_signs, x) => drop(x),
            Expression::Collated(x, _links) => drop(x),
            Expression::Not(_places, x) => drop(x),
            Expression::NullIf(x, y)
            | Expression::Like(x, _, _, y)
            | Expression::Compared(x, _, y)
            | Expression::Distinct(x, _, y) => {
                drop(x);
                drop(y);
            }
            Expression::AnyArray(x, _operator, _, y) => {
                drop(x);
                drop(y);
            }
            Expression::Between(x, _, _, low, high) => {
                drop(x);
                drop(low);
                drop(high);
            }
            Expression::Scalar(query) | Expression::Exists(query) | Expression::ArrayQuery(query) =>
                drop(query),
            Expression::InQuery(x, _, query) => {
                drop(x);
                drop(query);
            }
            Expression::AnyQuery(x, _operator, _, query) => {
                drop(x);
                drop(query);
            }
            Expression::ArrayList(xs) | Expression::Pooled(_, xs) => drop(xs),
            Expression::InList(x, _, xs) => {
                drop(x);
                drop(xs);
            }
            Expression::AtTimeZone(x, links)
            | Expression::And(x, links)
            | Expression::Or(x, links) => {
                drop(x);
                drop(links);
            }
            Expression::Operation(x, links) => {
                drop(x);
                drop(links);
            }
            Expression::Subscript(x, indices) => {
                drop(x);
                drop(indices);
            }
            Expression::Case(x, arms, last) => {
                drop(x);
                drop(arms);
                drop(last);
            }
            Expression::Call(_name, within, last) => {
                drop(within);
                drop(last);
            }
        }
    }
}

/// A constant. Its bytes are those of the source.
#[derive(Drop)]
pub enum Constant {
    Number(List<u8>),
    Text(List<u8>),
    /// A text behind `E`.
    EText(List<u8>),
    /// A text between dollar marks.
    Dollar(List<u8>),
    True,
    False,
    Null,
}

#[derive(Drop)]
pub enum Parameter {
    /// `$1`, with its bytes
    Numbered(List<u8>),
    /// `@name`, with the folded name
    Named(List<u8>),
    /// `sqlc.arg(name)` and its like
    Called(Purpose, ParameterName),
}

/// Which of `sqlc.arg`, `sqlc.narg` and `sqlc.slice` is written.
#[derive(Clone, Copy, PartialEq, Eq)]
pub enum Purpose {
    Arg,
    Narg,
    Slice,
}

#[derive(Drop)]
pub enum ParameterName {
    Identifier(Identifier),
    /// A string constant, with its bytes
    Text(List<u8>),
}

/// `WHEN condition THEN value`.
#[derive(Drop)]
pub struct Arm<E> {
    pub condition: E,
    pub value: E,
}

#[derive(Clone, Copy, Debug, PartialEq, Eq)]
pub enum Pool {
    Coalesce,
    Greatest,
    Least,
}

#[derive(Clone, Copy, Debug, PartialEq, Eq)]
pub enum Moment {
    CurrentDate,
    CurrentTimestamp,
    LocalTimestamp,
}

/// What stands in the brackets of a call.
#[derive(Drop)]
pub enum Arguments<E> {
    /// `*`
    Star,
    /// Whether DISTINCT is written, the arguments, and the items of ORDER BY.
    List(bool, Items<E>, Items<Sort<E>>),
}

/// An item of ORDER BY.
#[derive(Drop)]
pub struct Sort<E> {
    pub key: E,
    pub direction: Direction,
    pub nulls: Nulls,
}

#[derive(Clone, Copy, PartialEq, Eq)]
pub enum Direction {
    Unsaid,
    Ascending,
    Descending,
}

#[derive(Clone, Copy, PartialEq, Eq)]
pub enum Nulls {
    Unsaid,
    First,
    Last,
}

/// `[x]`, with the place of `[`.
#[derive(Drop)]
pub struct Index<E> {
    pub place: Place,
    pub index: E,
}

/// `::type`, with the place of `::`.
#[derive(Drop)]
pub struct Conversion {
    pub place: Place,
    pub to: TypeName,
}

#[derive(Clone, Copy, PartialEq, Eq)]
pub struct Sign {
    pub place: Place,
    pub is_minus: bool,
}

/// `COLLATE name`, with the place of COLLATE.
#[derive(Drop)]
pub struct Collation {
    pub place: Place,
    pub name: Identifier,
}

/// The words between two operands, by the place of the first of them, and the operand after them.
#[derive(Drop)]
pub struct Joint<E> {
    pub place: Place,
    pub operand: E,
}

/// An operator of a chain, its place, and the operand after it.
#[derive(Drop)]
pub struct Link<E> {
    pub place: Place,
    pub operator: Operator,
    pub operand: E,
}

#[derive(Drop)]
pub enum Operator {
    Power,
    Times,
    Divide,
    Modulo,
    Plus,
    Minus,
    Comparison(Comparison),
    /// Every other operator, by its bytes.
    Other(List<u8>),
}

/// `!=` is read as `<>`.
#[derive(Clone, Copy, PartialEq, Eq)]
pub enum Comparison {
    Less,
    Greater,
    Equal,
    LessEqual,
    GreaterEqual,
    NotEqual,
}

#[derive(Clone, Copy, PartialEq, Eq)]
pub enum Matching {
    Like,
    Ilike,
}

#[derive(Clone, Copy, PartialEq, Eq)]
pub enum Quantifier {
    Any,
    Some,
    All,
}

#[derive(Clone, Copy, PartialEq, Eq)]
pub enum Test {
    /// `IS NULL`
    Null,
    /// `IS NOT NULL`
    NotNull,
    True,
    NotTrue,
    False,
    NotFalse,
    Unknown,
    NotUnknown,
    /// `ISNULL`, in one word
    NullWord,
    /// `NOTNULL`, in one word
    NotNullWord,
}
