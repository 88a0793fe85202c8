//! Expressions, each made in the box that holds it. They stand where their mark does.

ghost use Rattle.std.specs.Prelude.{◌≡◌, IfOk};

use crate::expression::{HeldArguments, HeldExpression, unheld};
use crate::lists::{arms, expressions, indices, joints, links};
use crate::queries::HeldQuery;
use sq_base::{List, Name, Place};
use sq_syntax::{
    Arm, Collation, ColumnName, Comparison, Constant, Conversion, Expression, Identifier, Index,
    Joint, Link, Matching, Moment, Node, Operator, Parameter, Pool, Quantifier, Sign, Test,
    TypeName,
};
use sqlite_items::Boxed;
use std::alloc::{AllocError, Global};

/// A constant
pub fn constant(
    alloc: Global,
    mark: Node<()>,
    value: Constant,
) -> Result<HeldExpression, AllocError>
    ensures { IfOk result (λ made. made ≡ record { place = mark.place; first = mark.first; last = mark.last; form = Expression.Constant value }) }
{
    Ok(HeldExpression::new(Boxed::new(
        alloc,
        Node {
            place: mark.place,
            first: mark.first,
            last: mark.last,
            form: Expression::Constant(value),
        },
    )?))
}

/// A parameter
pub fn parameter(
    alloc: Global,
    mark: Node<()>,
    parameter: Parameter,
) -> Result<HeldExpression, AllocError>
    ensures { IfOk result (λ made. made ≡ record { place = mark.place; first = mark.first; last = mark.last; form = Expression.Parameter parameter }) }
{
    Ok(HeldExpression::new(Boxed::new(
        alloc,
        Node {
            place: mark.place,
            first: mark.first,
            last: mark.last,
            form: Expression::Parameter(parameter),
        },
    )?))
}

/// The name of a column
pub fn column(alloc: Global, mark: Node<()>, name: ColumnName) -> Result<HeldExpression, AllocError>
    ensures { IfOk result (λ made. made ≡ record { place = mark.place; first = mark.first; last = mark.last; form = Expression.Column name }) }
{
    Ok(HeldExpression::new(Boxed::new(
        alloc,
        Node {
            place: mark.place,
            first: mark.first,
            last: mark.last,
            form: Expression::Column(name),
        },
    )?))
}

/// `(x)`
pub fn bracketed(
    alloc: Global,
    mark: Node<()>,
    inner: HeldExpression,
) -> Result<HeldExpression, AllocError>
    ensures { IfOk result (λ made. made ≡ record { place = mark.place; first = mark.first; last = mark.last; form = Expression.Bracketed inner }) }
{
    Ok(HeldExpression::new(Boxed::new(
        alloc,
        Node {
            place: mark.place,
            first: mark.first,
            last: mark.last,
            form: Expression::Bracketed(inner.into_box()),
        },
    )?))
}

/// `(query)`
pub fn scalar(alloc: Global, mark: Node<()>, query: HeldQuery) -> Result<HeldExpression, AllocError>
    ensures { IfOk result (λ made. made ≡ record { place = mark.place; first = mark.first; last = mark.last; form = Expression.Scalar query }) }
{
    Ok(HeldExpression::new(Boxed::new(
        alloc,
        Node {
            place: mark.place,
            first: mark.first,
            last: mark.last,
            form: Expression::Scalar(query.into_box()),
        },
    )?))
}

/// `EXISTS (query)`
pub fn exists(alloc: Global, mark: Node<()>, query: HeldQuery) -> Result<HeldExpression, AllocError>
    ensures { IfOk result (λ made. made ≡ record { place = mark.place; first = mark.first; last = mark.last; form = Expression.Exists query }) }
{
    Ok(HeldExpression::new(Boxed::new(
        alloc,
        Node {
            place: mark.place,
            first: mark.first,
            last: mark.last,
            form: Expression::Exists(query.into_box()),
        },
    )?))
}

/// `ARRAY[x, ..]`
pub fn array_list(
    alloc: Global,
    mark: Node<()>,
    all: List<HeldExpression>,
) -> Result<HeldExpression, AllocError>
    ensures { IfOk result (λ made. made ≡ record { place = mark.place; first = mark.first; last = mark.last; form = Expression.ArrayList all }) }
{
    let all = expressions(alloc, all)?;
    Ok(HeldExpression::new(Boxed::new(
        alloc,
        Node {
            place: mark.place,
            first: mark.first,
            last: mark.last,
            form: Expression::ArrayList(all),
        },
    )?))
}

/// `ARRAY(query)`
pub fn array_query(
    alloc: Global,
    mark: Node<()>,
    query: HeldQuery,
) -> Result<HeldExpression, AllocError>
    ensures { IfOk result (λ made. made ≡ record { place = mark.place; first = mark.first; last = mark.last; form = Expression.ArrayQuery query }) }
{
    Ok(HeldExpression::new(Boxed::new(
        alloc,
        Node {
            place: mark.place,
            first: mark.first,
            last: mark.last,
            form: Expression::ArrayQuery(query.into_box()),
        },
    )?))
}

/// `CASE x WHEN y THEN z ELSE w END`
pub fn case(
    alloc: Global,
    mark: Node<()>,
    subject: Option<HeldExpression>,
    all: List<Arm<HeldExpression>>,
    last: Option<HeldExpression>,
) -> Result<HeldExpression, AllocError>
    ensures { IfOk result (λ made. made ≡ record { place = mark.place; first = mark.first; last = mark.last; form = Expression.Case subject all last }) }
{
    let all = arms(alloc, all)?;
    Ok(HeldExpression::new(Boxed::new(
        alloc,
        Node {
            place: mark.place,
            first: mark.first,
            last: mark.last,
            form: Expression::Case(unheld(subject), all, unheld(last)),
        },
    )?))
}

/// `CAST(x AS type)`
pub fn cast(
    alloc: Global,
    mark: Node<()>,
    value: HeldExpression,
    to: TypeName,
) -> Result<HeldExpression, AllocError>
    ensures { IfOk result (λ made. made ≡ record { place = mark.place; first = mark.first; last = mark.last; form = Expression.Cast value to }) }
{
    Ok(HeldExpression::new(Boxed::new(
        alloc,
        Node {
            place: mark.place,
            first: mark.first,
            last: mark.last,
            form: Expression::Cast(value.into_box(), to),
        },
    )?))
}

/// `type 'text'`
pub fn typed_text(
    alloc: Global,
    mark: Node<()>,
    to: TypeName,
    text: List<u8>,
) -> Result<HeldExpression, AllocError>
    ensures { IfOk result (λ made. made ≡ record { place = mark.place; first = mark.first; last = mark.last; form = Expression.TypedText to text }) }
{
    Ok(HeldExpression::new(Boxed::new(
        alloc,
        Node {
            place: mark.place,
            first: mark.first,
            last: mark.last,
            form: Expression::TypedText(to, text),
        },
    )?))
}

/// `COALESCE(x, ..)` and its like
pub fn pooled(
    alloc: Global,
    mark: Node<()>,
    word: Pool,
    all: List<HeldExpression>,
) -> Result<HeldExpression, AllocError>
    ensures { IfOk result (λ made. made ≡ record { place = mark.place; first = mark.first; last = mark.last; form = Expression.Pooled word all }) }
{
    let all = expressions(alloc, all)?;
    Ok(HeldExpression::new(Boxed::new(
        alloc,
        Node {
            place: mark.place,
            first: mark.first,
            last: mark.last,
            form: Expression::Pooled(word, all),
        },
    )?))
}

/// `NULLIF(x, y)`
pub fn null_if(
    alloc: Global,
    mark: Node<()>,
    left: HeldExpression,
    right: HeldExpression,
) -> Result<HeldExpression, AllocError>
    ensures { IfOk result (λ made. made ≡ record { place = mark.place; first = mark.first; last = mark.last; form = Expression.NullIf left right }) }
{
    Ok(HeldExpression::new(Boxed::new(
        alloc,
        Node {
            place: mark.place,
            first: mark.first,
            last: mark.last,
            form: Expression::NullIf(left.into_box(), right.into_box()),
        },
    )?))
}

/// `EXTRACT(word FROM x)`
pub fn extract(
    alloc: Global,
    mark: Node<()>,
    word: Name,
    value: HeldExpression,
) -> Result<HeldExpression, AllocError>
    ensures { IfOk result (λ made. made ≡ record { place = mark.place; first = mark.first; last = mark.last; form = Expression.Extract word value }) }
{
    Ok(HeldExpression::new(Boxed::new(
        alloc,
        Node {
            place: mark.place,
            first: mark.first,
            last: mark.last,
            form: Expression::Extract(word, value.into_box()),
        },
    )?))
}

/// `CURRENT_DATE` and its like
pub fn moment(alloc: Global, mark: Node<()>, word: Moment) -> Result<HeldExpression, AllocError>
    ensures { IfOk result (λ made. made ≡ record { place = mark.place; first = mark.first; last = mark.last; form = Expression.Moment word }) }
{
    Ok(HeldExpression::new(Boxed::new(
        alloc,
        Node {
            place: mark.place,
            first: mark.first,
            last: mark.last,
            form: Expression::Moment(word),
        },
    )?))
}

/// `name(..)`, and what stands in its FILTER
pub fn call(
    alloc: Global,
    mark: Node<()>,
    name: Identifier,
    arguments: HeldArguments,
    filter: Option<HeldExpression>,
) -> Result<HeldExpression, AllocError>
    ensures { IfOk result (λ made. made ≡ record { place = mark.place; first = mark.first; last = mark.last; form = Expression.Call name arguments filter }) }
{
    Ok(HeldExpression::new(Boxed::new(
        alloc,
        Node {
            place: mark.place,
            first: mark.first,
            last: mark.last,
            form: Expression::Call(name, arguments.into_part(), unheld(filter)),
        },
    )?))
}

/// `x[i]`, any number of times
pub fn subscript(
    alloc: Global,
    mark: Node<()>,
    operand: HeldExpression,
    all: List<Index<HeldExpression>>,
) -> Result<HeldExpression, AllocError>
    ensures { IfOk result (λ made. made ≡ record { place = mark.place; first = mark.first; last = mark.last; form = Expression.Subscript operand all }) }
{
    let all = indices(alloc, all)?;
    Ok(HeldExpression::new(Boxed::new(
        alloc,
        Node {
            place: mark.place,
            first: mark.first,
            last: mark.last,
            form: Expression::Subscript(operand.into_box(), all),
        },
    )?))
}

/// `x::type`, any number of times
pub fn converted(
    alloc: Global,
    mark: Node<()>,
    operand: HeldExpression,
    all: List<Conversion>,
) -> Result<HeldExpression, AllocError>
    ensures { IfOk result (λ made. made ≡ record { place = mark.place; first = mark.first; last = mark.last; form = Expression.Converted operand all }) }
{
    Ok(HeldExpression::new(Boxed::new(
        alloc,
        Node {
            place: mark.place,
            first: mark.first,
            last: mark.last,
            form: Expression::Converted(operand.into_box(), all),
        },
    )?))
}

/// `-x` and `+x`, any number of times
pub fn signed(
    alloc: Global,
    mark: Node<()>,
    all: List<Sign>,
    operand: HeldExpression,
) -> Result<HeldExpression, AllocError>
    ensures { IfOk result (λ made. made ≡ record { place = mark.place; first = mark.first; last = mark.last; form = Expression.Signed all operand }) }
{
    Ok(HeldExpression::new(Boxed::new(
        alloc,
        Node {
            place: mark.place,
            first: mark.first,
            last: mark.last,
            form: Expression::Signed(all, operand.into_box()),
        },
    )?))
}

/// `x COLLATE name`, any number of times
pub fn collated(
    alloc: Global,
    mark: Node<()>,
    operand: HeldExpression,
    all: List<Collation>,
) -> Result<HeldExpression, AllocError>
    ensures { IfOk result (λ made. made ≡ record { place = mark.place; first = mark.first; last = mark.last; form = Expression.Collated operand all }) }
{
    Ok(HeldExpression::new(Boxed::new(
        alloc,
        Node {
            place: mark.place,
            first: mark.first,
            last: mark.last,
            form: Expression::Collated(operand.into_box(), all),
        },
    )?))
}

/// `x AT TIME ZONE y`, any number of times
pub fn at_time_zone(
    alloc: Global,
    mark: Node<()>,
    operand: HeldExpression,
    all: List<Joint<HeldExpression>>,
) -> Result<HeldExpression, AllocError>
    ensures { IfOk result (λ made. made ≡ record { place = mark.place; first = mark.first; last = mark.last; form = Expression.AtTimeZone operand all }) }
{
    let all = joints(alloc, all)?;
    Ok(HeldExpression::new(Boxed::new(
        alloc,
        Node {
            place: mark.place,
            first: mark.first,
            last: mark.last,
            form: Expression::AtTimeZone(operand.into_box(), all),
        },
    )?))
}

/// Operands with the operators of one level between them
pub fn operation(
    alloc: Global,
    mark: Node<()>,
    operand: HeldExpression,
    all: List<Link<HeldExpression>>,
) -> Result<HeldExpression, AllocError>
    ensures { IfOk result (λ made. made ≡ record { place = mark.place; first = mark.first; last = mark.last; form = Expression.Operation operand all }) }
{
    let all = links(alloc, all)?;
    Ok(HeldExpression::new(Boxed::new(
        alloc,
        Node {
            place: mark.place,
            first: mark.first,
            last: mark.last,
            form: Expression::Operation(operand.into_box(), all),
        },
    )?))
}

/// `x [NOT] BETWEEN [SYMMETRIC] y AND z`: whether NOT and whether SYMMETRIC is written
pub fn between(
    alloc: Global,
    mark: Node<()>,
    operand: HeldExpression,
    negated: bool,
    symmetric: bool,
    low: HeldExpression,
    high: HeldExpression,
) -> Result<HeldExpression, AllocError>
    ensures { IfOk result (λ made. made ≡ record { place = mark.place; first = mark.first; last = mark.last; form = Expression.Between operand negated symmetric low high }) }
{
    Ok(HeldExpression::new(Boxed::new(
        alloc,
        Node {
            place: mark.place,
            first: mark.first,
            last: mark.last,
            form: Expression::Between(
                operand.into_box(),
                negated,
                symmetric,
                low.into_box(),
                high.into_box(),
            ),
        },
    )?))
}

/// `x [NOT] IN (y, ..)`: whether NOT is written
pub fn in_list(
    alloc: Global,
    mark: Node<()>,
    operand: HeldExpression,
    negated: bool,
    all: List<HeldExpression>,
) -> Result<HeldExpression, AllocError>
    ensures { IfOk result (λ made. made ≡ record { place = mark.place; first = mark.first; last = mark.last; form = Expression.InList operand negated all }) }
{
    let all = expressions(alloc, all)?;
    Ok(HeldExpression::new(Boxed::new(
        alloc,
        Node {
            place: mark.place,
            first: mark.first,
            last: mark.last,
            form: Expression::InList(operand.into_box(), negated, all),
        },
    )?))
}

/// `x [NOT] IN (query)`: whether NOT is written
pub fn in_query(
    alloc: Global,
    mark: Node<()>,
    operand: HeldExpression,
    negated: bool,
    query: HeldQuery,
) -> Result<HeldExpression, AllocError>
    ensures { IfOk result (λ made. made ≡ record { place = mark.place; first = mark.first; last = mark.last; form = Expression.InQuery operand negated query }) }
{
    Ok(HeldExpression::new(Boxed::new(
        alloc,
        Node {
            place: mark.place,
            first: mark.first,
            last: mark.last,
            form: Expression::InQuery(operand.into_box(), negated, query.into_box()),
        },
    )?))
}

/// `x [NOT] LIKE y` and `x [NOT] ILIKE y`: whether NOT is written
pub fn like(
    alloc: Global,
    mark: Node<()>,
    operand: HeldExpression,
    negated: bool,
    matching: Matching,
    right: HeldExpression,
) -> Result<HeldExpression, AllocError>
    ensures { IfOk result (λ made. made ≡ record { place = mark.place; first = mark.first; last = mark.last; form = Expression.Like operand negated matching right }) }
{
    Ok(HeldExpression::new(Boxed::new(
        alloc,
        Node {
            place: mark.place,
            first: mark.first,
            last: mark.last,
            form: Expression::Like(operand.into_box(), negated, matching, right.into_box()),
        },
    )?))
}

/// `x < y` and its like
pub fn compared(
    alloc: Global,
    mark: Node<()>,
    left: HeldExpression,
    by: Comparison,
    right: HeldExpression,
) -> Result<HeldExpression, AllocError>
    ensures { IfOk result (λ made. made ≡ record { place = mark.place; first = mark.first; last = mark.last; form = Expression.Compared left by right }) }
{
    Ok(HeldExpression::new(Boxed::new(
        alloc,
        Node {
            place: mark.place,
            first: mark.first,
            last: mark.last,
            form: Expression::Compared(left.into_box(), by, right.into_box()),
        },
    )?))
}

/// `x operator ANY (array)`
pub fn any_array(
    alloc: Global,
    mark: Node<()>,
    left: HeldExpression,
    by: Operator,
    word: Quantifier,
    right: HeldExpression,
) -> Result<HeldExpression, AllocError>
    ensures { IfOk result (λ made. made ≡ record { place = mark.place; first = mark.first; last = mark.last; form = Expression.AnyArray left by word right }) }
{
    Ok(HeldExpression::new(Boxed::new(
        alloc,
        Node {
            place: mark.place,
            first: mark.first,
            last: mark.last,
            form: Expression::AnyArray(left.into_box(), by, word, right.into_box()),
        },
    )?))
}

/// `x operator ANY (query)`
pub fn any_query(
    alloc: Global,
    mark: Node<()>,
    left: HeldExpression,
    by: Operator,
    word: Quantifier,
    query: HeldQuery,
) -> Result<HeldExpression, AllocError>
    ensures { IfOk result (λ made. made ≡ record { place = mark.place; first = mark.first; last = mark.last; form = Expression.AnyQuery left by word query }) }
{
    Ok(HeldExpression::new(Boxed::new(
        alloc,
        Node {
            place: mark.place,
            first: mark.first,
            last: mark.last,
            form: Expression::AnyQuery(left.into_box(), by, word, query.into_box()),
        },
    )?))
}

/// `x IS NULL` and its like
pub fn tested(
    alloc: Global,
    mark: Node<()>,
    operand: HeldExpression,
    test: Test,
) -> Result<HeldExpression, AllocError>
    ensures { IfOk result (λ made. made ≡ record { place = mark.place; first = mark.first; last = mark.last; form = Expression.Tested operand test }) }
{
    Ok(HeldExpression::new(Boxed::new(
        alloc,
        Node {
            place: mark.place,
            first: mark.first,
            last: mark.last,
            form: Expression::Tested(operand.into_box(), test),
        },
    )?))
}

/// `x IS [NOT] DISTINCT FROM y`: whether NOT is written
pub fn distinct(
    alloc: Global,
    mark: Node<()>,
    left: HeldExpression,
    negated: bool,
    right: HeldExpression,
) -> Result<HeldExpression, AllocError>
    ensures { IfOk result (λ made. made ≡ record { place = mark.place; first = mark.first; last = mark.last; form = Expression.Distinct left negated right }) }
{
    Ok(HeldExpression::new(Boxed::new(
        alloc,
        Node {
            place: mark.place,
            first: mark.first,
            last: mark.last,
            form: Expression::Distinct(left.into_box(), negated, right.into_box()),
        },
    )?))
}

/// `NOT x`, any number of times
pub fn not(
    alloc: Global,
    mark: Node<()>,
    all: List<Place>,
    operand: HeldExpression,
) -> Result<HeldExpression, AllocError>
    ensures { IfOk result (λ made. made ≡ record { place = mark.place; first = mark.first; last = mark.last; form = Expression.Not all operand }) }
{
    Ok(HeldExpression::new(Boxed::new(
        alloc,
        Node {
            place: mark.place,
            first: mark.first,
            last: mark.last,
            form: Expression::Not(all, operand.into_box()),
        },
    )?))
}

/// `x AND y`, any number of times
pub fn and(
    alloc: Global,
    mark: Node<()>,
    operand: HeldExpression,
    all: List<Joint<HeldExpression>>,
) -> Result<HeldExpression, AllocError>
    ensures { IfOk result (λ made. made ≡ record { place = mark.place; first = mark.first; last = mark.last; form = Expression.And operand all }) }
{
    let all = joints(alloc, all)?;
    Ok(HeldExpression::new(Boxed::new(
        alloc,
        Node {
            place: mark.place,
            first: mark.first,
            last: mark.last,
            form: Expression::And(operand.into_box(), all),
        },
    )?))
}

/// `x OR y`, any number of times
pub fn or(
    alloc: Global,
    mark: Node<()>,
    operand: HeldExpression,
    all: List<Joint<HeldExpression>>,
) -> Result<HeldExpression, AllocError>
    ensures { IfOk result (λ made. made ≡ record { place = mark.place; first = mark.first; last = mark.last; form = Expression.Or operand all }) }
{
    let all = joints(alloc, all)?;
    Ok(HeldExpression::new(Boxed::new(
        alloc,
        Node {
            place: mark.place,
            first: mark.first,
            last: mark.last,
            form: Expression::Or(operand.into_box(), all),
        },
    )?))
}
