ghost use Rattle.std.specs.Prelude.{◌≡◌, ◌-◌, ◌^◌, ◌<◌, min, map, slice_get, OnSome};
ghost use Rattle.std.specs.Option.{option_map};
ghost use Rattle.sq_measures.specs.Parts as spec;
ghost use Rattle.sq_syntax.specs.declared.expr.Expression.TheViews.{out-Expression};

use sq_syntax::{
    Arguments, Arm, Expression, Factor, From, Index, Join, Joint, Link, Node, Operands, Query,
    Select, Sort, Source,
};
use sqlite_items::Boxed;

/// A part of a tree.
#[derive(Clone, Copy)]
pub enum Part<'a> {
    None,
    Expression(&'a Node<Expression>),
    Query(&'a Query),
    /// A chain of INTERSECT.
    Factors(&'a Operands<Factor>),
    Factor(&'a Factor),
    Select(&'a Select),
    From(&'a From),
    Join(&'a Join),
    Source(&'a Node<Source>),
}

fn optional(tree: &Option<Boxed<Node<Expression>>>) -> Part<'_>
    ensures { spec.seen result ≡ spec.optional tree.now }
{
    match tree {
        None => Part::None,
        Some(tree) => Part::Expression(tree.get()),
    }
}

/// The only part of its group.
pub fn single(part: Part<'_>, at: usize) -> Option<Part<'_>>
    ensures part { option_map spec.seen result ≡ slice_get (spec.single (spec.seen part.entry)) at }
    ensures before { OnSome result (at < 2 ^ 64 - 1) }
{
    if at == 0 { Some(part) } else { None }
}

pub fn in_expressions(trees: &[Node<Expression>], at: usize) -> Option<Part<'_>>
    ensures part { option_map spec.seen result ≡ slice_get (spec.expressions trees.now) at }
    ensures before { OnSome result (at < 2 ^ 64 - 1) }
{
    match trees.get(at) {
        None => None,
        Some(tree) => Some(Part::Expression(tree)),
    }
}

fn in_conditions(arms: &[Arm<Node<Expression>>], at: usize) -> Option<Part<'_>>
    ensures part { option_map spec.seen result ≡ slice_get (map (λ y. spec.expression y.condition) arms.now) at }
    ensures before { OnSome result (at < 2 ^ 64 - 1) }
{
    match arms.get(at) {
        None => None,
        Some(arm) => Some(Part::Expression(&arm.condition)),
    }
}

fn in_values(arms: &[Arm<Node<Expression>>], at: usize) -> Option<Part<'_>>
    ensures part { option_map spec.seen result ≡ slice_get (map (λ y. spec.expression y.value) arms.now) at }
    ensures before { OnSome result (at < 2 ^ 64 - 1) }
{
    match arms.get(at) {
        None => None,
        Some(arm) => Some(Part::Expression(&arm.value)),
    }
}

fn in_indices(links: &[Index<Node<Expression>>], at: usize) -> Option<Part<'_>>
    ensures part { option_map spec.seen result ≡ slice_get (map (λ y. spec.expression y.index) links.now) at }
    ensures before { OnSome result (at < 2 ^ 64 - 1) }
{
    match links.get(at) {
        None => None,
        Some(link) => Some(Part::Expression(&link.index)),
    }
}

fn in_joints(links: &[Joint<Node<Expression>>], at: usize) -> Option<Part<'_>>
    ensures part { option_map spec.seen result ≡ slice_get (map (λ y. spec.expression y.operand) links.now) at }
    ensures before { OnSome result (at < 2 ^ 64 - 1) }
{
    match links.get(at) {
        None => None,
        Some(link) => Some(Part::Expression(&link.operand)),
    }
}

fn in_links(links: &[Link<Node<Expression>>], at: usize) -> Option<Part<'_>>
    ensures part { option_map spec.seen result ≡ slice_get (map (λ y. spec.expression y.operand) links.now) at }
    ensures before { OnSome result (at < 2 ^ 64 - 1) }
{
    match links.get(at) {
        None => None,
        Some(link) => Some(Part::Expression(&link.operand)),
    }
}

pub fn in_sorts(items: &[Sort<Node<Expression>>], at: usize) -> Option<Part<'_>>
    ensures part { option_map spec.seen result ≡ slice_get (map (λ y. spec.expression y.key) items.now) at }
    ensures before { OnSome result (at < 2 ^ 64 - 1) }
{
    match items.get(at) {
        None => None,
        Some(item) => Some(Part::Expression(&item.key)),
    }
}

fn in_call<'a>(
    within: &'a Arguments<Node<Expression>>,
    last: &'a Option<Boxed<Node<Expression>>>,
    group: usize,
    at: usize,
) -> Option<Part<'a>>
    ensures part { option_map spec.seen result ≡ slice_get (spec.group group (spec.argument_groups within.now last.now)) at }
    ensures before { OnSome result (at < 2 ^ 64 - 1) }
{
    match within {
        Arguments::Star => match group {
            2 => single(optional(last), at),
            _ => None,
        },
        Arguments::List(_, xs, items) => match group {
            0 => in_expressions(xs.as_slice(), at),
            1 => in_sorts(items.as_slice(), at),
            2 => single(optional(last), at),
            _ => None,
        },
    }
}

pub fn in_expression(tree: &Expression, group: usize, at: usize) -> Option<Part<'_>>
    ensures part { option_map spec.seen result ≡ slice_get (spec.group group (spec.expression_groups (out-Expression tree.now))) at }
    ensures before { OnSome result (at < 2 ^ 64 - 1) }
{
    match tree {
        Expression::Constant(_) => None,
        Expression::Parameter(_) => None,
        Expression::Column(_) => None,
        Expression::Bracketed(x) => match group {
            0 => single(Part::Expression(x.get()), at),
            _ => None,
        },
        Expression::Scalar(x) => match group {
            0 => single(Part::Query(x.get()), at),
            _ => None,
        },
        Expression::Exists(x) => match group {
            0 => single(Part::Query(x.get()), at),
            _ => None,
        },
        Expression::ArrayList(xs) => match group {
            0 => in_expressions(xs.as_slice(), at),
            _ => None,
        },
        Expression::ArrayQuery(x) => match group {
            0 => single(Part::Query(x.get()), at),
            _ => None,
        },
        Expression::Case(x, arms, last) => match group {
            0 => single(optional(x), at),
            1 => in_conditions(arms.as_slice(), at),
            2 => in_values(arms.as_slice(), at),
            3 => single(optional(last), at),
            _ => None,
        },
        Expression::Cast(x, _) => match group {
            0 => single(Part::Expression(x.get()), at),
            _ => None,
        },
        Expression::TypedText(_, _) => None,
        Expression::Pooled(_, xs) => match group {
            0 => in_expressions(xs.as_slice(), at),
            _ => None,
        },
        Expression::NullIf(x, y) => match group {
            0 => single(Part::Expression(x.get()), at),
            1 => single(Part::Expression(y.get()), at),
            _ => None,
        },
        Expression::Extract(_, x) => match group {
            0 => single(Part::Expression(x.get()), at),
            _ => None,
        },
        Expression::Moment(_) => None,
        Expression::Call(_, within, last) => in_call(within, last, group, at),
        Expression::Subscript(x, links) => match group {
            0 => single(Part::Expression(x.get()), at),
            1 => in_indices(links.as_slice(), at),
            _ => None,
        },
        Expression::Converted(x, _) => match group {
            0 => single(Part::Expression(x.get()), at),
            _ => None,
        },
        Expression::Signed(_, x) => match group {
            0 => single(Part::Expression(x.get()), at),
            _ => None,
        },
        Expression::Collated(x, _) => match group {
            0 => single(Part::Expression(x.get()), at),
            _ => None,
        },
        Expression::AtTimeZone(x, links) => match group {
            0 => single(Part::Expression(x.get()), at),
            1 => in_joints(links.as_slice(), at),
            _ => None,
        },
        Expression::Operation(x, links) => match group {
            0 => single(Part::Expression(x.get()), at),
            1 => in_links(links.as_slice(), at),
            _ => None,
        },
        Expression::Between(x, _, _, low, high) => match group {
            0 => single(Part::Expression(x.get()), at),
            1 => single(Part::Expression(low.get()), at),
            2 => single(Part::Expression(high.get()), at),
            _ => None,
        },
        Expression::InList(x, _, xs) => match group {
            0 => single(Part::Expression(x.get()), at),
            1 => in_expressions(xs.as_slice(), at),
            _ => None,
        },
        Expression::InQuery(x, _, y) => match group {
            0 => single(Part::Expression(x.get()), at),
            1 => single(Part::Query(y.get()), at),
            _ => None,
        },
        Expression::Like(x, _, _, y) => match group {
            0 => single(Part::Expression(x.get()), at),
            1 => single(Part::Expression(y.get()), at),
            _ => None,
        },
        Expression::Compared(x, _, y) => match group {
            0 => single(Part::Expression(x.get()), at),
            1 => single(Part::Expression(y.get()), at),
            _ => None,
        },
        Expression::AnyArray(x, _, _, y) => match group {
            0 => single(Part::Expression(x.get()), at),
            1 => single(Part::Expression(y.get()), at),
            _ => None,
        },
        Expression::AnyQuery(x, _, _, y) => match group {
            0 => single(Part::Expression(x.get()), at),
            1 => single(Part::Query(y.get()), at),
            _ => None,
        },
        Expression::Tested(x, _) => match group {
            0 => single(Part::Expression(x.get()), at),
            _ => None,
        },
        Expression::Distinct(x, _, y) => match group {
            0 => single(Part::Expression(x.get()), at),
            1 => single(Part::Expression(y.get()), at),
            _ => None,
        },
        Expression::Not(_, x) => match group {
            0 => single(Part::Expression(x.get()), at),
            _ => None,
        },
        Expression::And(x, links) => match group {
            0 => single(Part::Expression(x.get()), at),
            1 => in_joints(links.as_slice(), at),
            _ => None,
        },
        Expression::Or(x, links) => match group {
            0 => single(Part::Expression(x.get()), at),
            1 => in_joints(links.as_slice(), at),
            _ => None,
        },
    }
}

/// A count that stands still at its type's last value.
fn counted(count: usize) -> u32
    ensures { result ≡ min count (2 ^ 32 - 1) }
{
    if count < 0xffff_ffff {
        count as u32
    } else {
        0xffff_ffff
    }
}

/// How much higher an expression is than its highest part.
pub fn steps(tree: &Expression) -> u32
    ensures { result ≡ min (spec.steps (out-Expression tree.now)) (2 ^ 32 - 1) }
{
    match tree {
        Expression::Subscript(_, links) => counted(links.len()),
        Expression::Converted(_, links) => counted(links.len()),
        Expression::Signed(signs, _) => counted(signs.len()),
        Expression::Collated(_, links) => counted(links.len()),
        Expression::AtTimeZone(_, links) => counted(links.len()),
        Expression::Operation(_, links) => counted(links.len()),
        Expression::Not(places, _) => counted(places.len()),
        _ => 1,
    }
}
