ghost use Rattle.std.specs.Prelude.{◌≡◌, ◌-◌, ◌^◌, ◌<◌, map, slice_get, OnSome};
ghost use Rattle.std.specs.Option.{option_map};
ghost use Rattle.sq_measures.specs.Parts as spec;
ghost use Rattle.sq_syntax.specs.declared.expr.Expression.TheViews.{out-Factor, out-Join, out-Source, out-From, out-Query, out-Select};

use crate::part::{Part, in_expression, in_expressions, in_sorts, single};
use sq_syntax::{
    Distinctness, Expression, Factor, From, Join, Limit, Matched, Node, Offset, Operands, Output,
    Query, Select, SetLink, Source, With,
};
use sqlite_items::Boxed;

fn limit(tree: &Option<Limit<Node<Expression>>>) -> Part<'_>
    ensures { spec.seen result ≡ spec.limit_tree tree.now }
{
    match tree {
        None => Part::None,
        Some(Limit::All) => Part::None,
        Some(Limit::Count(x)) => Part::Expression(x),
    }
}

fn offset(tree: &Option<Offset<Node<Expression>>>) -> Part<'_>
    ensures { spec.seen result ≡ spec.offset_tree tree.now }
{
    match tree {
        None => Part::None,
        Some(x) => Part::Expression(&x.count),
    }
}

fn condition(tree: &Option<Node<Expression>>) -> Part<'_>
    ensures { spec.seen result ≡ spec.optional tree.now }
{
    match tree {
        None => Part::None,
        Some(x) => Part::Expression(x),
    }
}

fn output(tree: &Output<Node<Expression>>) -> Part<'_>
    ensures { spec.seen result ≡ spec.output_tree tree.now }
{
    match tree {
        Output::Star => Part::None,
        Output::StarOf(_) => Part::None,
        Output::Value(x, _) => Part::Expression(x),
    }
}

fn in_withs(withs: &[With<Boxed<Query>>], at: usize) -> Option<Part<'_>>
    ensures part { option_map spec.seen result ≡ slice_get (map (λ y. spec.query y.query) withs.now) at }
    ensures before { OnSome result (at < 2 ^ 64 - 1) }
{
    match withs.get(at) {
        None => None,
        Some(with) => Some(Part::Query(with.query.get())),
    }
}

fn in_operands(links: &[SetLink<Operands<Factor>>], at: usize) -> Option<Part<'_>>
    ensures part { option_map spec.seen result ≡ slice_get (map (λ y. spec.factors y.operand) links.now) at }
    ensures before { OnSome result (at < 2 ^ 64 - 1) }
{
    match links.get(at) {
        None => None,
        Some(link) => Some(Part::Factors(&link.operand)),
    }
}

fn in_factors(links: &[SetLink<Factor>], at: usize) -> Option<Part<'_>>
    ensures part { option_map spec.seen result ≡ slice_get (map (λ y. spec.factor y.operand) links.now) at }
    ensures before { OnSome result (at < 2 ^ 64 - 1) }
{
    match links.get(at) {
        None => None,
        Some(link) => Some(Part::Factor(&link.operand)),
    }
}

fn in_outputs(outputs: &[Node<Output<Node<Expression>>>], at: usize) -> Option<Part<'_>>
    ensures part { option_map spec.seen result ≡ slice_get (map (λ y. spec.output_tree y.form) outputs.now) at }
    ensures before { OnSome result (at < 2 ^ 64 - 1) }
{
    match outputs.get(at) {
        None => None,
        Some(x) => Some(output(&x.form)),
    }
}

fn in_froms(items: &[From], at: usize) -> Option<Part<'_>>
    ensures part { option_map spec.seen result ≡ slice_get (map spec.from items.now) at }
    ensures before { OnSome result (at < 2 ^ 64 - 1) }
{
    match items.get(at) {
        None => None,
        Some(item) => Some(Part::From(item)),
    }
}

fn in_joins(joins: &[Join], at: usize) -> Option<Part<'_>>
    ensures part { option_map spec.seen result ≡ slice_get (map spec.join joins.now) at }
    ensures before { OnSome result (at < 2 ^ 64 - 1) }
{
    match joins.get(at) {
        None => None,
        Some(join) => Some(Part::Join(join)),
    }
}

fn in_distinct(tree: &Distinctness<Node<Expression>>, at: usize) -> Option<Part<'_>>
    ensures part { option_map spec.seen result ≡ slice_get (spec.distinct_group tree.now) at }
    ensures before { OnSome result (at < 2 ^ 64 - 1) }
{
    match tree {
        Distinctness::Unsaid => None,
        Distinctness::All => None,
        Distinctness::Distinct => None,
        Distinctness::On(xs) => in_expressions(xs.as_slice(), at),
    }
}

fn in_query(tree: &Query, group: usize, at: usize) -> Option<Part<'_>>
    ensures part { option_map spec.seen result ≡ slice_get (spec.group group (spec.query_groups (out-Query tree.now))) at }
    ensures before { OnSome result (at < 2 ^ 64 - 1) }
{
    match group {
        0 => in_withs(tree.with.as_slice(), at),
        1 => single(Part::Factors(&tree.body.first), at),
        2 => in_operands(tree.body.links.as_slice(), at),
        3 => in_sorts(tree.order.as_slice(), at),
        4 => single(limit(&tree.limit), at),
        5 => single(offset(&tree.offset), at),
        _ => None,
    }
}

fn in_chain(tree: &Operands<Factor>, group: usize, at: usize) -> Option<Part<'_>>
    ensures part { option_map spec.seen result ≡ slice_get (spec.group group (spec.operand_groups tree.now)) at }
    ensures before { OnSome result (at < 2 ^ 64 - 1) }
{
    match group {
        0 => single(Part::Factor(&tree.first), at),
        1 => in_factors(tree.links.as_slice(), at),
        _ => None,
    }
}

fn in_factor(tree: &Factor, group: usize, at: usize) -> Option<Part<'_>>
    ensures part { option_map spec.seen result ≡ slice_get (spec.group group (spec.factor_groups (out-Factor tree.now))) at }
    ensures before { OnSome result (at < 2 ^ 64 - 1) }
{
    match tree {
        Factor::Core(x) => match group {
            0 => single(Part::Select(x), at),
            _ => None,
        },
        Factor::Nested(x) => match group {
            0 => single(Part::Query(x.get()), at),
            _ => None,
        },
    }
}

fn in_select(tree: &Select, group: usize, at: usize) -> Option<Part<'_>>
    ensures part { option_map spec.seen result ≡ slice_get (spec.group group (spec.select_groups (out-Select tree.now))) at }
    ensures before { OnSome result (at < 2 ^ 64 - 1) }
{
    match group {
        0 => in_distinct(&tree.distinct, at),
        1 => in_outputs(tree.outputs.as_slice(), at),
        2 => in_froms(tree.from.as_slice(), at),
        3 => single(condition(&tree.condition), at),
        4 => in_expressions(tree.group.as_slice(), at),
        5 => single(condition(&tree.having), at),
        _ => None,
    }
}

fn in_from(tree: &From, group: usize, at: usize) -> Option<Part<'_>>
    ensures part { option_map spec.seen result ≡ slice_get (spec.group group (spec.from_groups (out-From tree.now))) at }
    ensures before { OnSome result (at < 2 ^ 64 - 1) }
{
    match group {
        0 => single(Part::Source(&tree.source), at),
        1 => in_joins(tree.joins.as_slice(), at),
        _ => None,
    }
}

fn in_join(tree: &Join, group: usize, at: usize) -> Option<Part<'_>>
    ensures part { option_map spec.seen result ≡ slice_get (spec.group group (spec.join_groups (out-Join tree.now))) at }
    ensures before { OnSome result (at < 2 ^ 64 - 1) }
{
    match tree {
        Join::Cross(_, x) => match group {
            0 => single(Part::Source(x), at),
            _ => None,
        },
        Join::Matched(_, _, x, Matched::On(y)) => match group {
            0 => single(Part::Source(x), at),
            1 => single(Part::Expression(y), at),
            _ => None,
        },
        Join::Matched(_, _, x, Matched::Using(_)) => match group {
            0 => single(Part::Source(x), at),
            _ => None,
        },
    }
}

fn in_source(tree: &Source, group: usize, at: usize) -> Option<Part<'_>>
    ensures part { option_map spec.seen result ≡ slice_get (spec.group group (spec.source_groups (out-Source tree.now))) at }
    ensures before { OnSome result (at < 2 ^ 64 - 1) }
{
    match tree {
        Source::Table(_, _) => None,
        Source::Derived(x, _) => match group {
            0 => single(Part::Query(x.get()), at),
            _ => None,
        },
        Source::Grouped(x) => match group {
            0 => single(Part::From(x.get()), at),
            _ => None,
        },
    }
}

impl<'a> Part<'a> {
    /// A part of the part, by its group and its number in the group.
    pub fn within(self, group: usize, at: usize) -> Option<Part<'a>>
        ensures part { option_map spec.seen result ≡ slice_get (spec.group group (spec.groups (spec.seen self.entry))) at }
        ensures before { OnSome result (at < 2 ^ 64 - 1) }
    {
        match self {
            Part::None => None,
            Part::Expression(x) => in_expression(&x.form, group, at),
            Part::Query(x) => in_query(x, group, at),
            Part::Factors(x) => in_chain(x, group, at),
            Part::Factor(x) => in_factor(x, group, at),
            Part::Select(x) => in_select(x, group, at),
            Part::From(x) => in_from(x, group, at),
            Part::Join(x) => in_join(x, group, at),
            Part::Source(x) => in_source(&x.form, group, at),
        }
    }
}
