//! Lists of parts, taken out of what holds them.

ghost use Rattle.std.specs.Prelude.{◌≡◌, ◌<◌, ◌≤◌, ◌+◌, ◌++◌, ◌∷◌, [], IfOk};
ghost use Rattle.std.specs.Vec.{vec_len, vec_capacity};

use crate::expression::HeldExpression;
use crate::from::{HeldFrom, HeldJoin};
use crate::queries::{HeldChain, HeldFactor, HeldQuery};
use sq_base::List;
use sq_syntax::{
    Arm, Expression, Factor, From, Index, Join, Joint, Link, Node, Operands, Output, Query,
    SetLink, Sort, With,
};
use sqlite_items::{Boxed, Items};
use std::alloc::{AllocError, Global};

/// Puts an item at the end, where there is room for it.
fn put<T>(items: &mut Vec<T>, item: T)
    requires { vec_len items.old < vec_capacity items.old }
    ensures items { items.new.items ≡ items.old.items ++ item ∷ [] }
    ensures len { vec_len items.new ≡ vec_len items.old + 1 }
    ensures capacity { vec_capacity items.old ≤ vec_capacity items.new }
{
    if let Err(_refused) = items.push(item) {
        unreachable!();
    }
}

/// Expressions.
pub fn expressions(
    alloc: Global,
    held: List<HeldExpression>,
) -> Result<Items<Node<Expression>>, AllocError>
    ensures { IfOk result (λ items. items ≡ held) }
{
    let mut items = Vec::with_capacity(alloc, held.len())?;
    for each in held.into_vec() {
        put(&mut items, each.into_box().into_inner());
    }
    Ok(Items::from_vec(items))
}

/// The arms of a CASE.
pub fn arms(
    alloc: Global,
    held: List<Arm<HeldExpression>>,
) -> Result<Items<Arm<Node<Expression>>>, AllocError>
    ensures { IfOk result (λ items. items ≡ held) }
{
    let mut items = Vec::with_capacity(alloc, held.len())?;
    for each in held.into_vec() {
        put(
            &mut items,
            Arm {
                condition: each.condition.into_box().into_inner(),
                value: each.value.into_box().into_inner(),
            },
        );
    }
    Ok(Items::from_vec(items))
}

/// Items of ORDER BY.
pub fn sorts(
    alloc: Global,
    held: List<Sort<HeldExpression>>,
) -> Result<Items<Sort<Node<Expression>>>, AllocError>
    ensures { IfOk result (λ items. items ≡ held) }
{
    let mut items = Vec::with_capacity(alloc, held.len())?;
    for each in held.into_vec() {
        put(
            &mut items,
            Sort {
                key: each.key.into_box().into_inner(),
                direction: each.direction,
                nulls: each.nulls,
            },
        );
    }
    Ok(Items::from_vec(items))
}

/// Subscripts.
pub fn indices(
    alloc: Global,
    held: List<Index<HeldExpression>>,
) -> Result<Items<Index<Node<Expression>>>, AllocError>
    ensures { IfOk result (λ items. items ≡ held) }
{
    let mut items = Vec::with_capacity(alloc, held.len())?;
    for each in held.into_vec() {
        put(
            &mut items,
            Index {
                place: each.place,
                index: each.index.into_box().into_inner(),
            },
        );
    }
    Ok(Items::from_vec(items))
}

/// Operands behind words.
pub fn joints(
    alloc: Global,
    held: List<Joint<HeldExpression>>,
) -> Result<Items<Joint<Node<Expression>>>, AllocError>
    ensures { IfOk result (λ items. items ≡ held) }
{
    let mut items = Vec::with_capacity(alloc, held.len())?;
    for each in held.into_vec() {
        put(
            &mut items,
            Joint {
                place: each.place,
                operand: each.operand.into_box().into_inner(),
            },
        );
    }
    Ok(Items::from_vec(items))
}

/// Operands behind operators.
pub fn links(
    alloc: Global,
    held: List<Link<HeldExpression>>,
) -> Result<Items<Link<Node<Expression>>>, AllocError>
    ensures { IfOk result (λ items. items ≡ held) }
{
    let mut items = Vec::with_capacity(alloc, held.len())?;
    for each in held.into_vec() {
        put(
            &mut items,
            Link {
                place: each.place,
                operator: each.operator,
                operand: each.operand.into_box().into_inner(),
            },
        );
    }
    Ok(Items::from_vec(items))
}

fn output(held: Output<HeldExpression>) -> Output<Boxed<Node<Expression>>>
    ensures { result ≡ held }
{
    match held {
        Output::Star => Output::Star,
        Output::StarOf(name) => Output::StarOf(name),
        Output::Value(part, label) => Output::Value(part.into_box(), label),
    }
}

// What takes a part out of its box is generic where it can be: a function that knows the part's
// type costs its proof much more.

fn output_of<E>(held: Output<Boxed<E>>) -> Output<E>
    ensures { result ≡ held }
{
    match held {
        Output::Star => Output::Star,
        Output::StarOf(name) => Output::StarOf(name),
        Output::Value(part, label) => Output::Value(part.into_inner(), label),
    }
}

/// What may be wanting, out of its box.
pub fn optional<E>(held: Option<Boxed<E>>) -> Option<E>
    ensures { result ≡ held }
{
    match held {
        Some(part) => Some(part.into_inner()),
        None => None,
    }
}

/// A chain of operands in a box.
pub fn chain<T: Drop>(
    alloc: Global,
    first: Boxed<T>,
    links: Items<SetLink<T>>,
) -> Result<Boxed<Operands<T>>, AllocError>
    ensures { IfOk result (λ chain. chain ≡ record { first = first; links = links }) }
{
    Boxed::new(
        alloc,
        Operands {
            first: first.into_inner(),
            links,
        },
    )
}

/// Outputs of a SELECT.
pub fn outputs(
    alloc: Global,
    held: List<Node<Output<HeldExpression>>>,
) -> Result<Items<Node<Output<Node<Expression>>>>, AllocError>
    ensures { IfOk result (λ items. items ≡ held) }
{
    let mut items = Vec::with_capacity(alloc, held.len())?;
    for each in held.into_vec() {
        put(
            &mut items,
            Node {
                place: each.place,
                first: each.first,
                last: each.last,
                form: output_of(output(each.form)),
            },
        );
    }
    Ok(Items::from_vec(items))
}

/// What is joined to a source.
pub fn joins(alloc: Global, held: List<HeldJoin>) -> Result<Items<Join>, AllocError>
    ensures { IfOk result (λ items. items ≡ held) }
{
    let mut items = Vec::with_capacity(alloc, held.len())?;
    for each in held.into_vec() {
        put(&mut items, each.into_box().into_inner());
    }
    Ok(Items::from_vec(items))
}

/// Items of FROM.
pub fn froms(alloc: Global, held: List<HeldFrom>) -> Result<Items<From>, AllocError>
    ensures { IfOk result (λ items. items ≡ held) }
{
    let mut items = Vec::with_capacity(alloc, held.len())?;
    for each in held.into_vec() {
        put(&mut items, each.into_box().into_inner());
    }
    Ok(Items::from_vec(items))
}

/// Operands behind INTERSECT.
pub fn tight_links(
    alloc: Global,
    held: List<SetLink<HeldFactor>>,
) -> Result<Items<SetLink<Factor>>, AllocError>
    ensures { IfOk result (λ items. items ≡ held) }
{
    let mut items = Vec::with_capacity(alloc, held.len())?;
    for each in held.into_vec() {
        put(
            &mut items,
            SetLink {
                place: each.place,
                operation: each.operation,
                quantity: each.quantity,
                operand: each.operand.into_box().into_inner(),
            },
        );
    }
    Ok(Items::from_vec(items))
}

/// Operands behind UNION and EXCEPT.
pub fn loose_links(
    alloc: Global,
    held: List<SetLink<HeldChain>>,
) -> Result<Items<SetLink<Operands<Factor>>>, AllocError>
    ensures { IfOk result (λ items. items ≡ held) }
{
    let mut items = Vec::with_capacity(alloc, held.len())?;
    for each in held.into_vec() {
        put(
            &mut items,
            SetLink {
                place: each.place,
                operation: each.operation,
                quantity: each.quantity,
                operand: each.operand.into_box().into_inner(),
            },
        );
    }
    Ok(Items::from_vec(items))
}

/// The queries of WITH.
pub fn withs(
    alloc: Global,
    held: List<With<HeldQuery>>,
) -> Result<Items<With<Boxed<Query>>>, AllocError>
    ensures { IfOk result (λ items. items ≡ held) }
{
    let mut items = Vec::with_capacity(alloc, held.len())?;
    for each in held.into_vec() {
        put(
            &mut items,
            With {
                name: each.name,
                columns: each.columns,
                materialized: each.materialized,
                query: each.query.into_box(),
            },
        );
    }
    Ok(Items::from_vec(items))
}
