//! How high the expressions of a statement are. Each count stands still at its type's last value.

ghost use Rattle.std.specs.Prelude.{◌≡◌, ◌-◌, ◌^◌, min};
ghost use Rattle.sq_syntax.specs.Grammar as grammar;
ghost use Rattle.sq_syntax.specs.Statements as statements;
ghost use Rattle.sq_statements.specs.Heights as spec;
ghost use Rattle.sq_statements.specs.Heights.{greatest};

use sq_measures::{from_height, height, query_height};
use sq_syntax::{
    Assignment, Conflict, ConflictTarget, Delete, Expression, From, Given, Insert, InsertSource,
    Node, Output, Query, Statement, Update, ValuesRow, With,
};
use sqlite_items::Boxed;

fn given_height(tree: &Given) -> u32
    ensures { result ≡ min (spec.given_height tree.now) (2 ^ 32 - 1) }
{
    match tree {
        Given::Default(_) => 0,
        Given::Expression(x) => height(x.get()),
    }
}

fn row_height(tree: &ValuesRow) -> u32
    ensures { result ≡ min (spec.row_height tree.now) (2 ^ 32 - 1) }
{
    let mut most: u32 = 0;
    for value in tree.values.as_slice() {
        most = most.max(given_height(value));
    }
    most
}

fn rows_height(rows: &[ValuesRow]) -> u32
    ensures { result ≡ min (greatest spec.row_height rows.now) (2 ^ 32 - 1) }
{
    let mut most: u32 = 0;
    for row in rows {
        most = most.max(row_height(row));
    }
    most
}

fn source_height(tree: &InsertSource) -> u32
    ensures { result ≡ min (spec.source_height tree.now) (2 ^ 32 - 1) }
{
    match tree {
        InsertSource::Values(rows) => rows_height(rows.as_slice()),
        InsertSource::Query(query) => query_height(query.get()),
        InsertSource::DefaultValues => 0,
    }
}

fn assignments_height(sets: &[Assignment]) -> u32
    ensures { result ≡ min (greatest spec.assignment_height sets.now) (2 ^ 32 - 1) }
{
    let mut most: u32 = 0;
    for set in sets {
        most = most.max(given_height(&set.value));
    }
    most
}

fn condition_height(tree: &Option<Boxed<Node<Expression>>>) -> u32
    ensures { result ≡ min (spec.condition_height tree.now) (2 ^ 32 - 1) }
{
    match tree {
        Some(x) => height(x.get()),
        None => 0,
    }
}

fn target_height(tree: &ConflictTarget) -> u32
    ensures { result ≡ min (spec.target_height tree.now) (2 ^ 32 - 1) }
{
    match tree {
        ConflictTarget::Columns(_, condition) => condition_height(condition),
        ConflictTarget::Constraint(_) => 0,
    }
}

fn optional_target_height(tree: &Option<ConflictTarget>) -> u32
    ensures { result ≡ min (spec.optional_target_height tree.now) (2 ^ 32 - 1) }
{
    match tree {
        Some(target) => target_height(target),
        None => 0,
    }
}

fn conflict_height(tree: &Option<Conflict>) -> u32
    ensures { result ≡ min (spec.conflict_height tree.now) (2 ^ 32 - 1) }
{
    match tree {
        Some(Conflict::Nothing(_, target)) => optional_target_height(target),
        Some(Conflict::Update(_, target, sets, condition)) => target_height(target)
            .max(assignments_height(sets.as_slice()))
            .max(condition_height(condition)),
        None => 0,
    }
}

fn withs_height(withs: &[With<Boxed<Query>>]) -> u32
    ensures { result ≡ min (greatest spec.with_height withs.now) (2 ^ 32 - 1) }
{
    let mut most: u32 = 0;
    for with in withs {
        most = most.max(query_height(with.query.get()));
    }
    most
}

fn output_height(tree: &Output<Node<Expression>>) -> u32
    ensures { result ≡ min (spec.output_height tree.now) (2 ^ 32 - 1) }
{
    match tree {
        Output::Value(x, _) => height(x),
        Output::Star | Output::StarOf(_) => 0,
    }
}

fn returning_height(shown: &[Node<Output<Node<Expression>>>]) -> u32
    ensures { result ≡ min (greatest spec.shown_height shown.now) (2 ^ 32 - 1) }
{
    let mut most: u32 = 0;
    for each in shown {
        most = most.max(output_height(&each.form));
    }
    most
}

fn sources_height(sources: &[From]) -> u32
    ensures { result ≡ min (greatest grammar.from_height sources.now) (2 ^ 32 - 1) }
{
    let mut most: u32 = 0;
    for source in sources {
        most = most.max(from_height(source));
    }
    most
}

fn insert_height(tree: &Insert) -> u32
    ensures { result ≡ min (spec.insert_height tree.now) (2 ^ 32 - 1) }
{
    withs_height(tree.with.as_slice())
        .max(source_height(&tree.source))
        .max(conflict_height(&tree.conflict))
        .max(returning_height(tree.returning.as_slice()))
}

fn update_height(tree: &Update) -> u32
    ensures { result ≡ min (spec.update_height tree.now) (2 ^ 32 - 1) }
{
    withs_height(tree.with.as_slice())
        .max(assignments_height(tree.sets.as_slice()))
        .max(sources_height(tree.from.as_slice()))
        .max(condition_height(&tree.condition))
        .max(returning_height(tree.returning.as_slice()))
}

fn delete_height(tree: &Delete) -> u32
    ensures { result ≡ min (spec.delete_height tree.now) (2 ^ 32 - 1) }
{
    withs_height(tree.with.as_slice())
        .max(sources_height(tree.using.as_slice()))
        .max(condition_height(&tree.condition))
        .max(returning_height(tree.returning.as_slice()))
}

/// The greatest height of a statement's expressions, up to the last value of its type.
#[tactic(auto, using(crate::proofs::Heights::insert_is, crate::proofs::Heights::update_is, crate::proofs::Heights::delete_is))]
pub fn statement_height(tree: &Statement) -> u32
    ensures { result ≡ min (statements.statement_height tree.now) (2 ^ 32 - 1) }
{
    match tree {
        Statement::Query(query) => query_height(query.get()),
        Statement::Insert(insert) => insert_height(insert),
        Statement::Update(update) => update_height(update),
        Statement::Delete(delete) => delete_height(delete),
    }
}
