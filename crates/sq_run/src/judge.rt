ghost use Rattle.std.specs.Prelude.{◌≡◌, IfOk};
ghost use Rattle.sq_base.specs.Answers.{Gives as Answers, IsFaultOf};
ghost use Rattle.sq_core.specs.Columns.{select};
ghost use Rattle.sq_run.specs.Judged.{unknown, node_of, output_of, judged_names, judged_select, have_names, are_all_columns, model_used, judged};

use crate::statements::{Named, Select};
use sq_base::{Code, Fault, List, Name, Refusal};
use sq_catalog::{Catalogue, Column, Table, placed_column};
use sq_core::{CoreStatement, Manner, Node, Query, Slot, Source};
use sq_shown::Output;
use sqlite_items::{Boxed, Items};
use std::alloc::{AllocError, Global};

/// What a query is judged to be.
#[derive(Drop)]
pub struct Judged {
    pub core: CoreStatement,
    pub columns: List<Output>,
    /// The id of the table whose model the query's rows have.
    pub model: Option<u32>,
}

/// Refuses a name.
fn unknown(alloc: Global, code: Code, named: &Named) -> Fault
    ensures { IsFaultOf (unknown code named.now) result }
{
    match Refusal::naming(alloc, code, named.place, named.name.as_str()) {
        Ok(refusal) => Fault::Refused(refusal),
        Err(_) => Fault::Memory,
    }
}

/// A column of the table, by its place there.
fn node_of(place: usize, column: &Column) -> Node
    ensures { result ≡ node_of place column.now }
{
    let slot = Slot {
        depth: 0,
        range: 0,
        column: place,
    };
    Node::Column(slot, column.of)
}

/// A column of the rows.
pub fn output_of(alloc: Global, column: &Column) -> Result<Output, AllocError>
    ensures { IfOk result (λ output. output ≡ output_of column.now) }
{
    Ok(Output {
        name: column.name.copy(alloc)?,
        of: column.of,
        nullable: !column.not_null,
    })
}

/// The columns that these names mean.
fn judge_names(
    alloc: Global,
    table: &Table,
    names: &[Named],
) -> Result<(Items<Node>, List<Output>), Fault>
    ensures { Answers (judged_names table.now names.now) result }
{
    let mut nodes = Items::new(alloc);
    let mut outputs = List::new(alloc);
    for named in names {
        match placed_column(table, named.name.as_str()) {
            Some((place, column)) => {
                nodes.push(node_of(place, column))?;
                outputs.push(output_of(alloc, column)?)?;
            }
            None => return Err(unknown(alloc, Code::UnknownColumn, named)),
        }
    }
    Ok((nodes, outputs))
}

/// Whether outputs and columns have the same names one by one, as far as both go.
fn have_names(outputs: &[Output], columns: &[Column]) -> bool
    ensures { result ≡ have_names outputs.now columns.now }
{
    outputs.iter().zip(columns).all(|(output, column)| output.name.as_str() == column.name.as_str())
}

/// Whether the outputs are all columns of the table in order.
fn are_all_columns(outputs: &[Output], columns: &[Column]) -> bool
    ensures { result ≡ are_all_columns outputs.now columns.now }
{
    outputs.len() == columns.len() && have_names(outputs, columns)
}

/// The model that is used for these outputs.
fn model_used(table: &Table, outputs: &[Output]) -> Option<u32>
    ensures { result ≡ model_used table.now outputs.now }
{
    if 2 <= outputs.len() && are_all_columns(outputs, table.columns.as_slice()) {
        Some(table.id)
    } else {
        None
    }
}

/// The SELECT of these nodes from the table at a place.
fn select(alloc: Global, place: usize, outputs: Items<Node>) -> Result<CoreStatement, AllocError>
    ensures { IfOk result (λ core. core ≡ select place outputs) }
{
    let mut from = Items::new(alloc);
    from.push(Source::Table(place))?;
    let query = Query::Select {
        manner: Manner {
            grouped: false,
            distinct: false,
            ordered: false,
        },
        from,
        conditions: Items::new(alloc),
        groups: Items::new(alloc),
        having: Items::new(alloc),
        outputs,
        keys: Items::new(alloc),
    };
    Ok(CoreStatement::Select(Boxed::new(alloc, query)?))
}

/// A query for columns of the table at this place.
fn judge_select(
    alloc: Global,
    place: usize,
    table: &Table,
    names: &[Named],
) -> Result<Judged, Fault>
    ensures { Answers (judged_select place table.now (judged_names table.now names.now)) result }
{
    let (nodes, columns) = judge_names(alloc, table, names)?;
    let model = model_used(table, columns.as_slice());
    Ok(Judged {
        core: select(alloc, place, nodes)?,
        columns,
        model,
    })
}

/// Judges a query over the catalogue.
#[tactic(auto, unfolding(crate::specs::Judged::judged))]
pub fn judge(alloc: Global, catalogue: &Catalogue, query: &Select) -> Result<Judged, Fault>
    ensures { Answers (judged catalogue.now query.now) result }
{
    match catalogue.placed_table("public", query.table.name.as_str()) {
        Some((place, table)) => judge_select(alloc, place, table, query.outputs.as_slice()),
        None => Err(unknown(alloc, Code::UnknownTable, &query.table)),
    }
}
