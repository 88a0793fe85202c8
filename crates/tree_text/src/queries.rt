//! What stands in a query, in the order of its tokens.

use crate::parts::{Part, in_expressions, in_name, in_names, in_qualified, in_sorts};
use crate::words::Done;
use sq_syntax::{
    Alias, Distinctness, Expression, Factor, From, Join, Label, Limit, Matched, Node, Operands,
    Output, Query, Select, SetOperation, Source, With,
};
use sqlite_items::Boxed;

fn in_optional<'a>(tree: &'a Option<Node<Expression>>, found: &mut Vec<Part<'a>>) -> Done {
    if let Some(x) = tree {
        found.push(Part::Expression(x))?;
    }
    Ok(())
}

pub fn in_with<'a>(queries: &'a [With<Boxed<Query>>], found: &mut Vec<Part<'a>>) -> Done {
    for with in queries {
        in_name(&with.name, found)?;
        in_names(with.columns.as_slice(), found)?;
        found.push(Part::Query(with.query.get()))?;
    }
    Ok(())
}

pub fn in_outputs<'a>(
    outputs: &'a [Node<Output<Node<Expression>>>],
    found: &mut Vec<Part<'a>>,
) -> Done {
    for output in outputs {
        found.push(Part::Stretch(output.place, output.first, output.last))?;
        match &output.form {
            Output::Star => {}
            Output::StarOf(name) => in_name(name, found)?,
            Output::Value(x, label) => {
                found.push(Part::Expression(x))?;
                if let Label::As(name) | Label::Bare(name) = label {
                    in_name(name, found)?;
                }
            }
        }
    }
    Ok(())
}

fn in_alias<'a>(alias: &'a Alias, found: &mut Vec<Part<'a>>) -> Done {
    in_name(&alias.name, found)?;
    in_names(alias.columns.as_slice(), found)
}

fn in_source<'a>(source: &'a Node<Source>, found: &mut Vec<Part<'a>>) -> Done {
    found.push(Part::Stretch(source.place, source.first, source.last))?;
    match &source.form {
        Source::Table(name, alias) => {
            in_qualified(name, found)?;
            match alias {
                Some(alias) => in_alias(alias, found),
                None => Ok(()),
            }
        }
        Source::Derived(query, alias) => {
            found.push(Part::Query(query.get()))?;
            in_alias(alias, found)
        }
        Source::Grouped(from) => {
            found.push(Part::From(from.get()))?;
            Ok(())
        }
    }
}

/// The parts of an item of FROM.
pub fn in_from<'a>(from: &'a From, found: &mut Vec<Part<'a>>) -> Done {
    in_source(&from.source, found)?;
    for join in from.joins.as_slice() {
        match join {
            Join::Cross(place, source) => {
                found.push(Part::Word(*place, "CROSS JOIN"))?;
                in_source(source, found)?;
            }
            Join::Matched(place, _, source, by) => {
                found.push(Part::Word(*place, "JOIN"))?;
                in_source(source, found)?;
                match by {
                    Matched::On(x) => found.push(Part::Expression(x))?,
                    Matched::Using(names) => in_names(names.as_slice(), found)?,
                }
            }
        }
    }
    Ok(())
}

fn in_select<'a>(select: &'a Select, found: &mut Vec<Part<'a>>) -> Done {
    if let Distinctness::On(items) = &select.distinct {
        in_expressions(items.as_slice(), found)?;
    }
    in_outputs(select.outputs.as_slice(), found)?;
    for from in select.from.as_slice() {
        found.push(Part::From(from))?;
    }
    in_optional(&select.condition, found)?;
    in_expressions(select.group.as_slice(), found)?;
    in_optional(&select.having, found)
}

/// The parts of an operand of UNION, EXCEPT and INTERSECT.
pub fn in_factor<'a>(factor: &'a Factor, found: &mut Vec<Part<'a>>) -> Done {
    match factor {
        Factor::Core(select) => in_select(select, found),
        Factor::Nested(query) => {
            found.push(Part::Query(query.get()))?;
            Ok(())
        }
    }
}

fn in_chain<'a>(chain: &'a Operands<Factor>, found: &mut Vec<Part<'a>>) -> Done {
    found.push(Part::Factor(&chain.first))?;
    for link in chain.links.as_slice() {
        found.push(Part::Word(link.place, "INTERSECT"))?;
        found.push(Part::Factor(&link.operand))?;
    }
    Ok(())
}

/// The parts of a query.
pub fn in_query<'a>(query: &'a Query, found: &mut Vec<Part<'a>>) -> Done {
    in_with(query.with.as_slice(), found)?;
    in_chain(&query.body.first, found)?;
    for link in query.body.links.as_slice() {
        let word = match link.operation {
            SetOperation::Union => "UNION",
            SetOperation::Except => "EXCEPT",
            SetOperation::Intersect => "INTERSECT",
        };
        found.push(Part::Word(link.place, word))?;
        in_chain(&link.operand, found)?;
    }
    in_sorts(query.order.as_slice(), found)?;
    if let Some(Limit::Count(x)) = &query.limit {
        found.push(Part::Expression(x))?;
    }
    if let Some(offset) = &query.offset {
        found.push(Part::Expression(&offset.count))?;
    }
    for lock in query.locks.as_slice() {
        in_names(lock.of.as_slice(), found)?;
    }
    Ok(())
}
