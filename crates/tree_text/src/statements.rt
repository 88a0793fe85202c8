//! What stands in a change of data, in the order of its tokens; and the parts of a whole tree.

use crate::parts::{Part, in_expression, in_name, in_names, in_qualified};
use crate::queries::{in_factor, in_from, in_outputs, in_query, in_with};
use crate::words::{Done, say};
use sq_syntax::{
    Assignment, Conflict, ConflictTarget, Delete, Expression, Given, Identifier, Insert,
    InsertSource, Node, QualifiedName, Statement, TableAlias, Update,
};
use sqlite_items::Boxed;
use std::alloc::{AllocError, Global};

/// More parts than a tree of the cases has.
const MOST_PARTS: usize = 100_000;

fn in_condition<'a>(tree: &'a Option<Boxed<Node<Expression>>>, found: &mut Vec<Part<'a>>) -> Done {
    if let Some(x) = tree {
        found.push(Part::Expression(x.get()))?;
    }
    Ok(())
}

fn in_given<'a>(given: &'a Given, found: &mut Vec<Part<'a>>) -> Done {
    match given {
        Given::Default(place) => found.push(Part::Word(*place, "DEFAULT"))?,
        Given::Expression(x) => found.push(Part::Expression(x.get()))?,
    }
    Ok(())
}

fn in_assignments<'a>(assignments: &'a [Assignment], found: &mut Vec<Part<'a>>) -> Done {
    for assignment in assignments {
        in_name(&assignment.column, found)?;
        in_given(&assignment.value, found)?;
    }
    Ok(())
}

fn in_rows<'a>(source: &'a InsertSource, found: &mut Vec<Part<'a>>) -> Done {
    match source {
        InsertSource::Values(rows) => {
            for row in rows.as_slice() {
                found.push(Part::Word(row.place, "("))?;
                for given in row.values.as_slice() {
                    in_given(given, found)?;
                }
            }
        }
        InsertSource::Query(query) => found.push(Part::Query(query.get()))?,
        InsertSource::DefaultValues => {}
    }
    Ok(())
}

fn in_target<'a>(target: &'a ConflictTarget, found: &mut Vec<Part<'a>>) -> Done {
    match target {
        ConflictTarget::Columns(names, condition) => {
            in_names(names.as_slice(), found)?;
            in_condition(condition, found)
        }
        ConflictTarget::Constraint(name) => in_name(name, found),
    }
}

fn in_conflict<'a>(conflict: &'a Conflict, found: &mut Vec<Part<'a>>) -> Done {
    match conflict {
        Conflict::Nothing(place, target) => {
            found.push(Part::Word(*place, "ON CONFLICT"))?;
            match target {
                Some(target) => in_target(target, found),
                None => Ok(()),
            }
        }
        Conflict::Update(place, target, assignments, condition) => {
            found.push(Part::Word(*place, "ON CONFLICT"))?;
            in_target(target, found)?;
            in_assignments(assignments.as_slice(), found)?;
            in_condition(condition, found)
        }
    }
}

fn in_insert<'a>(insert: &'a Insert, found: &mut Vec<Part<'a>>) -> Done {
    found.push(Part::Stretch(insert.place, insert.first, insert.last))?;
    in_with(insert.with.as_slice(), found)?;
    in_qualified(&insert.table, found)?;
    if let Some(alias) = &insert.alias {
        in_name(alias, found)?;
    }
    in_names(insert.columns.as_slice(), found)?;
    in_rows(&insert.source, found)?;
    if let Some(conflict) = &insert.conflict {
        in_conflict(conflict, found)?;
    }
    in_outputs(insert.returning.as_slice(), found)
}

fn in_changed<'a>(
    table: &'a QualifiedName,
    alias: &'a Option<TableAlias>,
    found: &mut Vec<Part<'a>>,
) -> Done {
    in_qualified(table, found)?;
    match alias {
        Some(alias) => in_name(&alias.name, found),
        None => Ok(()),
    }
}

fn in_update<'a>(update: &'a Update, found: &mut Vec<Part<'a>>) -> Done {
    found.push(Part::Stretch(update.place, update.first, update.last))?;
    in_with(update.with.as_slice(), found)?;
    in_changed(&update.table, &update.alias, found)?;
    in_assignments(update.sets.as_slice(), found)?;
    for from in update.from.as_slice() {
        found.push(Part::From(from))?;
    }
    in_condition(&update.condition, found)?;
    in_outputs(update.returning.as_slice(), found)
}

fn in_delete<'a>(delete: &'a Delete, found: &mut Vec<Part<'a>>) -> Done {
    found.push(Part::Stretch(delete.place, delete.first, delete.last))?;
    in_with(delete.with.as_slice(), found)?;
    in_changed(&delete.table, &delete.alias, found)?;
    for from in delete.using.as_slice() {
        found.push(Part::From(from))?;
    }
    in_condition(&delete.condition, found)?;
    in_outputs(delete.returning.as_slice(), found)
}

/// The parts of a statement: the first one is the whole.
pub fn in_statement<'a>(statement: &'a Statement, found: &mut Vec<Part<'a>>) -> Done {
    match statement {
        Statement::Query(query) => {
            found.push(Part::Query(query.get()))?;
            Ok(())
        }
        Statement::Insert(insert) => in_insert(insert, found),
        Statement::Update(update) => in_update(update, found),
        Statement::Delete(delete) => in_delete(delete, found),
    }
}

fn within<'a>(part: Part<'a>, found: &mut Vec<Part<'a>>) -> Done {
    match part {
        Part::Expression(x) => in_expression(&x.form, found),
        Part::Query(query) => in_query(query, found),
        Part::Factor(factor) => in_factor(factor, found),
        Part::From(from) => in_from(from, found),
        Part::Stretch(_, _, _) | Part::Word(_, _) => Ok(()),
    }
}

/// The parts and all parts in them: each before those that stand in it, and these in the order of
/// their tokens.
pub fn all_parts<'a>(alloc: Global, parts: &[Part<'a>]) -> Result<Vec<Part<'a>>, AllocError> {
    let mut all = Vec::new(alloc);
    let mut waiting = Vec::new(alloc);
    for part in parts.iter().rev() {
        waiting.push(*part)?;
    }
    for _turn in 0..MOST_PARTS {
        match waiting.pop() {
            None => return Ok(all),
            Some(part) => {
                all.push(part)?;
                let mut found = Vec::new(alloc);
                within(part, &mut found)?;
                for inner in found.iter().rev() {
                    waiting.push(*inner)?;
                }
            }
        }
    }
    Ok(all)
}

/// Writes the name, with its schema and a point before it.
pub fn say_qualified(text: &mut String, name: &QualifiedName) -> Done {
    match &name.schema {
        Some(schema) => {
            say(text, schema.name.as_str())?;
            text.push('.')?;
            text.push_str(name.name.name.as_str())
        }
        None => say(text, name.name.name.as_str()),
    }
}

fn say_alias(text: &mut String, alias: &Identifier) -> Done {
    say(text, "as")?;
    say(text, alias.name.as_str())
}

/// Writes what is changed: the kind of the statement, its table, the table's alias, and its columns.
pub fn say_changed(text: &mut String, statement: &Statement) -> Done {
    match statement {
        Statement::Query(_) => say(text, "query"),
        Statement::Insert(insert) => {
            say(text, "insert")?;
            say_qualified(text, &insert.table)?;
            if let Some(alias) = &insert.alias {
                say_alias(text, alias)?;
            }
            for column in insert.columns.as_slice() {
                say(text, column.name.as_str())?;
            }
            Ok(())
        }
        Statement::Update(update) => {
            say(text, "update")?;
            say_qualified(text, &update.table)?;
            match &update.alias {
                Some(alias) => say_alias(text, &alias.name),
                None => Ok(()),
            }
        }
        Statement::Delete(delete) => {
            say(text, "delete")?;
            say_qualified(text, &delete.table)?;
            match &delete.alias {
                Some(alias) => say_alias(text, &alias.name),
                None => Ok(()),
            }
        }
    }
}
