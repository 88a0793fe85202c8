//! A statement, held in a box that one call drops.

ghost use Rattle.std.specs.Prelude.{◌≡◌, IfOk};

use sq_base::List;
use sq_parts::{HeldExpression, HeldFrom, HeldQuery, froms, outputs, withs};
use sq_syntax::{
    Assignment, Conflict, Delete, Expression, Identifier, Insert, InsertSource, Node, Output,
    QualifiedName, Statement, TableAlias, Update, With,
};
use sqlite_items::{Boxed, Items};
use std::alloc::{AllocError, Global};
use std::marker::Model;

/// A statement. Contracts see it as the statement itself.
pub struct HeldStatement {
    part: Boxed<Statement>,
}

impl Model for HeldStatement {
    ghost use Rattle.sq_syntax.specs.declared.statement.Statement.{Statement};
    ghost use Rattle.sq_syntax.specs.contracts.statement.Statement as e;
    ghost use Rattle.std.specs.Coded.{codes};

    ghost Value = { Statement };

    ghost coded = { Prim.hlevel (codes, e.the_row.coded) };

    ghost view = { λ held. held.part };
}

impl Drop for HeldStatement {
    fn drop(self) {
        let HeldStatement { part: _ } = self;
    }
}

/// An expression in its box, where there is one.
pub fn boxed(part: Option<HeldExpression>) -> Option<Boxed<Node<Expression>>>
    ensures { result ≡ part }
{
    match part {
        Some(part) => Some(part.into_box()),
        None => None,
    }
}

impl HeldStatement {
    pub fn part(&self) -> &Statement
        ensures { result.now ≡ self.now }
    {
        self.part.get()
    }

    pub fn query(alloc: Global, query: HeldQuery) -> Result<HeldStatement, AllocError>
        ensures { IfOk result (λ statement. statement ≡ Statement.Query query) }
    {
        Ok(HeldStatement {
            part: Boxed::new(alloc, Statement::Query(query.into_box()))?,
        })
    }

    /// The INSERT that stands where `mark` does.
    pub fn insert(
        alloc: Global,
        mark: Node<()>,
        with: List<With<HeldQuery>>,
        table: QualifiedName,
        alias: Option<Identifier>,
        columns: List<Identifier>,
        source: InsertSource,
        conflict: Option<Conflict>,
        shown: List<Node<Output<HeldExpression>>>,
    ) -> Result<HeldStatement, AllocError>
        ensures { IfOk result (λ statement. statement ≡ Statement.Insert (record { place = mark.place; first = mark.first; last = mark.last; with = with; table = table; alias = alias; columns = columns; source = source; conflict = conflict; returning = shown })) }
    {
        let with = withs(alloc, with)?;
        let returning = outputs(alloc, shown)?;
        Ok(HeldStatement {
            part: Boxed::new(
                alloc,
                Statement::Insert(Insert {
                    place: mark.place,
                    first: mark.first,
                    last: mark.last,
                    with,
                    table,
                    alias,
                    columns,
                    source,
                    conflict,
                    returning,
                }),
            )?,
        })
    }

    /// The UPDATE that stands where `mark` does.
    pub fn update(
        alloc: Global,
        mark: Node<()>,
        with: List<With<HeldQuery>>,
        table: QualifiedName,
        alias: Option<TableAlias>,
        sets: List<Assignment>,
        from: List<HeldFrom>,
        condition: Option<HeldExpression>,
        shown: List<Node<Output<HeldExpression>>>,
    ) -> Result<HeldStatement, AllocError>
        ensures { IfOk result (λ statement. statement ≡ Statement.Update (record { place = mark.place; first = mark.first; last = mark.last; with = with; table = table; alias = alias; sets = sets; from = from; condition = condition; returning = shown })) }
    {
        let with = withs(alloc, with)?;
        let from = froms(alloc, from)?;
        let returning = outputs(alloc, shown)?;
        Ok(HeldStatement {
            part: Boxed::new(
                alloc,
                Statement::Update(Update {
                    place: mark.place,
                    first: mark.first,
                    last: mark.last,
                    with,
                    table,
                    alias,
                    sets: Items::from_vec(sets.into_vec()),
                    from,
                    condition: boxed(condition),
                    returning,
                }),
            )?,
        })
    }

    /// The DELETE that stands where `mark` does.
    pub fn delete(
        alloc: Global,
        mark: Node<()>,
        with: List<With<HeldQuery>>,
        table: QualifiedName,
        alias: Option<TableAlias>,
        sources: List<HeldFrom>,
        condition: Option<HeldExpression>,
        shown: List<Node<Output<HeldExpression>>>,
    ) -> Result<HeldStatement, AllocError>
        ensures { IfOk result (λ statement. statement ≡ Statement.Delete (record { place = mark.place; first = mark.first; last = mark.last; with = with; table = table; alias = alias; using = sources; condition = condition; returning = shown })) }
    {
        let with = withs(alloc, with)?;
        let using = froms(alloc, sources)?;
        let returning = outputs(alloc, shown)?;
        Ok(HeldStatement {
            part: Boxed::new(
                alloc,
                Statement::Delete(Delete {
                    place: mark.place,
                    first: mark.first,
                    last: mark.last,
                    with,
                    table,
                    alias,
                    using,
                    condition: boxed(condition),
                    returning,
                }),
            )?,
        })
    }
}
