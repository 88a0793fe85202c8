//! SELECT, and what stands behind it.

ghost use Rattle.std.specs.Prelude.{◌≡◌, IfOk};
ghost use Rattle.sq_syntax.specs.declared.query.Select.{roll-Select};

use crate::expression::{HeldExpression, unheld};
use crate::from::HeldFrom;
use crate::lists::{expressions, froms, optional, outputs};
use sq_base::List;
use sq_syntax::{Distinctness, Expression, Node, Output, Select};
use sqlite_items::Boxed;
use std::alloc::{AllocError, Global};
use std::marker::Model;

/// What stands behind SELECT.
pub struct HeldDistinctness {
    part: Distinctness<Node<Expression>>,
}

impl Model for HeldDistinctness {
    ghost use Rattle.sq_syntax.specs.declared.query.Distinctness.{Distinctness};
    ghost use Rattle.sq_syntax.specs.declared.expr.Expression.{Expression};
    ghost use Rattle.sq_syntax.specs.declared.expr.Node.{Node};
    ghost use Rattle.sq_syntax.specs.contracts.expr.Expression as e;
    ghost use Rattle.std.specs.Coded.{codes};

    ghost Value = { Distinctness (Node Expression) };

    ghost coded = { Prim.hlevel (codes, e.the_row.coded) };

    ghost view = { λ held. held.part };
}

impl Drop for HeldDistinctness {
    fn drop(self) {
        let HeldDistinctness { part: _ } = self;
    }
}

impl HeldDistinctness {
    pub(crate) fn into_part(self) -> Distinctness<Node<Expression>>
        ensures { result ≡ self }
    {
        let HeldDistinctness { part } = self;
        part
    }

    pub fn new(part: Distinctness<Node<Expression>>) -> HeldDistinctness
        ensures { result ≡ part }
    {
        HeldDistinctness { part }
    }

    /// `DISTINCT ON (x, ..)`
    pub fn on(alloc: Global, items: List<HeldExpression>) -> Result<HeldDistinctness, AllocError>
        ensures { IfOk result (λ distinct. distinct ≡ Distinctness.On items) }
    {
        let items = expressions(alloc, items)?;
        Ok(HeldDistinctness {
            part: Distinctness::On(items),
        })
    }
}

/// A SELECT.
pub struct HeldSelect {
    part: Boxed<Select>,
}

impl Model for HeldSelect {
    ghost use Rattle.sq_syntax.specs.declared.query.Select.{Select};
    ghost use Rattle.sq_syntax.specs.contracts.query.Select as e;
    ghost use Rattle.std.specs.Coded.{codes};

    ghost Value = { Select };

    ghost coded = { Prim.hlevel (codes, e.the_row.coded) };

    ghost view = { λ held. held.part };
}

impl Drop for HeldSelect {
    fn drop(self) {
        let HeldSelect { part: _ } = self;
    }
}

impl HeldSelect {
    pub(crate) fn into_box(self) -> Boxed<Select>
        ensures { result ≡ self }
    {
        let HeldSelect { part } = self;
        part
    }

    pub fn new(
        alloc: Global,
        distinct: HeldDistinctness,
        shown: List<Node<Output<HeldExpression>>>,
        from: List<HeldFrom>,
        condition: Option<HeldExpression>,
        group: List<HeldExpression>,
        having: Option<HeldExpression>,
    ) -> Result<HeldSelect, AllocError>
        ensures { IfOk result (λ select. select ≡ roll-Select (record { distinct = distinct; outputs = shown; from = from; condition = condition; group = group; having = having })) }
    {
        let outputs = outputs(alloc, shown)?;
        let from = froms(alloc, from)?;
        let group = expressions(alloc, group)?;
        Ok(HeldSelect {
            part: Boxed::new(
                alloc,
                Select {
                    distinct: distinct.into_part(),
                    outputs,
                    from,
                    condition: optional(unheld(condition)),
                    group,
                    having: optional(unheld(having)),
                },
            )?,
        })
    }
}
