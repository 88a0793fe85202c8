//! Expressions, and what stands in the brackets of a call.

ghost use Rattle.std.specs.Prelude.{◌≡◌, IfOk};

use crate::lists::{expressions, sorts};
use sq_base::List;
use sq_syntax::{Arguments, Expression, Node, Sort};
use sqlite_items::Boxed;
use std::alloc::{AllocError, Global};
use std::marker::Model;

/// An expression.
pub struct HeldExpression {
    part: Boxed<Node<Expression>>,
}

impl Model for HeldExpression {
    ghost use Rattle.sq_syntax.specs.declared.expr.Expression.{Expression};
    ghost use Rattle.sq_syntax.specs.declared.expr.Node.{Node};
    ghost use Rattle.sq_syntax.specs.contracts.expr.Expression as e;
    ghost use Rattle.std.specs.Coded.{codes};

    ghost Value = { Node Expression };

    ghost coded = { Prim.hlevel (codes, e.the_row.coded) };

    ghost view = { λ held. held.part };
}

impl Drop for HeldExpression {
    fn drop(self) {
        let HeldExpression { part: _ } = self;
    }
}

impl HeldExpression {
    pub fn new(part: Boxed<Node<Expression>>) -> HeldExpression
        ensures { result ≡ part }
    {
        HeldExpression { part }
    }

    pub fn into_box(self) -> Boxed<Node<Expression>>
        ensures { result ≡ self }
    {
        let HeldExpression { part } = self;
        part
    }

    pub fn part(&self) -> &Node<Expression>
        ensures { result.now ≡ self.now }
    {
        self.part.get()
    }
}

/// The box of an expression that may be wanting.
pub fn unheld(part: Option<HeldExpression>) -> Option<Boxed<Node<Expression>>>
    ensures { result ≡ part }
{
    match part {
        Some(part) => Some(part.into_box()),
        None => None,
    }
}

/// What stands in the brackets of a call.
pub struct HeldArguments {
    part: Arguments<Node<Expression>>,
}

impl Model for HeldArguments {
    ghost use Rattle.sq_syntax.specs.declared.expr.Arguments.{Arguments};
    ghost use Rattle.sq_syntax.specs.declared.expr.Expression.{Expression};
    ghost use Rattle.sq_syntax.specs.declared.expr.Node.{Node};
    ghost use Rattle.sq_syntax.specs.contracts.expr.Expression as e;
    ghost use Rattle.std.specs.Coded.{codes};

    ghost Value = { Arguments (Node Expression) };

    ghost coded = { Prim.hlevel (codes, e.the_row.coded) };

    ghost view = { λ held. held.part };
}

impl Drop for HeldArguments {
    fn drop(self) {
        let HeldArguments { part: _ } = self;
    }
}

impl HeldArguments {
    pub(crate) fn into_part(self) -> Arguments<Node<Expression>>
        ensures { result ≡ self }
    {
        let HeldArguments { part } = self;
        part
    }

    /// `*`
    pub fn star() -> HeldArguments
        ensures { result ≡ Arguments.Star }
    {
        HeldArguments {
            part: Arguments::Star,
        }
    }

    /// Arguments, behind DISTINCT or not, and the items of ORDER BY
    pub fn list(
        alloc: Global,
        distinct: bool,
        items: List<HeldExpression>,
        order: List<Sort<HeldExpression>>,
    ) -> Result<HeldArguments, AllocError>
        ensures { IfOk result (λ arguments. arguments ≡ Arguments.List distinct items order) }
    {
        let items = expressions(alloc, items)?;
        let order = sorts(alloc, order)?;
        Ok(HeldArguments {
            part: Arguments::List(distinct, items, order),
        })
    }

    pub fn part(&self) -> &Arguments<Node<Expression>>
        ensures { result.now ≡ self.now }
    {
        &self.part
    }
}
