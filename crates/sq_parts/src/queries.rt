//! Queries, and their set operations.

ghost use Rattle.std.specs.Prelude.{◌≡◌, IfOk};
ghost use Rattle.sq_syntax.specs.declared.query.Query.{roll-Query};

use crate::expression::HeldExpression;
use crate::lists::{chain, loose_links, sorts, tight_links, withs};
use crate::select::HeldSelect;
use sq_base::List;
use sq_syntax::{
    Expression, Factor, Limit, Lock, Node, Offset, Operands, Query, SetLink, Sort, With,
};
use sqlite_items::Boxed;
use std::alloc::{AllocError, Global};
use std::marker::Model;

/// An operand of INTERSECT.
pub struct HeldFactor {
    part: Boxed<Factor>,
}

impl Model for HeldFactor {
    ghost use Rattle.sq_syntax.specs.declared.query.Factor.{Factor};
    ghost use Rattle.sq_syntax.specs.contracts.query.Factor as e;
    ghost use Rattle.std.specs.Coded.{codes};

    ghost Value = { Factor };

    ghost coded = { Prim.hlevel (codes, e.the_row.coded) };

    ghost view = { λ held. held.part };
}

impl Drop for HeldFactor {
    fn drop(self) {
        let HeldFactor { part: _ } = self;
    }
}

impl HeldFactor {
    pub(crate) fn into_box(self) -> Boxed<Factor>
        ensures { result ≡ self }
    {
        let HeldFactor { part } = self;
        part
    }

    /// A SELECT
    pub fn core(alloc: Global, select: HeldSelect) -> Result<HeldFactor, AllocError>
        ensures { IfOk result (λ factor. factor ≡ Factor.Core select) }
    {
        Ok(HeldFactor {
            part: Boxed::new(alloc, Factor::Core(select.into_box().into_inner()))?,
        })
    }

    /// `(query)`
    pub fn nested(alloc: Global, query: HeldQuery) -> Result<HeldFactor, AllocError>
        ensures { IfOk result (λ factor. factor ≡ Factor.Nested query) }
    {
        Ok(HeldFactor {
            part: Boxed::new(alloc, Factor::Nested(query.into_box()))?,
        })
    }
}

/// A chain of INTERSECT.
pub struct HeldChain {
    part: Boxed<Operands<Factor>>,
}

impl Model for HeldChain {
    ghost use Rattle.sq_syntax.specs.declared.query.Factor.{Factor};
    ghost use Rattle.sq_syntax.specs.declared.query.Operands.{Operands};
    ghost use Rattle.sq_syntax.specs.contracts.query.Factor as e;
    ghost use Rattle.std.specs.Coded.{codes};

    ghost Value = { Operands Factor };

    ghost coded = { Prim.hlevel (codes, e.the_row.coded) };

    ghost view = { λ held. held.part };
}

impl Drop for HeldChain {
    fn drop(self) {
        let HeldChain { part: _ } = self;
    }
}

impl HeldChain {
    pub(crate) fn into_box(self) -> Boxed<Operands<Factor>>
        ensures { result ≡ self }
    {
        let HeldChain { part } = self;
        part
    }

    pub fn new(
        alloc: Global,
        first: HeldFactor,
        links: List<SetLink<HeldFactor>>,
    ) -> Result<HeldChain, AllocError>
        ensures { IfOk result (λ chain. chain ≡ record { first = first; links = links }) }
    {
        let links = tight_links(alloc, links)?;
        Ok(HeldChain {
            part: chain(alloc, first.into_box(), links)?,
        })
    }
}

/// A chain of UNION and EXCEPT.
pub struct HeldBody {
    part: Boxed<Operands<Operands<Factor>>>,
}

impl Model for HeldBody {
    ghost use Rattle.sq_syntax.specs.declared.query.Factor.{Factor};
    ghost use Rattle.sq_syntax.specs.declared.query.Operands.{Operands};
    ghost use Rattle.sq_syntax.specs.contracts.query.Factor as e;
    ghost use Rattle.std.specs.Coded.{codes};

    ghost Value = { Operands (Operands Factor) };

    ghost coded = { Prim.hlevel (codes, e.the_row.coded) };

    ghost view = { λ held. held.part };
}

impl Drop for HeldBody {
    fn drop(self) {
        let HeldBody { part: _ } = self;
    }
}

impl HeldBody {
    pub(crate) fn into_box(self) -> Boxed<Operands<Operands<Factor>>>
        ensures { result ≡ self }
    {
        let HeldBody { part } = self;
        part
    }

    pub fn new(
        alloc: Global,
        first: HeldChain,
        links: List<SetLink<HeldChain>>,
    ) -> Result<HeldBody, AllocError>
        ensures { IfOk result (λ body. body ≡ record { first = first; links = links }) }
    {
        let links = loose_links(alloc, links)?;
        Ok(HeldBody {
            part: chain(alloc, first.into_box(), links)?,
        })
    }
}

/// A query.
pub struct HeldQuery {
    part: Boxed<Query>,
}

impl Model for HeldQuery {
    ghost use Rattle.sq_syntax.specs.declared.query.Query.{Query};
    ghost use Rattle.sq_syntax.specs.contracts.query.Query as e;
    ghost use Rattle.std.specs.Coded.{codes};

    ghost Value = { Query };

    ghost coded = { Prim.hlevel (codes, e.the_row.coded) };

    ghost view = { λ held. held.part };
}

impl Drop for HeldQuery {
    fn drop(self) {
        let HeldQuery { part: _ } = self;
    }
}

fn limit(held: Option<Limit<HeldExpression>>) -> Option<Limit<Boxed<Node<Expression>>>>
    ensures { result ≡ held }
{
    match held {
        Some(Limit::Count(part)) => Some(Limit::Count(part.into_box())),
        Some(Limit::All) => Some(Limit::All),
        None => None,
    }
}

fn limit_of<E>(held: Option<Limit<Boxed<E>>>) -> Option<Limit<E>>
    ensures { result ≡ held }
{
    match held {
        Some(Limit::Count(part)) => Some(Limit::Count(part.into_inner())),
        Some(Limit::All) => Some(Limit::All),
        None => None,
    }
}

fn offset(held: Option<Offset<HeldExpression>>) -> Option<Offset<Boxed<Node<Expression>>>>
    ensures { result ≡ held }
{
    match held {
        Some(part) => Some(Offset {
            count: part.count.into_box(),
            word: part.word,
        }),
        None => None,
    }
}

fn offset_of<E>(held: Option<Offset<Boxed<E>>>) -> Option<Offset<E>>
    ensures { result ≡ held }
{
    match held {
        Some(part) => Some(Offset {
            count: part.count.into_inner(),
            word: part.word,
        }),
        None => None,
    }
}

impl HeldQuery {
    pub fn into_box(self) -> Boxed<Query>
        ensures { result ≡ self }
    {
        let HeldQuery { part } = self;
        part
    }

    /// The query that stands where `mark` does.
    pub fn new(
        alloc: Global,
        mark: Node<()>,
        with: List<With<HeldQuery>>,
        body: HeldBody,
        order: List<Sort<HeldExpression>>,
        limit: Option<Limit<HeldExpression>>,
        offset: Option<Offset<HeldExpression>>,
        locks: List<Lock>,
    ) -> Result<HeldQuery, AllocError>
        ensures { IfOk result (λ query. query ≡ roll-Query (record { place = mark.place; first = mark.first; last = mark.last; with = with; body = body; order = order; limit = limit; offset = offset; locks = locks })) }
    {
        let with = withs(alloc, with)?;
        let order = sorts(alloc, order)?;
        Ok(HeldQuery {
            part: Boxed::new(
                alloc,
                Query {
                    place: mark.place,
                    first: mark.first,
                    last: mark.last,
                    with,
                    body: body.into_box().into_inner(),
                    order,
                    limit: limit_of(self::limit(limit)),
                    offset: offset_of(self::offset(offset)),
                    locks,
                },
            )?,
        })
    }

    pub fn part(&self) -> &Query
        ensures { result.now ≡ self.now }
    {
        self.part.get()
    }
}
