//! FROM: sources, and what is joined to them.

ghost use Rattle.std.specs.Prelude.{◌≡◌, IfOk};
ghost use Rattle.sq_syntax.specs.declared.query.From.{roll-From};

use crate::expression::HeldExpression;
use crate::lists::joins;
use crate::queries::HeldQuery;
use sq_base::{List, Place};
use sq_syntax::{Alias, From, Join, JoinKind, Matched, Node, QualifiedName, Source};
use sqlite_items::Boxed;
use std::alloc::{AllocError, Global};
use std::marker::Model;

/// A source of FROM.
pub struct HeldSource {
    part: Boxed<Source>,
}

impl Model for HeldSource {
    ghost use Rattle.sq_syntax.specs.declared.query.Source.{Source};
    ghost use Rattle.sq_syntax.specs.contracts.query.Source as e;
    ghost use Rattle.std.specs.Coded.{codes};

    ghost Value = { Source };

    ghost coded = { Prim.hlevel (codes, e.the_row.coded) };

    ghost view = { λ held. held.part };
}

impl Drop for HeldSource {
    fn drop(self) {
        let HeldSource { part: _ } = self;
    }
}

impl HeldSource {
    pub(crate) fn into_box(self) -> Boxed<Source>
        ensures { result ≡ self }
    {
        let HeldSource { part } = self;
        part
    }

    /// `table alias`
    pub fn table(
        alloc: Global,
        name: QualifiedName,
        alias: Option<Alias>,
    ) -> Result<HeldSource, AllocError>
        ensures { IfOk result (λ source. source ≡ Source.Table name alias) }
    {
        Ok(HeldSource {
            part: Boxed::new(alloc, Source::Table(name, alias))?,
        })
    }

    /// `(query) alias`
    pub fn derived(alloc: Global, query: HeldQuery, alias: Alias) -> Result<HeldSource, AllocError>
        ensures { IfOk result (λ source. source ≡ Source.Derived query alias) }
    {
        Ok(HeldSource {
            part: Boxed::new(alloc, Source::Derived(query.into_box(), alias))?,
        })
    }

    /// `(from)`
    pub fn grouped(alloc: Global, from: HeldFrom) -> Result<HeldSource, AllocError>
        ensures { IfOk result (λ source. source ≡ Source.Grouped from) }
    {
        Ok(HeldSource {
            part: Boxed::new(alloc, Source::Grouped(from.into_box()))?,
        })
    }
}

/// What is joined to a source.
pub struct HeldJoin {
    part: Boxed<Join>,
}

impl Model for HeldJoin {
    ghost use Rattle.sq_syntax.specs.declared.query.Join.{Join};
    ghost use Rattle.sq_syntax.specs.contracts.query.Join as e;
    ghost use Rattle.std.specs.Coded.{codes};

    ghost Value = { Join };

    ghost coded = { Prim.hlevel (codes, e.the_row.coded) };

    ghost view = { λ held. held.part };
}

impl Drop for HeldJoin {
    fn drop(self) {
        let HeldJoin { part: _ } = self;
    }
}

impl HeldJoin {
    pub(crate) fn into_box(self) -> Boxed<Join>
        ensures { result ≡ self }
    {
        let HeldJoin { part } = self;
        part
    }

    /// `CROSS JOIN source`
    pub fn cross(
        alloc: Global,
        place: Place,
        source: Node<HeldSource>,
    ) -> Result<HeldJoin, AllocError>
        ensures { IfOk result (λ join. join ≡ Join.Cross place source) }
    {
        Ok(HeldJoin {
            part: Boxed::new(
                alloc,
                Join::Cross(
                    place,
                    Node {
                        place: source.place,
                        first: source.first,
                        last: source.last,
                        form: source.form.into_box().into_inner(),
                    },
                ),
            )?,
        })
    }

    /// `JOIN source ON x`, `JOIN source USING (name, ..)` and their like
    pub fn matched(
        alloc: Global,
        place: Place,
        kind: JoinKind,
        source: Node<HeldSource>,
        condition: Matched<HeldExpression>,
    ) -> Result<HeldJoin, AllocError>
        ensures { IfOk result (λ join. join ≡ Join.Matched place kind source condition) }
    {
        let condition = match condition {
            Matched::On(part) => Matched::On(part.into_box().into_inner()),
            Matched::Using(names) => Matched::Using(names),
        };
        Ok(HeldJoin {
            part: Boxed::new(
                alloc,
                Join::Matched(
                    place,
                    kind,
                    Node {
                        place: source.place,
                        first: source.first,
                        last: source.last,
                        form: source.form.into_box().into_inner(),
                    },
                    condition,
                ),
            )?,
        })
    }
}

/// An item of FROM.
pub struct HeldFrom {
    part: Boxed<From>,
}

impl Model for HeldFrom {
    ghost use Rattle.sq_syntax.specs.declared.query.From.{From};
    ghost use Rattle.sq_syntax.specs.contracts.query.From as e;
    ghost use Rattle.std.specs.Coded.{codes};

    ghost Value = { From };

    ghost coded = { Prim.hlevel (codes, e.the_row.coded) };

    ghost view = { λ held. held.part };
}

impl Drop for HeldFrom {
    fn drop(self) {
        let HeldFrom { part: _ } = self;
    }
}

impl HeldFrom {
    pub(crate) fn into_box(self) -> Boxed<From>
        ensures { result ≡ self }
    {
        let HeldFrom { part } = self;
        part
    }

    pub fn new(
        alloc: Global,
        source: Node<HeldSource>,
        joined: List<HeldJoin>,
    ) -> Result<HeldFrom, AllocError>
        ensures { IfOk result (λ from. from ≡ roll-From (record { source = source; joins = joined })) }
    {
        let joins = joins(alloc, joined)?;
        Ok(HeldFrom {
            part: Boxed::new(
                alloc,
                From {
                    source: Node {
                        place: source.place,
                        first: source.first,
                        last: source.last,
                        form: source.form.into_box().into_inner(),
                    },
                    joins,
                },
            )?,
        })
    }
}
