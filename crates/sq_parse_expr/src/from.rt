//! FROM.

ghost use Rattle.std.specs.Prelude.{◌≡◌, length};
ghost use Rattle.sq_syntax.specs.declared.symbol.Symbol.TheVariants as s;
ghost use Rattle.sq_grammar.specs.Queries as spec;
ghost use Rattle.sq_grammar.specs.Reading.{many, sees};
ghost use Rattle.sq_parse_expr.specs.Depth.{outer, queries};
ghost use Rattle.sq_parse_expr.specs.Nests.{Nests, Parses};
ghost use Rattle.sq_lexemes.specs.Reads.{Reads};

use crate::brackets::holds_query;
use crate::grammar::{Grammar, Tree, Wanted};
use crate::query_words::{alias, begins_join, join_words, optional_alias};
use sq_base::List;
use sq_lexemes::cursor::Cursor;
use sq_lexemes::error::ParseError;
use sq_lexemes::lists::list_with_first;
use sq_lexemes::name_lists::in_brackets;
use sq_lexemes::names::qualified_name;
use sq_parts::{HeldExpression, HeldFrom, HeldJoin, HeldSource};
use sq_syntax::{Matched, Node, Symbol};
use std::alloc::Global;

impl<F: Fn(Global, &mut Cursor<'_>, usize, Wanted) -> Result<Tree, ParseError>> Grammar<F> {
    #[tactic(auto, unfolding(crate::specs::Words::derived))]
    fn derived(&self, tokens: &mut Cursor<'_>) -> Result<HeldSource, ParseError>
        requires { Nests self.now.depth (F.pre self.now.parse) (F.post self.now.parse) }
        ensures { Reads (spec.derived (outer self.now.depth) (queries self.now.depth) tokens.old) result tokens.new }
    {
        tokens.expect(Symbol::Open)?;
        let query = self.inner(tokens)?;
        tokens.expect(Symbol::Close)?;
        let alias = alias(self.alloc, tokens)?;
        Ok(HeldSource::derived(self.alloc, query, alias)?)
    }

    #[tactic(auto, unfolding(crate::specs::Words::table))]
    fn table(&self, tokens: &mut Cursor<'_>) -> Result<HeldSource, ParseError>
        ensures { Reads (spec.table (outer self.now.depth) (queries self.now.depth) tokens.old) result tokens.new }
    {
        let name = qualified_name(self.alloc, tokens)?;
        let alias = optional_alias(self.alloc, tokens)?;
        Ok(HeldSource::table(self.alloc, name, alias)?)
    }

    #[tactic(auto, unfolding(crate::specs::Words::condition))]
    fn matched(&self, tokens: &mut Cursor<'_>) -> Result<Matched<HeldExpression>, ParseError>
        requires { Nests self.now.depth (F.pre self.now.parse) (F.post self.now.parse) }
        ensures { Reads (spec.condition (outer self.now.depth) (queries self.now.depth) tokens.old) result tokens.new }
    {
        if tokens.sees(Symbol::On) {
            tokens.expect(Symbol::On)?;
            Ok(Matched::On(self.expression(tokens)?))
        } else {
            tokens.expect(Symbol::Using)?;
            Ok(Matched::Using(in_brackets(self.alloc, tokens)?))
        }
    }

    fn grouped<P: Fn(&mut Cursor<'_>) -> Result<HeldFrom, ParseError>>(
        &self,
        tokens: &mut Cursor<'_>,
        limit: usize,
        from: &P,
    ) -> Result<HeldSource, ParseError>
        requires { Parses (spec.from_at (outer self.now.depth) (queries self.now.depth) limit) (P.pre from.now) (P.post from.now) }
        ensures { Reads (spec.grouped (outer self.now.depth) (queries self.now.depth) (spec.from_at (outer self.now.depth) (queries self.now.depth) limit) tokens.old) result tokens.new }
    {
        tokens.expect(Symbol::Open)?;
        let inner = from(tokens)?;
        tokens.expect(Symbol::Close)?;
        Ok(HeldSource::grouped(self.alloc, inner)?)
    }

    #[tactic(auto, unfolding(crate::specs::Words::source))]
    fn source<P: Fn(&mut Cursor<'_>) -> Result<HeldFrom, ParseError>>(
        &self,
        tokens: &mut Cursor<'_>,
        limit: usize,
        from: &P,
    ) -> Result<Node<HeldSource>, ParseError>
        requires nests { Nests self.now.depth (F.pre self.now.parse) (F.post self.now.parse) }
        requires from { Parses (spec.from_at (outer self.now.depth) (queries self.now.depth) limit) (P.pre from.now) (P.post from.now) }
        ensures { Reads (spec.source (outer self.now.depth) (queries self.now.depth) (spec.from_at (outer self.now.depth) (queries self.now.depth) limit) tokens.old) result tokens.new }
    {
        let begun = tokens.copy();
        let form = if !tokens.sees(Symbol::Open) {
            self.table(tokens)?
        } else if holds_query(tokens) {
            self.derived(tokens)?
        } else {
            self.grouped(tokens, limit, from)?
        };
        Ok(tokens.node(&begun, begun.here(), form))
    }

    #[tactic(auto, unfolding(crate::specs::Words::join))]
    fn join<P: Fn(&mut Cursor<'_>) -> Result<HeldFrom, ParseError>>(
        &self,
        tokens: &mut Cursor<'_>,
        limit: usize,
        from: &P,
    ) -> Result<HeldJoin, ParseError>
        requires nests { Nests self.now.depth (F.pre self.now.parse) (F.post self.now.parse) }
        requires from { Parses (spec.from_at (outer self.now.depth) (queries self.now.depth) limit) (P.pre from.now) (P.post from.now) }
        ensures { Reads (spec.join (outer self.now.depth) (queries self.now.depth) (spec.from_at (outer self.now.depth) (queries self.now.depth) limit) tokens.old) result tokens.new }
    {
        let place = tokens.here();
        if tokens.sees(Symbol::Cross) {
            tokens.expect(Symbol::Cross)?;
            tokens.expect(Symbol::Join)?;
            let source = self.source(tokens, limit, from)?;
            return Ok(HeldJoin::cross(self.alloc, place, source)?);
        }
        let kind = join_words(tokens)?;
        let source = self.source(tokens, limit, from)?;
        let matched = self.matched(tokens)?;
        Ok(HeldJoin::matched(self.alloc, place, kind, source, matched)?)
    }

    fn joins<P: Fn(&mut Cursor<'_>) -> Result<HeldFrom, ParseError>>(
        &self,
        tokens: &mut Cursor<'_>,
        limit: usize,
        from: &P,
    ) -> Result<List<HeldJoin>, ParseError>
        requires nests { Nests self.now.depth (F.pre self.now.parse) (F.post self.now.parse) }
        requires from { Parses (spec.from_at (outer self.now.depth) (queries self.now.depth) limit) (P.pre from.now) (P.post from.now) }
        ensures { Reads (many (λ now. spec.begins_join now.tokens) (spec.join (outer self.now.depth) (queries self.now.depth) (spec.from_at (outer self.now.depth) (queries self.now.depth) limit)) tokens.old) result tokens.new }
    {
        let mut found = List::new(self.alloc);
        for _turn in 0..tokens.left() {
            if !begins_join(tokens) {
                return Ok(found);
            }
            let next = self.join(tokens, limit, from)?;
            found.push(next)?;
        }
        Ok(found)
    }

    fn from_over<P: Fn(&mut Cursor<'_>) -> Result<HeldFrom, ParseError>>(
        &self,
        tokens: &mut Cursor<'_>,
        limit: usize,
        from: &P,
    ) -> Result<HeldFrom, ParseError>
        requires nests { Nests self.now.depth (F.pre self.now.parse) (F.post self.now.parse) }
        requires from { Parses (spec.from_at (outer self.now.depth) (queries self.now.depth) limit) (P.pre from.now) (P.post from.now) }
        ensures { Reads (spec.from_over (outer self.now.depth) (queries self.now.depth) (spec.from_at (outer self.now.depth) (queries self.now.depth) limit) tokens.old) result tokens.new }
    {
        let source = self.source(tokens, limit, from)?;
        let joins = self.joins(tokens, limit, from)?;
        Ok(HeldFrom::new(self.alloc, source, joins)?)
    }

    /// The number bounds how deep sources stand in brackets.
    #[tactic(auto, using(crate::proofs::Froms::from_none, crate::proofs::Froms::from_some))]
    fn from_at(&self, tokens: &mut Cursor<'_>, limit: usize) -> Result<HeldFrom, ParseError>
        requires { Nests self.now.depth (F.pre self.now.parse) (F.post self.now.parse) }
        ensures { Reads (spec.from_at (outer self.now.depth) (queries self.now.depth) limit tokens.old) result tokens.new }
    {
        if limit == 0 {
            return Err(ParseError::Syntax);
        }
        let below = limit - 1;
        self.from_over(
            tokens,
            below,
            &|tokens: &mut Cursor<'_>| -> Result<HeldFrom, ParseError>
                requires { Nests self.now.depth (F.pre self.now.parse) (F.post self.now.parse) }
                ensures { Reads (spec.from_at (outer self.entry.now.depth) (queries self.entry.now.depth) below tokens.old) result tokens.new }
            { self.from_at(tokens, below) },
        )
    }

    pub fn from_item(&self, tokens: &mut Cursor<'_>) -> Result<HeldFrom, ParseError>
        requires { Nests self.now.depth (F.pre self.now.parse) (F.post self.now.parse) }
        ensures { Reads (spec.from_item (outer self.now.depth) (queries self.now.depth) tokens.old) result tokens.new }
    {
        self.from_at(tokens, tokens.left())
    }

    fn next_from(&self, tokens: &mut Cursor<'_>) -> Result<HeldFrom, ParseError>
        requires { Nests self.now.depth (F.pre self.now.parse) (F.post self.now.parse) }
        ensures { Reads (spec.next_from (outer self.now.depth) (queries self.now.depth) tokens.old) result tokens.new }
    {
        tokens.expect(Symbol::Comma)?;
        self.from_item(tokens)
    }

    fn more_from(&self, tokens: &mut Cursor<'_>) -> Result<List<HeldFrom>, ParseError>
        requires { Nests self.now.depth (F.pre self.now.parse) (F.post self.now.parse) }
        ensures { Reads (many (sees s.Comma) (spec.next_from (outer self.now.depth) (queries self.now.depth)) tokens.old) result tokens.new }
    {
        let mut found = List::new(self.alloc);
        for _turn in 0..tokens.left() {
            if !tokens.sees(Symbol::Comma) {
                return Ok(found);
            }
            let next = self.next_from(tokens)?;
            found.push(next)?;
        }
        Ok(found)
    }

    #[tactic(auto, unfolding(crate::specs::Words::from_clause))]
    pub fn from_clause(&self, tokens: &mut Cursor<'_>) -> Result<List<HeldFrom>, ParseError>
        requires { Nests self.now.depth (F.pre self.now.parse) (F.post self.now.parse) }
        ensures { Reads (spec.from_clause (outer self.now.depth) (queries self.now.depth) tokens.old) result tokens.new }
    {
        if !tokens.sees(Symbol::From) {
            return Ok(List::new(self.alloc));
        }
        tokens.expect(Symbol::From)?;
        let first = self.from_item(tokens)?;
        let more = self.more_from(tokens)?;
        Ok(list_with_first(self.alloc, first, more)?)
    }
}
