//! Levels of expressions, from subscripts to OR.

ghost use Rattle.std.specs.Prelude.{◌≡◌};
ghost use Rattle.sq_syntax.specs.declared.symbol.Symbol.TheVariants as s;
ghost use Rattle.sq_grammar.specs.Levels as spec;
ghost use Rattle.sq_grammar.specs.Reading.{begins_both, expect, many, sees};
ghost use Rattle.sq_grammar.specs.Ahead.{begins_quantifier, operator_of};
ghost use Rattle.sq_parse_expr.specs.Depth as at;
ghost use Rattle.sq_parse_expr.specs.Nests.{Nests, Parses};
ghost use Rattle.sq_lexemes.specs.Reads.{Finds, Reads};

use crate::grammar::{Grammar, Tree, Wanted};
use sq_base::List;
use sq_lexemes::cursor::Cursor;
use sq_lexemes::error::ParseError;
use sq_lexemes::marks::{collations, conversions, negations, signs};
use sq_lexemes::operators::{operator, sees_link};
use sq_parts::{HeldExpression, nodes};
use sq_syntax::{Joint, Link, Symbol};
use std::alloc::Global;

impl<F: Fn(Global, &mut Cursor<'_>, usize, Wanted) -> Result<Tree, ParseError>> Grammar<F> {
    #[tactic(auto, using(crate::proofs::Chains::chained_is), unfolding(crate::specs::Words::converted))]
    fn converted(&self, tokens: &mut Cursor<'_>) -> Result<HeldExpression, ParseError>
        requires { Nests self.now.depth (F.pre self.now.parse) (F.post self.now.parse) }
        ensures { Reads (at.converted_at self.now.depth tokens.old) result tokens.new }
    {
        let begun = tokens.copy();
        let operand = self.subscripted(tokens)?;
        let links = conversions(self.alloc, tokens)?;
        let Some(link) = links.get(0) else {
            return Ok(operand);
        };
        let place = link.place;
        let mark = tokens.node(&begun, place, ());
        Ok(nodes::converted(self.alloc, mark, operand, links)?)
    }

    #[tactic(auto, using(crate::proofs::Chains::prefixed_is), unfolding(crate::specs::Words::signed))]
    fn signed(&self, tokens: &mut Cursor<'_>) -> Result<HeldExpression, ParseError>
        requires { Nests self.now.depth (F.pre self.now.parse) (F.post self.now.parse) }
        ensures { Reads (at.signed_at self.now.depth tokens.old) result tokens.new }
    {
        let begun = tokens.copy();
        let marks = signs(self.alloc, tokens)?;
        let operand = self.converted(tokens)?;
        let Some(mark) = marks.get(0) else {
            return Ok(operand);
        };
        let place = mark.place;
        let mark = tokens.node(&begun, place, ());
        Ok(nodes::signed(self.alloc, mark, marks, operand)?)
    }

    #[tactic(auto, using(crate::proofs::Chains::chained_is), unfolding(crate::specs::Words::collated))]
    fn collated(&self, tokens: &mut Cursor<'_>) -> Result<HeldExpression, ParseError>
        requires { Nests self.now.depth (F.pre self.now.parse) (F.post self.now.parse) }
        ensures { Reads (at.collated_at self.now.depth tokens.old) result tokens.new }
    {
        let begun = tokens.copy();
        let operand = self.signed(tokens)?;
        let links = collations(self.alloc, tokens)?;
        let Some(link) = links.get(0) else {
            return Ok(operand);
        };
        let place = link.place;
        let mark = tokens.node(&begun, place, ());
        Ok(nodes::collated(self.alloc, mark, operand, links)?)
    }

    fn zone_link(&self, tokens: &mut Cursor<'_>) -> Result<Joint<HeldExpression>, ParseError>
        requires { Nests self.now.depth (F.pre self.now.parse) (F.post self.now.parse) }
        ensures { Reads (spec.zone_link (at.collated_at self.now.depth) tokens.old) result tokens.new }
    {
        let place = tokens.here();
        tokens.expect(Symbol::At)?;
        tokens.expect(Symbol::Time)?;
        tokens.expect(Symbol::Zone)?;
        let operand = self.collated(tokens)?;
        Ok(Joint { place, operand })
    }

    fn zone_links(&self, tokens: &mut Cursor<'_>) -> Result<List<Joint<HeldExpression>>, ParseError>
        requires { Nests self.now.depth (F.pre self.now.parse) (F.post self.now.parse) }
        ensures { Reads (many (λ now. begins_both s.At s.Time now.tokens) (spec.zone_link (at.collated_at self.now.depth)) tokens.old) result tokens.new }
    {
        let mut found = List::new(self.alloc);
        for _turn in 0..tokens.left() {
            if !tokens.sees_both(Symbol::At, Symbol::Time) {
                return Ok(found);
            }
            let next = self.zone_link(tokens)?;
            found.push(next)?;
        }
        Ok(found)
    }

    #[tactic(auto, using(crate::proofs::Chains::chained_is), unfolding(crate::specs::Words::zoned))]
    fn zoned(&self, tokens: &mut Cursor<'_>) -> Result<HeldExpression, ParseError>
        requires { Nests self.now.depth (F.pre self.now.parse) (F.post self.now.parse) }
        ensures { Reads (at.zoned_at self.now.depth tokens.old) result tokens.new }
    {
        let begun = tokens.copy();
        let operand = self.collated(tokens)?;
        let links = self.zone_links(tokens)?;
        let Some(link) = links.get(0) else {
            return Ok(operand);
        };
        let place = link.place;
        let mark = tokens.node(&begun, place, ());
        Ok(nodes::at_time_zone(self.alloc, mark, operand, links)?)
    }

    fn powers(&self, tokens: &mut Cursor<'_>) -> Result<HeldExpression, ParseError>
        requires { Nests self.now.depth (F.pre self.now.parse) (F.post self.now.parse) }
        ensures { Reads (spec.operation 9 (at.operand_of 9 self.now.depth) tokens.old) result tokens.new }
    {
        self.operation(tokens, 9, &|tokens: &mut Cursor<'_>| { self.zoned(tokens) })
    }

    fn products(&self, tokens: &mut Cursor<'_>) -> Result<HeldExpression, ParseError>
        requires { Nests self.now.depth (F.pre self.now.parse) (F.post self.now.parse) }
        ensures { Reads (spec.operation 8 (at.operand_of 8 self.now.depth) tokens.old) result tokens.new }
    {
        self.operation(
            tokens,
            8,
            &|tokens: &mut Cursor<'_>| { self.powers(tokens) },
        )
    }

    fn sums(&self, tokens: &mut Cursor<'_>) -> Result<HeldExpression, ParseError>
        requires { Nests self.now.depth (F.pre self.now.parse) (F.post self.now.parse) }
        ensures { Reads (spec.operation 7 (at.operand_of 7 self.now.depth) tokens.old) result tokens.new }
    {
        self.operation(
            tokens,
            7,
            &|tokens: &mut Cursor<'_>| { self.products(tokens) },
        )
    }

    /// What stands above all comparisons and tests.
    pub fn above_tests(&self, tokens: &mut Cursor<'_>) -> Result<HeldExpression, ParseError>
        requires { Nests self.now.depth (F.pre self.now.parse) (F.post self.now.parse) }
        ensures { Reads (at.above_tests_at self.now.depth tokens.old) result tokens.new }
    {
        self.operation(tokens, 6, &|tokens: &mut Cursor<'_>| { self.sums(tokens) })
    }

    #[tactic(auto, using(crate::proofs::Chains::prefixed_is), unfolding(crate::specs::Words::negated))]
    fn negated(&self, tokens: &mut Cursor<'_>) -> Result<HeldExpression, ParseError>
        requires { Nests self.now.depth (F.pre self.now.parse) (F.post self.now.parse) }
        ensures { Reads (at.negated_at self.now.depth tokens.old) result tokens.new }
    {
        let begun = tokens.copy();
        let marks = negations(self.alloc, tokens)?;
        let operand = self.testing(tokens)?;
        let Some(mark) = marks.get(0) else {
            return Ok(operand);
        };
        let place = *mark;
        let mark = tokens.node(&begun, place, ());
        Ok(nodes::not(self.alloc, mark, marks, operand)?)
    }

    fn and_link(&self, tokens: &mut Cursor<'_>) -> Result<Joint<HeldExpression>, ParseError>
        requires { Nests self.now.depth (F.pre self.now.parse) (F.post self.now.parse) }
        ensures { Reads (spec.joint (expect s.And) (at.negated_at self.now.depth) tokens.old) result tokens.new }
    {
        let place = tokens.here();
        tokens.expect(Symbol::And)?;
        let operand = self.negated(tokens)?;
        Ok(Joint { place, operand })
    }

    fn and_links(&self, tokens: &mut Cursor<'_>) -> Result<List<Joint<HeldExpression>>, ParseError>
        requires { Nests self.now.depth (F.pre self.now.parse) (F.post self.now.parse) }
        ensures { Reads (many (sees s.And) (spec.joint (expect s.And) (at.negated_at self.now.depth)) tokens.old) result tokens.new }
    {
        let mut found = List::new(self.alloc);
        for _turn in 0..tokens.left() {
            if !tokens.sees(Symbol::And) {
                return Ok(found);
            }
            let next = self.and_link(tokens)?;
            found.push(next)?;
        }
        Ok(found)
    }

    #[tactic(auto, using(crate::proofs::Chains::chained_is), unfolding(crate::specs::Words::conjunction))]
    fn conjunction(&self, tokens: &mut Cursor<'_>) -> Result<HeldExpression, ParseError>
        requires { Nests self.now.depth (F.pre self.now.parse) (F.post self.now.parse) }
        ensures { Reads (at.conjunction_at self.now.depth tokens.old) result tokens.new }
    {
        let begun = tokens.copy();
        let operand = self.negated(tokens)?;
        let links = self.and_links(tokens)?;
        let Some(link) = links.get(0) else {
            return Ok(operand);
        };
        let place = link.place;
        let mark = tokens.node(&begun, place, ());
        Ok(nodes::and(self.alloc, mark, operand, links)?)
    }

    fn or_link(&self, tokens: &mut Cursor<'_>) -> Result<Joint<HeldExpression>, ParseError>
        requires { Nests self.now.depth (F.pre self.now.parse) (F.post self.now.parse) }
        ensures { Reads (spec.joint (expect s.Or) (at.conjunction_at self.now.depth) tokens.old) result tokens.new }
    {
        let place = tokens.here();
        tokens.expect(Symbol::Or)?;
        let operand = self.conjunction(tokens)?;
        Ok(Joint { place, operand })
    }

    fn or_links(&self, tokens: &mut Cursor<'_>) -> Result<List<Joint<HeldExpression>>, ParseError>
        requires { Nests self.now.depth (F.pre self.now.parse) (F.post self.now.parse) }
        ensures { Reads (many (sees s.Or) (spec.joint (expect s.Or) (at.conjunction_at self.now.depth)) tokens.old) result tokens.new }
    {
        let mut found = List::new(self.alloc);
        for _turn in 0..tokens.left() {
            if !tokens.sees(Symbol::Or) {
                return Ok(found);
            }
            let next = self.or_link(tokens)?;
            found.push(next)?;
        }
        Ok(found)
    }

    /// A whole expression.
    #[tactic(auto, using(crate::proofs::Chains::chained_is), unfolding(crate::specs::Words::expression, crate::specs::Words::disjunction))]
    pub fn expression(&self, tokens: &mut Cursor<'_>) -> Result<HeldExpression, ParseError>
        requires { Nests self.now.depth (F.pre self.now.parse) (F.post self.now.parse) }
        ensures { Reads (at.outer self.now.depth tokens.old) result tokens.new }
    {
        let begun = tokens.copy();
        let operand = self.conjunction(tokens)?;
        let links = self.or_links(tokens)?;
        let Some(link) = links.get(0) else {
            return Ok(operand);
        };
        let place = link.place;
        let mark = tokens.node(&begun, place, ());
        Ok(nodes::or(self.alloc, mark, operand, links)?)
    }
}

impl<F> Grammar<F> {
    fn link<P: Fn(&mut Cursor<'_>) -> Result<HeldExpression, ParseError>>(
        &self,
        tokens: &mut Cursor<'_>,
        level: u8,
        operand: &P,
    ) -> Result<Link<HeldExpression>, ParseError>
        requires { Parses (at.operand_of level self.now.depth) (P.pre operand.now) (P.post operand.now) }
        ensures { Reads (spec.link (at.operand_of level self.now.depth) tokens.old) result tokens.new }
    {
        let place = tokens.here();
        let operator = operator(self.alloc, tokens)?;
        let operand = operand(tokens)?;
        Ok(Link {
            place,
            operator,
            operand,
        })
    }

    fn links<P: Fn(&mut Cursor<'_>) -> Result<HeldExpression, ParseError>>(
        &self,
        tokens: &mut Cursor<'_>,
        level: u8,
        operand: &P,
    ) -> Result<List<Link<HeldExpression>>, ParseError>
        requires { Parses (at.operand_of level self.now.depth) (P.pre operand.now) (P.post operand.now) }
        ensures { Reads (many (spec.sees_link level) (spec.link (at.operand_of level self.now.depth)) tokens.old) result tokens.new }
    {
        let mut found = List::new(self.alloc);
        for _turn in 0..tokens.left() {
            if !sees_link(tokens, level) {
                return Ok(found);
            }
            let next = self.link(tokens, level, operand)?;
            found.push(next)?;
        }
        Ok(found)
    }

    #[tactic(auto, using(crate::proofs::Chains::chained_is), unfolding(crate::specs::Words::operation))]
    fn operation<P: Fn(&mut Cursor<'_>) -> Result<HeldExpression, ParseError>>(
        &self,
        tokens: &mut Cursor<'_>,
        level: u8,
        operand: &P,
    ) -> Result<HeldExpression, ParseError>
        requires { Parses (at.operand_of level self.now.depth) (P.pre operand.now) (P.post operand.now) }
        ensures { Reads (spec.operation level (at.operand_of level self.now.depth) tokens.old) result tokens.new }
    {
        let begun = tokens.copy();
        let left = operand(tokens)?;
        let links = self.links(tokens, level, operand)?;
        let Some(link) = links.get(0) else {
            return Ok(left);
        };
        let place = link.place;
        let mark = tokens.node(&begun, place, ());
        Ok(nodes::operation(self.alloc, mark, left, links)?)
    }
}
