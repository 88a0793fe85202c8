//! Comparisons and tests, which do not chain.

ghost use Rattle.std.specs.Prelude.{◌≡◌};
ghost use Rattle.sq_grammar.specs.Tests as spec;
ghost use Rattle.sq_parse_expr.specs.Depth.{expressions, queries};
ghost use Rattle.sq_parse_expr.specs.Depth as at;
ghost use Rattle.sq_parse_expr.specs.Nests.{Nests};
ghost use Rattle.sq_lexemes.specs.Reads.{Reads};

use crate::brackets::holds_query;
use crate::grammar::{Grammar, Tree, Wanted};
use sq_base::Place;
use sq_lexemes::cursor::Cursor;
use sq_lexemes::error::ParseError;
use sq_lexemes::operators::{
    begins_comparison, begins_quantified, comparison, operator, quantifier,
};
use sq_parts::{HeldExpression, nodes};
use sq_syntax::{Lexeme, Matching, Operator, Quantifier, Reading, Symbol, Test};
use std::alloc::Global;

fn sees_range(tokens: &Cursor<'_>, word: Symbol) -> bool
    ensures { result ≡ spec.sees_range word tokens.now }
{
    tokens.sees(word) || tokens.sees_both(Symbol::Not, word)
}

fn test_of(negated: bool, lexeme: &Lexeme) -> Option<Test>
    ensures { result ≡ spec.test_of negated lexeme.now.reading lexeme.now.place }
{
    match (negated, &lexeme.reading) {
        (false, Reading::Symbol(Symbol::Null)) => Some(Test::Null),
        (true, Reading::Symbol(Symbol::Null)) => Some(Test::NotNull),
        (false, Reading::Symbol(Symbol::True)) => Some(Test::True),
        (true, Reading::Symbol(Symbol::True)) => Some(Test::NotTrue),
        (false, Reading::Symbol(Symbol::False)) => Some(Test::False),
        (true, Reading::Symbol(Symbol::False)) => Some(Test::NotFalse),
        (false, Reading::Symbol(Symbol::Unknown)) => Some(Test::Unknown),
        (true, Reading::Symbol(Symbol::Unknown)) => Some(Test::NotUnknown),
        _ => None,
    }
}

impl<F: Fn(Global, &mut Cursor<'_>, usize, Wanted) -> Result<Tree, ParseError>> Grammar<F> {
    fn tested(
        &self,
        tokens: &mut Cursor<'_>,
        begun: &Cursor<'_>,
        place: Place,
        left: HeldExpression,
        negated: bool,
    ) -> Result<HeldExpression, ParseError>
        ensures { Reads (spec.tested begun.now place left negated tokens.old) result tokens.new }
    {
        let lexeme = tokens.take()?;
        let test = test_of(negated, lexeme).ok_or(ParseError::Syntax)?;
        let mark = tokens.node(begun, place, ());
        Ok(nodes::tested(self.alloc, mark, left, test)?)
    }

    fn distinct_from(
        &self,
        tokens: &mut Cursor<'_>,
        begun: &Cursor<'_>,
        place: Place,
        left: HeldExpression,
        negated: bool,
    ) -> Result<HeldExpression, ParseError>
        requires { Nests self.now.depth (F.pre self.now.parse) (F.post self.now.parse) }
        ensures { Reads (spec.distinct (at.related_at self.now.depth) begun.now place left negated tokens.old) result tokens.new }
    {
        tokens.expect(Symbol::Distinct)?;
        tokens.expect(Symbol::From)?;
        let right = self.related(tokens)?;
        let mark = tokens.node(begun, place, ());
        Ok(nodes::distinct(self.alloc, mark, left, negated, right)?)
    }

    fn is_after(
        &self,
        tokens: &mut Cursor<'_>,
        begun: &Cursor<'_>,
        place: Place,
        left: HeldExpression,
    ) -> Result<HeldExpression, ParseError>
        requires { Nests self.now.depth (F.pre self.now.parse) (F.post self.now.parse) }
        ensures { Reads (spec.is_after (at.related_at self.now.depth) begun.now place left tokens.old) result tokens.new }
    {
        tokens.expect(Symbol::Is)?;
        let negated = tokens.optional(Symbol::Not)?;
        if tokens.sees(Symbol::Distinct) {
            self.distinct_from(tokens, begun, place, left, negated)
        } else {
            self.tested(tokens, begun, place, left, negated)
        }
    }

    /// A test in one word.
    fn word_test(
        &self,
        tokens: &mut Cursor<'_>,
        begun: &Cursor<'_>,
        place: Place,
        left: HeldExpression,
    ) -> Result<HeldExpression, ParseError>
        ensures { Reads (spec.null_after begun.now place left tokens.old) result tokens.new }
    {
        let (word, test) = if tokens.sees(Symbol::IsNull) {
            (Symbol::IsNull, Test::NullWord)
        } else if tokens.sees(Symbol::NotNull) {
            (Symbol::NotNull, Test::NotNullWord)
        } else {
            return Ok(left);
        };
        tokens.expect(word)?;
        let mark = tokens.node(begun, place, ());
        Ok(nodes::tested(self.alloc, mark, left, test)?)
    }

    #[tactic(auto, unfolding(crate::specs::Words::testing))]
    pub fn testing(&self, tokens: &mut Cursor<'_>) -> Result<HeldExpression, ParseError>
        requires { Nests self.now.depth (F.pre self.now.parse) (F.post self.now.parse) }
        ensures { Reads (at.testing_at self.now.depth tokens.old) result tokens.new }
    {
        let begun = tokens.copy();
        let left = self.related(tokens)?;
        let place = tokens.here();
        if tokens.sees(Symbol::Is) {
            self.is_after(tokens, &begun, place, left)
        } else {
            self.word_test(tokens, &begun, place, left)
        }
    }

    fn between_after(
        &self,
        tokens: &mut Cursor<'_>,
        begun: &Cursor<'_>,
        place: Place,
        left: HeldExpression,
    ) -> Result<HeldExpression, ParseError>
        requires { Nests self.now.depth (F.pre self.now.parse) (F.post self.now.parse) }
        ensures { Reads (spec.between_after (at.above_tests_at self.now.depth) begun.now place left tokens.old) result tokens.new }
    {
        let negated = tokens.optional(Symbol::Not)?;
        tokens.expect(Symbol::Between)?;
        let symmetric = tokens.optional(Symbol::Symmetric)?;
        let low = self.above_tests(tokens)?;
        tokens.expect(Symbol::And)?;
        let high = self.above_tests(tokens)?;
        let mark = tokens.node(begun, place, ());
        Ok(nodes::between(self.alloc, mark, left, negated, symmetric, low, high)?)
    }

    fn like_after(
        &self,
        tokens: &mut Cursor<'_>,
        begun: &Cursor<'_>,
        place: Place,
        left: HeldExpression,
        word: Symbol,
        matching: Matching,
    ) -> Result<HeldExpression, ParseError>
        requires { Nests self.now.depth (F.pre self.now.parse) (F.post self.now.parse) }
        ensures { Reads (spec.like_after word matching (at.above_tests_at self.now.depth) begun.now place left tokens.old) result tokens.new }
    {
        let negated = tokens.optional(Symbol::Not)?;
        tokens.expect(word)?;
        let right = self.above_tests(tokens)?;
        let mark = tokens.node(begun, place, ());
        Ok(nodes::like(self.alloc, mark, left, negated, matching, right)?)
    }

    fn in_query(
        &self,
        tokens: &mut Cursor<'_>,
        begun: &Cursor<'_>,
        place: Place,
        left: HeldExpression,
        negated: bool,
    ) -> Result<HeldExpression, ParseError>
        requires { Nests self.now.depth (F.pre self.now.parse) (F.post self.now.parse) }
        ensures { Reads (spec.in_query (expressions self.now.depth) (queries self.now.depth) begun.now place left negated tokens.old) result tokens.new }
    {
        tokens.expect(Symbol::Open)?;
        let query = self.inner(tokens)?;
        tokens.expect(Symbol::Close)?;
        let mark = tokens.node(begun, place, ());
        Ok(nodes::in_query(self.alloc, mark, left, negated, query)?)
    }

    fn in_list(
        &self,
        tokens: &mut Cursor<'_>,
        begun: &Cursor<'_>,
        place: Place,
        left: HeldExpression,
        negated: bool,
    ) -> Result<HeldExpression, ParseError>
        requires { Nests self.now.depth (F.pre self.now.parse) (F.post self.now.parse) }
        ensures { Reads (spec.in_list (expressions self.now.depth) (queries self.now.depth) begun.now place left negated tokens.old) result tokens.new }
    {
        tokens.expect(Symbol::Open)?;
        let items = self.list(tokens)?;
        tokens.expect(Symbol::Close)?;
        let mark = tokens.node(begun, place, ());
        Ok(nodes::in_list(self.alloc, mark, left, negated, items)?)
    }

    fn in_after(
        &self,
        tokens: &mut Cursor<'_>,
        begun: &Cursor<'_>,
        place: Place,
        left: HeldExpression,
    ) -> Result<HeldExpression, ParseError>
        requires { Nests self.now.depth (F.pre self.now.parse) (F.post self.now.parse) }
        ensures { Reads (spec.in_after (expressions self.now.depth) (queries self.now.depth) begun.now place left tokens.old) result tokens.new }
    {
        let negated = tokens.optional(Symbol::Not)?;
        tokens.expect(Symbol::In)?;
        if holds_query(tokens) {
            self.in_query(tokens, begun, place, left, negated)
        } else {
            self.in_list(tokens, begun, place, left, negated)
        }
    }

    #[tactic(auto, unfolding(crate::specs::Words::ranged))]
    fn ranged(&self, tokens: &mut Cursor<'_>) -> Result<HeldExpression, ParseError>
        requires { Nests self.now.depth (F.pre self.now.parse) (F.post self.now.parse) }
        ensures { Reads (at.ranged_at self.now.depth tokens.old) result tokens.new }
    {
        let begun = tokens.copy();
        let left = self.above_tests(tokens)?;
        let place = tokens.here();
        if sees_range(tokens, Symbol::Between) {
            self.between_after(tokens, &begun, place, left)
        } else if sees_range(tokens, Symbol::In) {
            self.in_after(tokens, &begun, place, left)
        } else if sees_range(tokens, Symbol::Like) {
            self.like_after(tokens, &begun, place, left, Symbol::Like, Matching::Like)
        } else if sees_range(tokens, Symbol::Ilike) {
            self.like_after(tokens, &begun, place, left, Symbol::Ilike, Matching::Ilike)
        } else {
            Ok(left)
        }
    }

    fn comparison_after(
        &self,
        tokens: &mut Cursor<'_>,
        begun: &Cursor<'_>,
        place: Place,
        left: HeldExpression,
    ) -> Result<HeldExpression, ParseError>
        requires { Nests self.now.depth (F.pre self.now.parse) (F.post self.now.parse) }
        ensures { Reads (spec.comparison_after (at.ranged_at self.now.depth) begun.now place left tokens.old) result tokens.new }
    {
        let by = comparison(tokens)?;
        let right = self.ranged(tokens)?;
        let mark = tokens.node(begun, place, ());
        Ok(nodes::compared(self.alloc, mark, left, by, right)?)
    }

    fn any_query(
        &self,
        tokens: &mut Cursor<'_>,
        begun: &Cursor<'_>,
        place: Place,
        left: HeldExpression,
        by: Operator,
        word: Quantifier,
    ) -> Result<HeldExpression, ParseError>
        requires { Nests self.now.depth (F.pre self.now.parse) (F.post self.now.parse) }
        ensures { Reads (spec.any_query (expressions self.now.depth) (queries self.now.depth) begun.now place left by word tokens.old) result tokens.new }
    {
        tokens.expect(Symbol::Open)?;
        let query = self.inner(tokens)?;
        tokens.expect(Symbol::Close)?;
        let mark = tokens.node(begun, place, ());
        Ok(nodes::any_query(self.alloc, mark, left, by, word, query)?)
    }

    fn any_array(
        &self,
        tokens: &mut Cursor<'_>,
        begun: &Cursor<'_>,
        place: Place,
        left: HeldExpression,
        by: Operator,
        word: Quantifier,
    ) -> Result<HeldExpression, ParseError>
        requires { Nests self.now.depth (F.pre self.now.parse) (F.post self.now.parse) }
        ensures { Reads (spec.any_array (expressions self.now.depth) (queries self.now.depth) begun.now place left by word tokens.old) result tokens.new }
    {
        tokens.expect(Symbol::Open)?;
        let right = self.nested(tokens)?;
        tokens.expect(Symbol::Close)?;
        let mark = tokens.node(begun, place, ());
        Ok(nodes::any_array(self.alloc, mark, left, by, word, right)?)
    }

    fn quantified_after(
        &self,
        tokens: &mut Cursor<'_>,
        begun: &Cursor<'_>,
        place: Place,
        left: HeldExpression,
    ) -> Result<HeldExpression, ParseError>
        requires { Nests self.now.depth (F.pre self.now.parse) (F.post self.now.parse) }
        ensures { Reads (spec.quantified_after (expressions self.now.depth) (queries self.now.depth) begun.now place left tokens.old) result tokens.new }
    {
        let by = operator(self.alloc, tokens)?;
        let word = quantifier(tokens)?;
        if holds_query(tokens) {
            self.any_query(tokens, begun, place, left, by, word)
        } else {
            self.any_array(tokens, begun, place, left, by, word)
        }
    }

    #[tactic(auto, unfolding(crate::specs::Words::related))]
    pub fn related(&self, tokens: &mut Cursor<'_>) -> Result<HeldExpression, ParseError>
        requires { Nests self.now.depth (F.pre self.now.parse) (F.post self.now.parse) }
        ensures { Reads (at.related_at self.now.depth tokens.old) result tokens.new }
    {
        let begun = tokens.copy();
        let left = self.ranged(tokens)?;
        let place = tokens.here();
        if begins_quantified(tokens.rest()) {
            self.quantified_after(tokens, &begun, place, left)
        } else if begins_comparison(tokens.rest()) {
            self.comparison_after(tokens, &begun, place, left)
        } else {
            Ok(left)
        }
    }
}
