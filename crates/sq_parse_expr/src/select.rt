//! SELECT and its clauses.

ghost use Rattle.std.specs.Prelude.{◌≡◌};
ghost use Rattle.sq_syntax.specs.declared.symbol.Symbol.TheVariants as s;
ghost use Rattle.sq_grammar.specs.Queries as spec;
ghost use Rattle.sq_grammar.specs.Tests as tests;
ghost use Rattle.sq_grammar.specs.Reading.{many, sees};
ghost use Rattle.sq_parse_expr.specs.Depth.{outer, queries};
ghost use Rattle.sq_parse_expr.specs.Levels.{begins_dotted_star};
ghost use Rattle.sq_parse_expr.specs.Outputs.{output_form};
ghost use Rattle.sq_parse_expr.specs.Nests.{Nests};
ghost use Rattle.sq_lexemes.specs.Reads.{Reads};

use crate::grammar::{Grammar, Tree, Wanted};
use crate::query_words::label;
use sq_base::List;
use sq_lexemes::cursor::{Cursor, begins, is, split};
use sq_lexemes::error::ParseError;
use sq_lexemes::lists::list_with_first;
use sq_lexemes::names::name;
use sq_parts::{HeldDistinctness, HeldExpression, HeldSelect};
use sq_syntax::{Distinctness, Lexeme, Node, Output, Symbol};
use std::alloc::Global;

/// A dot and a star.
fn begins_dotted_star(tokens: &[Lexeme]) -> bool
    ensures { result ≡ begins_dotted_star tokens.now }
{
    match split(tokens) {
        Some((lexeme, rest)) => is(Symbol::Dot, &lexeme.reading) && begins(Symbol::Times, rest),
        None => false,
    }
}

/// A name, a dot and a star.
#[tactic(auto, using(crate::proofs::Fronts::begins_star_of_is))]
fn begins_star_of(tokens: &[Lexeme]) -> bool
    ensures { result ≡ spec.begins_star_of tokens.now }
{
    match split(tokens) {
        Some((_, rest)) => begins_dotted_star(rest),
        None => false,
    }
}

impl<F: Fn(Global, &mut Cursor<'_>, usize, Wanted) -> Result<Tree, ParseError>> Grammar<F> {
    fn next_outer(&self, tokens: &mut Cursor<'_>) -> Result<HeldExpression, ParseError>
        requires { Nests self.now.depth (F.pre self.now.parse) (F.post self.now.parse) }
        ensures { Reads (tests.next_of_list (outer self.now.depth) (queries self.now.depth) tokens.old) result tokens.new }
    {
        tokens.expect(Symbol::Comma)?;
        self.expression(tokens)
    }

    fn more_outer(&self, tokens: &mut Cursor<'_>) -> Result<List<HeldExpression>, ParseError>
        requires { Nests self.now.depth (F.pre self.now.parse) (F.post self.now.parse) }
        ensures { Reads (many (sees s.Comma) (tests.next_of_list (outer self.now.depth) (queries self.now.depth)) tokens.old) result tokens.new }
    {
        let mut found = List::new(self.alloc);
        for _turn in 0..tokens.left() {
            if !tokens.sees(Symbol::Comma) {
                return Ok(found);
            }
            let next = self.next_outer(tokens)?;
            found.push(next)?;
        }
        Ok(found)
    }

    /// Expressions of the query itself.
    #[tactic(auto, unfolding(crate::specs::Words::list))]
    fn outer_list(&self, tokens: &mut Cursor<'_>) -> Result<List<HeldExpression>, ParseError>
        requires { Nests self.now.depth (F.pre self.now.parse) (F.post self.now.parse) }
        ensures { Reads (tests.list (outer self.now.depth) (queries self.now.depth) tokens.old) result tokens.new }
    {
        let first = self.expression(tokens)?;
        let more = self.more_outer(tokens)?;
        Ok(list_with_first(self.alloc, first, more)?)
    }

    fn output_form(&self, tokens: &mut Cursor<'_>) -> Result<Output<HeldExpression>, ParseError>
        requires { Nests self.now.depth (F.pre self.now.parse) (F.post self.now.parse) }
        ensures { Reads (output_form (outer self.now.depth) (queries self.now.depth) tokens.old) result tokens.new }
    {
        if tokens.sees(Symbol::Times) {
            tokens.expect(Symbol::Times)?;
            return Ok(Output::Star);
        }
        if begins_star_of(tokens.rest()) {
            let of = name(self.alloc, tokens)?;
            tokens.expect(Symbol::Dot)?;
            tokens.expect(Symbol::Times)?;
            return Ok(Output::StarOf(of));
        }
        let value = self.expression(tokens)?;
        let label = label(self.alloc, tokens)?;
        Ok(Output::Value(value, label))
    }

    #[tactic(auto, unfolding(crate::specs::Words::output))]
    pub fn output(
        &self,
        tokens: &mut Cursor<'_>,
    ) -> Result<Node<Output<HeldExpression>>, ParseError>
        requires { Nests self.now.depth (F.pre self.now.parse) (F.post self.now.parse) }
        ensures { Reads (spec.output (outer self.now.depth) (queries self.now.depth) tokens.old) result tokens.new }
    {
        let begun = tokens.copy();
        let form = self.output_form(tokens)?;
        Ok(tokens.node(&begun, begun.here(), form))
    }

    fn next_output(
        &self,
        tokens: &mut Cursor<'_>,
    ) -> Result<Node<Output<HeldExpression>>, ParseError>
        requires { Nests self.now.depth (F.pre self.now.parse) (F.post self.now.parse) }
        ensures { Reads (spec.next_output (outer self.now.depth) (queries self.now.depth) tokens.old) result tokens.new }
    {
        tokens.expect(Symbol::Comma)?;
        self.output(tokens)
    }

    fn more_outputs(
        &self,
        tokens: &mut Cursor<'_>,
    ) -> Result<List<Node<Output<HeldExpression>>>, ParseError>
        requires { Nests self.now.depth (F.pre self.now.parse) (F.post self.now.parse) }
        ensures { Reads (many (sees s.Comma) (spec.next_output (outer self.now.depth) (queries self.now.depth)) tokens.old) result tokens.new }
    {
        let mut found = List::new(self.alloc);
        for _turn in 0..tokens.left() {
            if !tokens.sees(Symbol::Comma) {
                return Ok(found);
            }
            let next = self.next_output(tokens)?;
            found.push(next)?;
        }
        Ok(found)
    }

    #[tactic(auto, unfolding(crate::specs::Words::distinct))]
    fn distinct(&self, tokens: &mut Cursor<'_>) -> Result<HeldDistinctness, ParseError>
        requires { Nests self.now.depth (F.pre self.now.parse) (F.post self.now.parse) }
        ensures { Reads (spec.distinct (outer self.now.depth) (queries self.now.depth) tokens.old) result tokens.new }
    {
        if tokens.sees(Symbol::All) {
            tokens.expect(Symbol::All)?;
            Ok(HeldDistinctness::new(Distinctness::All))
        } else if tokens.sees_both(Symbol::Distinct, Symbol::On) {
            tokens.expect(Symbol::Distinct)?;
            tokens.expect(Symbol::On)?;
            tokens.expect(Symbol::Open)?;
            let items = self.outer_list(tokens)?;
            tokens.expect(Symbol::Close)?;
            Ok(HeldDistinctness::on(self.alloc, items)?)
        } else if tokens.sees(Symbol::Distinct) {
            tokens.expect(Symbol::Distinct)?;
            Ok(HeldDistinctness::new(Distinctness::Distinct))
        } else {
            Ok(HeldDistinctness::new(Distinctness::Unsaid))
        }
    }

    /// A word and an expression, where the word comes next.
    #[tactic(auto, unfolding(crate::specs::Words::clause))]
    pub fn clause(
        &self,
        tokens: &mut Cursor<'_>,
        word: Symbol,
    ) -> Result<Option<HeldExpression>, ParseError>
        requires { Nests self.now.depth (F.pre self.now.parse) (F.post self.now.parse) }
        ensures { Reads (spec.clause (outer self.now.depth) (queries self.now.depth) word tokens.old) result tokens.new }
    {
        if !tokens.sees(word) {
            return Ok(None);
        }
        tokens.expect(word)?;
        Ok(Some(self.expression(tokens)?))
    }

    #[tactic(auto, unfolding(crate::specs::Words::group))]
    fn group(&self, tokens: &mut Cursor<'_>) -> Result<List<HeldExpression>, ParseError>
        requires { Nests self.now.depth (F.pre self.now.parse) (F.post self.now.parse) }
        ensures { Reads (spec.group (outer self.now.depth) (queries self.now.depth) tokens.old) result tokens.new }
    {
        if !tokens.sees(Symbol::Group) {
            return Ok(List::new(self.alloc));
        }
        tokens.expect(Symbol::Group)?;
        tokens.expect(Symbol::By)?;
        self.outer_list(tokens)
    }

    #[tactic(auto, unfolding(crate::specs::Words::select))]
    pub fn select(&self, tokens: &mut Cursor<'_>) -> Result<HeldSelect, ParseError>
        requires { Nests self.now.depth (F.pre self.now.parse) (F.post self.now.parse) }
        ensures { Reads (spec.select (outer self.now.depth) (queries self.now.depth) tokens.old) result tokens.new }
    {
        tokens.expect(Symbol::Select)?;
        let distinct = self.distinct(tokens)?;
        let first = self.output(tokens)?;
        let more = self.more_outputs(tokens)?;
        let from = self.from_clause(tokens)?;
        let condition = self.clause(tokens, Symbol::Where)?;
        let group = self.group(tokens)?;
        let having = self.clause(tokens, Symbol::Having)?;
        let outputs = list_with_first(self.alloc, first, more)?;
        Ok(HeldSelect::new(
            self.alloc, distinct, outputs, from, condition, group, having,
        )?)
    }
}
