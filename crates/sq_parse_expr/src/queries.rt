//! Queries: WITH, set operations, ORDER BY and what follows it.

ghost use Rattle.std.specs.Prelude.{◌≡◌, ◌||◌};
ghost use Rattle.sq_syntax.specs.declared.symbol.Symbol.TheVariants as s;
ghost use Rattle.sq_grammar.specs.Primaries as primaries;
ghost use Rattle.sq_grammar.specs.Queries as spec;
ghost use Rattle.sq_grammar.specs.Reading.{begins, many, sees, token};
ghost use Rattle.sq_parse_expr.specs.Depth as at;
ghost use Rattle.sq_parse_expr.specs.Depth.{outer, queries};
ghost use Rattle.sq_parse_expr.specs.Outputs.{tight_operands};
ghost use Rattle.sq_parse_expr.specs.Nests.{Nests};
ghost use Rattle.sq_lexemes.specs.Reads.{Reads};

use crate::calls::{direction, nulls};
use crate::grammar::{Grammar, Tree, Wanted};
use crate::query_words::{locks, materialized, quantity, row_word};
use sq_base::List;
use sq_lexemes::cursor::Cursor;
use sq_lexemes::error::ParseError;
use sq_lexemes::lists::list_with_first;
use sq_lexemes::name_lists::bracketed_names;
use sq_lexemes::names::name;
use sq_parts::{HeldBody, HeldChain, HeldExpression, HeldFactor, HeldQuery};
use sq_syntax::{Limit, Offset, Reading, SetLink, SetOperation, Sort, Symbol, With};
use std::alloc::Global;

fn loose_operation(tokens: &mut Cursor<'_>) -> Result<SetOperation, ParseError>
    ensures { Reads (token spec.loose_operation tokens.old) result tokens.new }
{
    match tokens.take()?.reading {
        Reading::Symbol(Symbol::Union) => Ok(SetOperation::Union),
        Reading::Symbol(Symbol::Except) => Ok(SetOperation::Except),
        _ => Err(ParseError::Syntax),
    }
}

fn tight_operation(tokens: &mut Cursor<'_>) -> Result<SetOperation, ParseError>
    ensures { Reads (token spec.tight_operation tokens.old) result tokens.new }
{
    match tokens.take()?.reading {
        Reading::Symbol(Symbol::Intersect) => Ok(SetOperation::Intersect),
        _ => Err(ParseError::Syntax),
    }
}

fn sees_loose(tokens: &Cursor<'_>) -> bool
    ensures { result ≡ (begins s.Union tokens.now.tokens || begins s.Except tokens.now.tokens) }
{
    tokens.sees(Symbol::Union) || tokens.sees(Symbol::Except)
}

impl<F: Fn(Global, &mut Cursor<'_>, usize, Wanted) -> Result<Tree, ParseError>> Grammar<F> {
    #[tactic(auto, unfolding(crate::specs::Words::factor))]
    fn factor(&self, tokens: &mut Cursor<'_>) -> Result<HeldFactor, ParseError>
        requires { Nests self.now.depth (F.pre self.now.parse) (F.post self.now.parse) }
        ensures { Reads (spec.factor (outer self.now.depth) (queries self.now.depth) tokens.old) result tokens.new }
    {
        if !tokens.sees(Symbol::Open) {
            return Ok(HeldFactor::core(self.alloc, self.select(tokens)?)?);
        }
        tokens.expect(Symbol::Open)?;
        let query = self.inner(tokens)?;
        tokens.expect(Symbol::Close)?;
        Ok(HeldFactor::nested(self.alloc, query)?)
    }

    fn tight_link(&self, tokens: &mut Cursor<'_>) -> Result<SetLink<HeldFactor>, ParseError>
        requires { Nests self.now.depth (F.pre self.now.parse) (F.post self.now.parse) }
        ensures { Reads (spec.set_link spec.tight_operation (spec.factor (outer self.now.depth) (queries self.now.depth)) tokens.old) result tokens.new }
    {
        let place = tokens.here();
        let operation = tight_operation(tokens)?;
        let quantity = quantity(tokens)?;
        let operand = self.factor(tokens)?;
        Ok(SetLink {
            place,
            operation,
            quantity,
            operand,
        })
    }

    fn tight_links(&self, tokens: &mut Cursor<'_>) -> Result<List<SetLink<HeldFactor>>, ParseError>
        requires { Nests self.now.depth (F.pre self.now.parse) (F.post self.now.parse) }
        ensures { Reads (many (sees s.Intersect) (spec.set_link spec.tight_operation (spec.factor (outer self.now.depth) (queries self.now.depth))) tokens.old) result tokens.new }
    {
        let mut found = List::new(self.alloc);
        for _turn in 0..tokens.left() {
            if !tokens.sees(Symbol::Intersect) {
                return Ok(found);
            }
            let next = self.tight_link(tokens)?;
            found.push(next)?;
        }
        Ok(found)
    }

    fn tight_operands(&self, tokens: &mut Cursor<'_>) -> Result<HeldChain, ParseError>
        requires { Nests self.now.depth (F.pre self.now.parse) (F.post self.now.parse) }
        ensures { Reads (tight_operands (outer self.now.depth) (queries self.now.depth) tokens.old) result tokens.new }
    {
        let first = self.factor(tokens)?;
        let links = self.tight_links(tokens)?;
        Ok(HeldChain::new(self.alloc, first, links)?)
    }

    fn loose_link(&self, tokens: &mut Cursor<'_>) -> Result<SetLink<HeldChain>, ParseError>
        requires { Nests self.now.depth (F.pre self.now.parse) (F.post self.now.parse) }
        ensures { Reads (spec.set_link spec.loose_operation (tight_operands (outer self.now.depth) (queries self.now.depth)) tokens.old) result tokens.new }
    {
        let place = tokens.here();
        let operation = loose_operation(tokens)?;
        let quantity = quantity(tokens)?;
        let operand = self.tight_operands(tokens)?;
        Ok(SetLink {
            place,
            operation,
            quantity,
            operand,
        })
    }

    fn loose_links(&self, tokens: &mut Cursor<'_>) -> Result<List<SetLink<HeldChain>>, ParseError>
        requires { Nests self.now.depth (F.pre self.now.parse) (F.post self.now.parse) }
        ensures { Reads (many (λ now. begins s.Union now.tokens || begins s.Except now.tokens) (spec.set_link spec.loose_operation (tight_operands (outer self.now.depth) (queries self.now.depth))) tokens.old) result tokens.new }
    {
        let mut found = List::new(self.alloc);
        for _turn in 0..tokens.left() {
            if !sees_loose(tokens) {
                return Ok(found);
            }
            let next = self.loose_link(tokens)?;
            found.push(next)?;
        }
        Ok(found)
    }

    #[tactic(auto, unfolding(crate::specs::Words::body))]
    fn body(&self, tokens: &mut Cursor<'_>) -> Result<HeldBody, ParseError>
        requires { Nests self.now.depth (F.pre self.now.parse) (F.post self.now.parse) }
        ensures { Reads (spec.body (outer self.now.depth) (queries self.now.depth) tokens.old) result tokens.new }
    {
        let first = self.tight_operands(tokens)?;
        let links = self.loose_links(tokens)?;
        Ok(HeldBody::new(self.alloc, first, links)?)
    }

    #[tactic(auto, unfolding(crate::specs::Words::sort))]
    fn query_sort(&self, tokens: &mut Cursor<'_>) -> Result<Sort<HeldExpression>, ParseError>
        requires { Nests self.now.depth (F.pre self.now.parse) (F.post self.now.parse) }
        ensures { Reads (primaries.sort (outer self.now.depth) (queries self.now.depth) tokens.old) result tokens.new }
    {
        let key = self.expression(tokens)?;
        let direction = direction(tokens)?;
        let nulls = nulls(tokens)?;
        Ok(Sort {
            key,
            direction,
            nulls,
        })
    }

    fn next_query_sort(&self, tokens: &mut Cursor<'_>) -> Result<Sort<HeldExpression>, ParseError>
        requires { Nests self.now.depth (F.pre self.now.parse) (F.post self.now.parse) }
        ensures { Reads (primaries.next_sort (outer self.now.depth) (queries self.now.depth) tokens.old) result tokens.new }
    {
        tokens.expect(Symbol::Comma)?;
        self.query_sort(tokens)
    }

    fn more_query_sorts(
        &self,
        tokens: &mut Cursor<'_>,
    ) -> Result<List<Sort<HeldExpression>>, ParseError>
        requires { Nests self.now.depth (F.pre self.now.parse) (F.post self.now.parse) }
        ensures { Reads (many (sees s.Comma) (primaries.next_sort (outer self.now.depth) (queries self.now.depth)) tokens.old) result tokens.new }
    {
        let mut found = List::new(self.alloc);
        for _turn in 0..tokens.left() {
            if !tokens.sees(Symbol::Comma) {
                return Ok(found);
            }
            let next = self.next_query_sort(tokens)?;
            found.push(next)?;
        }
        Ok(found)
    }

    #[tactic(auto, unfolding(crate::specs::Words::order, crate::specs::Words::order_items))]
    fn query_order(&self, tokens: &mut Cursor<'_>) -> Result<List<Sort<HeldExpression>>, ParseError>
        requires { Nests self.now.depth (F.pre self.now.parse) (F.post self.now.parse) }
        ensures { Reads (primaries.order (outer self.now.depth) (queries self.now.depth) tokens.old) result tokens.new }
    {
        if !tokens.sees(Symbol::Order) {
            return Ok(List::new(self.alloc));
        }
        tokens.expect(Symbol::Order)?;
        tokens.expect(Symbol::By)?;
        let first = self.query_sort(tokens)?;
        let more = self.more_query_sorts(tokens)?;
        Ok(list_with_first(self.alloc, first, more)?)
    }

    #[tactic(auto, unfolding(crate::specs::Words::with_query))]
    fn with_query(&self, tokens: &mut Cursor<'_>) -> Result<With<HeldQuery>, ParseError>
        requires { Nests self.now.depth (F.pre self.now.parse) (F.post self.now.parse) }
        ensures { Reads (spec.with_query (outer self.now.depth) (queries self.now.depth) tokens.old) result tokens.new }
    {
        let name = name(self.alloc, tokens)?;
        let columns = bracketed_names(self.alloc, tokens)?;
        tokens.expect(Symbol::As)?;
        let materialized = materialized(tokens)?;
        tokens.expect(Symbol::Open)?;
        let query = self.inner(tokens)?;
        tokens.expect(Symbol::Close)?;
        Ok(With {
            name,
            columns,
            materialized,
            query,
        })
    }

    fn next_with(&self, tokens: &mut Cursor<'_>) -> Result<With<HeldQuery>, ParseError>
        requires { Nests self.now.depth (F.pre self.now.parse) (F.post self.now.parse) }
        ensures { Reads (spec.next_with (outer self.now.depth) (queries self.now.depth) tokens.old) result tokens.new }
    {
        tokens.expect(Symbol::Comma)?;
        self.with_query(tokens)
    }

    fn more_with(&self, tokens: &mut Cursor<'_>) -> Result<List<With<HeldQuery>>, ParseError>
        requires { Nests self.now.depth (F.pre self.now.parse) (F.post self.now.parse) }
        ensures { Reads (many (sees s.Comma) (spec.next_with (outer self.now.depth) (queries self.now.depth)) tokens.old) result tokens.new }
    {
        let mut found = List::new(self.alloc);
        for _turn in 0..tokens.left() {
            if !tokens.sees(Symbol::Comma) {
                return Ok(found);
            }
            let next = self.next_with(tokens)?;
            found.push(next)?;
        }
        Ok(found)
    }

    #[tactic(auto, unfolding(crate::specs::Words::with_queries))]
    pub fn with_queries(&self, tokens: &mut Cursor<'_>) -> Result<List<With<HeldQuery>>, ParseError>
        requires { Nests self.now.depth (F.pre self.now.parse) (F.post self.now.parse) }
        ensures { Reads (spec.with_queries (outer self.now.depth) (queries self.now.depth) tokens.old) result tokens.new }
    {
        if !tokens.sees(Symbol::With) {
            return Ok(List::new(self.alloc));
        }
        tokens.expect(Symbol::With)?;
        let first = self.with_query(tokens)?;
        let more = self.more_with(tokens)?;
        Ok(list_with_first(self.alloc, first, more)?)
    }

    #[tactic(auto, unfolding(crate::specs::Words::limit))]
    fn limit(&self, tokens: &mut Cursor<'_>) -> Result<Option<Limit<HeldExpression>>, ParseError>
        requires { Nests self.now.depth (F.pre self.now.parse) (F.post self.now.parse) }
        ensures { Reads (spec.limit (outer self.now.depth) (queries self.now.depth) tokens.old) result tokens.new }
    {
        if !tokens.sees(Symbol::Limit) {
            return Ok(None);
        }
        tokens.expect(Symbol::Limit)?;
        if tokens.sees(Symbol::All) {
            tokens.expect(Symbol::All)?;
            return Ok(Some(Limit::All));
        }
        Ok(Some(Limit::Count(self.expression(tokens)?)))
    }

    #[tactic(auto, unfolding(crate::specs::Words::offset))]
    fn offset(&self, tokens: &mut Cursor<'_>) -> Result<Option<Offset<HeldExpression>>, ParseError>
        requires { Nests self.now.depth (F.pre self.now.parse) (F.post self.now.parse) }
        ensures { Reads (spec.offset (outer self.now.depth) (queries self.now.depth) tokens.old) result tokens.new }
    {
        if !tokens.sees(Symbol::Offset) {
            return Ok(None);
        }
        tokens.expect(Symbol::Offset)?;
        let count = self.expression(tokens)?;
        let word = row_word(tokens)?;
        Ok(Some(Offset { count, word }))
    }

    #[tactic(auto, unfolding(crate::specs::Words::query))]
    pub fn query(&self, tokens: &mut Cursor<'_>) -> Result<HeldQuery, ParseError>
        requires { Nests self.now.depth (F.pre self.now.parse) (F.post self.now.parse) }
        ensures { Reads (spec.query (outer self.now.depth) (queries self.now.depth) tokens.old) result tokens.new }
    {
        let begun = tokens.copy();
        let with = self.with_queries(tokens)?;
        let body = self.body(tokens)?;
        let order = self.query_order(tokens)?;
        let limit = self.limit(tokens)?;
        let offset = self.offset(tokens)?;
        let locks = locks(self.alloc, tokens)?;
        let mark = tokens.node(&begun, begun.here(), ());
        Ok(HeldQuery::new(self.alloc, mark, with, body, order, limit, offset, locks)?)
    }
}
