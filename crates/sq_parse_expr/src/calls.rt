//! Calls of functions, and ORDER BY.

ghost use Rattle.std.specs.Prelude.{◌≡◌, ◌||◌, not, Option, None, Some, option_map};
ghost use Rattle.sq_syntax.specs.declared.symbol.Symbol.TheVariants as s;
ghost use Rattle.sq_syntax.specs.ExpressionPieces as pieces;
ghost use Rattle.sq_grammar.specs.Primaries as spec;
ghost use Rattle.sq_grammar.specs.Ahead.{is_some};
ghost use Rattle.sq_grammar.specs.Reading.{fail, many, sees};
ghost use Rattle.sq_parse_expr.specs.Depth.{expressions, queries};
ghost use Rattle.sq_parse_expr.specs.Nests.{Nests};
ghost use Rattle.sq_lexemes.specs.Reads.{Reads};

use crate::grammar::{Grammar, Tree, Wanted};
use sq_base::List;
use sq_lexemes::cursor::Cursor;
use sq_lexemes::error::ParseError;
use sq_lexemes::lists::list_with_first;
use sq_lexemes::names::call_name;
use sq_lexemes::words::is_aggregate;
use sq_parts::{HeldArguments, HeldExpression, nodes};
use sq_syntax::{Arguments, Direction, Expression, Node, Nulls, Reading, Sort, Symbol};
use std::alloc::Global;

/// What is said in a call that only an aggregate takes.
fn asks_aggregate(arguments: &Arguments<Node<Expression>>) -> bool
    ensures { result ≡ pieces.asks_aggregate arguments.now }
{
    match arguments {
        Arguments::Star => false,
        Arguments::List(distinct, _, order) => *distinct || order.len() > 0,
    }
}

pub fn direction(tokens: &mut Cursor<'_>) -> Result<Direction, ParseError>
    ensures { Reads (spec.direction_of fail fail tokens.old) result tokens.new }
{
    if tokens.sees(Symbol::Asc) {
        tokens.expect(Symbol::Asc)?;
        Ok(Direction::Ascending)
    } else if tokens.sees(Symbol::Desc) {
        tokens.expect(Symbol::Desc)?;
        Ok(Direction::Descending)
    } else {
        Ok(Direction::Unsaid)
    }
}

pub fn nulls(tokens: &mut Cursor<'_>) -> Result<Nulls, ParseError>
    ensures { Reads (spec.nulls_of fail fail tokens.old) result tokens.new }
{
    if !tokens.sees(Symbol::Nulls) {
        return Ok(Nulls::Unsaid);
    }
    tokens.expect(Symbol::Nulls)?;
    match tokens.take()?.reading {
        Reading::Symbol(Symbol::First) => Ok(Nulls::First),
        Reading::Symbol(Symbol::Last) => Ok(Nulls::Last),
        _ => Err(ParseError::Syntax),
    }
}

impl<F: Fn(Global, &mut Cursor<'_>, usize, Wanted) -> Result<Tree, ParseError>> Grammar<F> {
    #[tactic(auto, unfolding(crate::specs::Words::sort))]
    fn sort(&self, tokens: &mut Cursor<'_>) -> Result<Sort<HeldExpression>, ParseError>
        requires { Nests self.now.depth (F.pre self.now.parse) (F.post self.now.parse) }
        ensures { Reads (spec.sort (expressions self.now.depth) (queries self.now.depth) tokens.old) result tokens.new }
    {
        let key = self.nested(tokens)?;
        let direction = direction(tokens)?;
        let nulls = nulls(tokens)?;
        Ok(Sort {
            key,
            direction,
            nulls,
        })
    }

    fn next_sort(&self, tokens: &mut Cursor<'_>) -> Result<Sort<HeldExpression>, ParseError>
        requires { Nests self.now.depth (F.pre self.now.parse) (F.post self.now.parse) }
        ensures { Reads (spec.next_sort (expressions self.now.depth) (queries self.now.depth) tokens.old) result tokens.new }
    {
        tokens.expect(Symbol::Comma)?;
        self.sort(tokens)
    }

    fn more_sorts(&self, tokens: &mut Cursor<'_>) -> Result<List<Sort<HeldExpression>>, ParseError>
        requires { Nests self.now.depth (F.pre self.now.parse) (F.post self.now.parse) }
        ensures { Reads (many (sees s.Comma) (spec.next_sort (expressions self.now.depth) (queries self.now.depth)) tokens.old) result tokens.new }
    {
        let mut found = List::new(self.alloc);
        for _turn in 0..tokens.left() {
            if !tokens.sees(Symbol::Comma) {
                return Ok(found);
            }
            let next = self.next_sort(tokens)?;
            found.push(next)?;
        }
        Ok(found)
    }

    /// ORDER BY in a call.
    #[tactic(auto, unfolding(crate::specs::Words::order, crate::specs::Words::order_items))]
    fn order(&self, tokens: &mut Cursor<'_>) -> Result<List<Sort<HeldExpression>>, ParseError>
        requires { Nests self.now.depth (F.pre self.now.parse) (F.post self.now.parse) }
        ensures { Reads (spec.order (expressions self.now.depth) (queries self.now.depth) tokens.old) result tokens.new }
    {
        if !tokens.sees(Symbol::Order) {
            return Ok(List::new(self.alloc));
        }
        tokens.expect(Symbol::Order)?;
        tokens.expect(Symbol::By)?;
        let first = self.sort(tokens)?;
        let more = self.more_sorts(tokens)?;
        Ok(list_with_first(self.alloc, first, more)?)
    }

    #[tactic(auto, unfolding(crate::specs::Words::within_call))]
    fn within_call(&self, tokens: &mut Cursor<'_>) -> Result<HeldArguments, ParseError>
        requires { Nests self.now.depth (F.pre self.now.parse) (F.post self.now.parse) }
        ensures { Reads (spec.within_call (expressions self.now.depth) (queries self.now.depth) tokens.old) result tokens.new }
    {
        if tokens.sees(Symbol::Times) {
            tokens.expect(Symbol::Times)?;
            return Ok(HeldArguments::star());
        }
        if tokens.sees(Symbol::Close) {
            let none = List::new(self.alloc);
            return Ok(HeldArguments::list(self.alloc, false, none, List::new(self.alloc))?);
        }
        let distinct = tokens.optional(Symbol::Distinct)?;
        let items = self.list(tokens)?;
        let order = self.order(tokens)?;
        Ok(HeldArguments::list(self.alloc, distinct, items, order)?)
    }

    #[tactic(auto, unfolding(crate::specs::Words::filter))]
    fn filter(&self, tokens: &mut Cursor<'_>) -> Result<Option<HeldExpression>, ParseError>
        requires { Nests self.now.depth (F.pre self.now.parse) (F.post self.now.parse) }
        ensures { Reads (spec.filter (expressions self.now.depth) (queries self.now.depth) tokens.old) result tokens.new }
    {
        if !tokens.sees(Symbol::Filter) {
            return Ok(None);
        }
        tokens.expect(Symbol::Filter)?;
        tokens.expect(Symbol::Open)?;
        tokens.expect(Symbol::Where)?;
        let condition = self.nested(tokens)?;
        tokens.expect(Symbol::Close)?;
        Ok(Some(condition))
    }

    #[tactic(auto, unfolding(crate::specs::Words::call))]
    pub fn call(&self, tokens: &mut Cursor<'_>) -> Result<HeldExpression, ParseError>
        requires { Nests self.now.depth (F.pre self.now.parse) (F.post self.now.parse) }
        ensures { Reads (spec.call (expressions self.now.depth) (queries self.now.depth) tokens.old) result tokens.new }
    {
        let begun = tokens.copy();
        let name = call_name(self.alloc, tokens)?;
        tokens.expect(Symbol::Open)?;
        let arguments = self.within_call(tokens)?;
        tokens.expect(Symbol::Close)?;
        let filter = self.filter(tokens)?;
        let asks = asks_aggregate(arguments.part()) || filter.is_some();
        if asks && !is_aggregate(name.name.as_bytes()) {
            return Err(ParseError::Syntax);
        }
        let mark = tokens.node(&begun, begun.here(), ());
        Ok(nodes::call(self.alloc, mark, name, arguments, filter)?)
    }
}
