//! Brackets, CASE, CAST, EXTRACT and the like, and subscripts.

ghost use Rattle.std.specs.Prelude.{◌≡◌};
ghost use Rattle.sq_syntax.specs.declared.symbol.Symbol.TheVariants as s;
ghost use Rattle.sq_syntax.specs.ExpressionPieces.{pool_symbol};
ghost use Rattle.sq_grammar.specs.Primaries as spec;
ghost use Rattle.sq_grammar.specs.Reading.{choose, many, pure, sees};
ghost use Rattle.sq_parse_expr.specs.Depth.{expressions, queries};
ghost use Rattle.sq_lexemes.specs.Cursor.{IsText};
ghost use Rattle.sq_parse_expr.specs.Nests.{Nests};
ghost use Rattle.sq_lexemes.specs.Reads.{Finds, Reads};

use crate::grammar::{Grammar, Tree, Wanted};
use sq_base::List;
use sq_lexemes::cursor::Cursor;
use sq_lexemes::error::ParseError;
use sq_lexemes::lists::list_with_first;
use sq_lexemes::texts::field;
use sq_lexemes::types::type_name;
use sq_parts::{HeldExpression, nodes};
use sq_syntax::{Arm, Expression, Index, Pool, Symbol};
use std::alloc::Global;

fn symbol_of(word: Pool) -> Symbol
    ensures { result ≡ pool_symbol word }
{
    match word {
        Pool::Coalesce => Symbol::Coalesce,
        Pool::Greatest => Symbol::Greatest,
        Pool::Least => Symbol::Least,
    }
}

impl<F: Fn(Global, &mut Cursor<'_>, usize, Wanted) -> Result<Tree, ParseError>> Grammar<F> {
    #[tactic(auto, unfolding(crate::specs::Words::scalar))]
    pub fn scalar(&self, tokens: &mut Cursor<'_>) -> Result<HeldExpression, ParseError>
        requires { Nests self.now.depth (F.pre self.now.parse) (F.post self.now.parse) }
        ensures { Reads (spec.scalar (expressions self.now.depth) (queries self.now.depth) tokens.old) result tokens.new }
    {
        let begun = tokens.copy();
        tokens.expect(Symbol::Open)?;
        let query = self.inner(tokens)?;
        tokens.expect(Symbol::Close)?;
        let mark = tokens.node(&begun, begun.here(), ());
        Ok(nodes::scalar(self.alloc, mark, query)?)
    }

    #[tactic(auto, unfolding(crate::specs::Words::bracketed))]
    pub fn bracketed(&self, tokens: &mut Cursor<'_>) -> Result<HeldExpression, ParseError>
        requires { Nests self.now.depth (F.pre self.now.parse) (F.post self.now.parse) }
        ensures { Reads (spec.bracketed (expressions self.now.depth) (queries self.now.depth) tokens.old) result tokens.new }
    {
        let begun = tokens.copy();
        tokens.expect(Symbol::Open)?;
        let inner = self.nested(tokens)?;
        tokens.expect(Symbol::Close)?;
        let mark = tokens.node(&begun, begun.here(), ());
        Ok(nodes::bracketed(self.alloc, mark, inner)?)
    }

    #[tactic(auto, unfolding(crate::specs::Words::exists))]
    pub fn exists(&self, tokens: &mut Cursor<'_>) -> Result<HeldExpression, ParseError>
        requires { Nests self.now.depth (F.pre self.now.parse) (F.post self.now.parse) }
        ensures { Reads (spec.exists (expressions self.now.depth) (queries self.now.depth) tokens.old) result tokens.new }
    {
        let begun = tokens.copy();
        tokens.expect(Symbol::Exists)?;
        tokens.expect(Symbol::Open)?;
        let query = self.inner(tokens)?;
        tokens.expect(Symbol::Close)?;
        let mark = tokens.node(&begun, begun.here(), ());
        Ok(nodes::exists(self.alloc, mark, query)?)
    }

    #[tactic(auto, unfolding(crate::specs::Words::array))]
    pub fn array(&self, tokens: &mut Cursor<'_>) -> Result<HeldExpression, ParseError>
        requires { Nests self.now.depth (F.pre self.now.parse) (F.post self.now.parse) }
        ensures { Reads (spec.array (expressions self.now.depth) (queries self.now.depth) tokens.old) result tokens.new }
    {
        let begun = tokens.copy();
        tokens.expect(Symbol::Array)?;
        if tokens.sees(Symbol::Open) {
            tokens.expect(Symbol::Open)?;
            let query = self.inner(tokens)?;
            tokens.expect(Symbol::Close)?;
            let mark = tokens.node(&begun, begun.here(), ());
            return Ok(nodes::array_query(self.alloc, mark, query)?);
        }
        tokens.expect(Symbol::OpenSquare)?;
        let items = self.list(tokens)?;
        tokens.expect(Symbol::CloseSquare)?;
        let mark = tokens.node(&begun, begun.here(), ());
        Ok(nodes::array_list(self.alloc, mark, items)?)
    }

    fn subject(&self, tokens: &mut Cursor<'_>) -> Result<Option<HeldExpression>, ParseError>
        requires { Nests self.now.depth (F.pre self.now.parse) (F.post self.now.parse) }
        ensures { Reads (choose (sees s.When) (pure None) (spec.some_expression (expressions self.now.depth) (queries self.now.depth)) tokens.old) result tokens.new }
    {
        if tokens.sees(Symbol::When) {
            return Ok(None);
        }
        Ok(Some(self.nested(tokens)?))
    }

    #[tactic(auto, unfolding(crate::specs::Words::arm))]
    fn arm(&self, tokens: &mut Cursor<'_>) -> Result<Arm<HeldExpression>, ParseError>
        requires { Nests self.now.depth (F.pre self.now.parse) (F.post self.now.parse) }
        ensures { Reads (spec.arm (expressions self.now.depth) (queries self.now.depth) tokens.old) result tokens.new }
    {
        tokens.expect(Symbol::When)?;
        let condition = self.nested(tokens)?;
        tokens.expect(Symbol::Then)?;
        let value = self.nested(tokens)?;
        Ok(Arm { condition, value })
    }

    fn more_arms(&self, tokens: &mut Cursor<'_>) -> Result<List<Arm<HeldExpression>>, ParseError>
        requires { Nests self.now.depth (F.pre self.now.parse) (F.post self.now.parse) }
        ensures { Reads (many (sees s.When) (spec.arm (expressions self.now.depth) (queries self.now.depth)) tokens.old) result tokens.new }
    {
        let mut found = List::new(self.alloc);
        for _turn in 0..tokens.left() {
            if !tokens.sees(Symbol::When) {
                return Ok(found);
            }
            let next = self.arm(tokens)?;
            found.push(next)?;
        }
        Ok(found)
    }

    #[tactic(auto, unfolding(crate::specs::Words::otherwise))]
    fn otherwise(&self, tokens: &mut Cursor<'_>) -> Result<Option<HeldExpression>, ParseError>
        requires { Nests self.now.depth (F.pre self.now.parse) (F.post self.now.parse) }
        ensures { Reads (spec.otherwise (expressions self.now.depth) (queries self.now.depth) tokens.old) result tokens.new }
    {
        if !tokens.sees(Symbol::Else) {
            return Ok(None);
        }
        tokens.expect(Symbol::Else)?;
        Ok(Some(self.nested(tokens)?))
    }

    #[tactic(auto, unfolding(crate::specs::Words::case))]
    pub fn case(&self, tokens: &mut Cursor<'_>) -> Result<HeldExpression, ParseError>
        requires { Nests self.now.depth (F.pre self.now.parse) (F.post self.now.parse) }
        ensures { Reads (spec.case (expressions self.now.depth) (queries self.now.depth) tokens.old) result tokens.new }
    {
        let begun = tokens.copy();
        tokens.expect(Symbol::Case)?;
        let subject = self.subject(tokens)?;
        let first = self.arm(tokens)?;
        let more = self.more_arms(tokens)?;
        let last = self.otherwise(tokens)?;
        tokens.expect(Symbol::End)?;
        let arms = list_with_first(self.alloc, first, more)?;
        let mark = tokens.node(&begun, begun.here(), ());
        Ok(nodes::case(self.alloc, mark, subject, arms, last)?)
    }

    #[tactic(auto, unfolding(crate::specs::Words::cast))]
    pub fn cast(&self, tokens: &mut Cursor<'_>) -> Result<HeldExpression, ParseError>
        requires { Nests self.now.depth (F.pre self.now.parse) (F.post self.now.parse) }
        ensures { Reads (spec.cast (expressions self.now.depth) (queries self.now.depth) tokens.old) result tokens.new }
    {
        let begun = tokens.copy();
        tokens.expect(Symbol::Cast)?;
        tokens.expect(Symbol::Open)?;
        let value = self.nested(tokens)?;
        tokens.expect(Symbol::As)?;
        let to = type_name(self.alloc, tokens)?;
        tokens.expect(Symbol::Close)?;
        let mark = tokens.node(&begun, begun.here(), ());
        Ok(nodes::cast(self.alloc, mark, value, to)?)
    }

    #[tactic(auto, unfolding(crate::specs::Words::pooled))]
    pub fn pooled(&self, tokens: &mut Cursor<'_>, word: Pool) -> Result<HeldExpression, ParseError>
        requires { Nests self.now.depth (F.pre self.now.parse) (F.post self.now.parse) }
        ensures { Reads (spec.pooled (expressions self.now.depth) (queries self.now.depth) word tokens.old) result tokens.new }
    {
        let begun = tokens.copy();
        tokens.expect(symbol_of(word))?;
        tokens.expect(Symbol::Open)?;
        let items = self.list(tokens)?;
        tokens.expect(Symbol::Close)?;
        let mark = tokens.node(&begun, begun.here(), ());
        Ok(nodes::pooled(self.alloc, mark, word, items)?)
    }

    #[tactic(auto, unfolding(crate::specs::Words::null_if))]
    pub fn null_if(&self, tokens: &mut Cursor<'_>) -> Result<HeldExpression, ParseError>
        requires { Nests self.now.depth (F.pre self.now.parse) (F.post self.now.parse) }
        ensures { Reads (spec.null_if (expressions self.now.depth) (queries self.now.depth) tokens.old) result tokens.new }
    {
        let begun = tokens.copy();
        tokens.expect(Symbol::NullIf)?;
        tokens.expect(Symbol::Open)?;
        let left = self.nested(tokens)?;
        tokens.expect(Symbol::Comma)?;
        let right = self.nested(tokens)?;
        tokens.expect(Symbol::Close)?;
        let mark = tokens.node(&begun, begun.here(), ());
        Ok(nodes::null_if(self.alloc, mark, left, right)?)
    }

    #[tactic(auto, unfolding(crate::specs::Words::extract))]
    pub fn extract(&self, tokens: &mut Cursor<'_>) -> Result<HeldExpression, ParseError>
        requires { Nests self.now.depth (F.pre self.now.parse) (F.post self.now.parse) }
        ensures { Reads (spec.extract (expressions self.now.depth) (queries self.now.depth) tokens.old) result tokens.new }
    {
        let begun = tokens.copy();
        tokens.expect(Symbol::Extract)?;
        tokens.expect(Symbol::Open)?;
        let word = field(self.alloc, tokens)?;
        tokens.expect(Symbol::From)?;
        let value = self.nested(tokens)?;
        tokens.expect(Symbol::Close)?;
        let mark = tokens.node(&begun, begun.here(), ());
        Ok(nodes::extract(self.alloc, mark, word, value)?)
    }
}

/// A subscript may stand behind it.
#[tactic(auto, unfolding(crate::specs::Words::takes_index))]
fn takes_index(form: &Expression) -> bool
    ensures { result ≡ spec.takes_index form.now }
{
    matches!(
        form,
        Expression::Parameter(_) | Expression::Column(_) | Expression::Bracketed(_)
    )
}

impl<F: Fn(Global, &mut Cursor<'_>, usize, Wanted) -> Result<Tree, ParseError>> Grammar<F> {
    #[tactic(auto, unfolding(crate::specs::Words::index))]
    fn index(&self, tokens: &mut Cursor<'_>) -> Result<Index<HeldExpression>, ParseError>
        requires { Nests self.now.depth (F.pre self.now.parse) (F.post self.now.parse) }
        ensures { Reads (spec.index (expressions self.now.depth) (queries self.now.depth) tokens.old) result tokens.new }
    {
        let place = tokens.here();
        tokens.expect(Symbol::OpenSquare)?;
        let index = self.nested(tokens)?;
        tokens.expect(Symbol::CloseSquare)?;
        Ok(Index { place, index })
    }

    fn indices(&self, tokens: &mut Cursor<'_>) -> Result<List<Index<HeldExpression>>, ParseError>
        requires { Nests self.now.depth (F.pre self.now.parse) (F.post self.now.parse) }
        ensures { Reads (many (sees s.OpenSquare) (spec.index (expressions self.now.depth) (queries self.now.depth)) tokens.old) result tokens.new }
    {
        let mut found = List::new(self.alloc);
        for _turn in 0..tokens.left() {
            if !tokens.sees(Symbol::OpenSquare) {
                return Ok(found);
            }
            let next = self.index(tokens)?;
            found.push(next)?;
        }
        Ok(found)
    }

    #[tactic(auto, using(crate::proofs::Chains::chained_is), unfolding(crate::specs::Words::subscripted))]
    pub fn subscripted(&self, tokens: &mut Cursor<'_>) -> Result<HeldExpression, ParseError>
        requires { Nests self.now.depth (F.pre self.now.parse) (F.post self.now.parse) }
        ensures { Reads (spec.subscripted (expressions self.now.depth) (queries self.now.depth) tokens.old) result tokens.new }
    {
        let begun = tokens.copy();
        let operand = self.primary(tokens)?;
        if !takes_index(&operand.part().form) {
            return Ok(operand);
        }
        let links = self.indices(tokens)?;
        let Some(link) = links.get(0) else {
            return Ok(operand);
        };
        let place = link.place;
        let mark = tokens.node(&begun, place, ());
        Ok(nodes::subscript(self.alloc, mark, operand, links)?)
    }
}
