//! The rules take the parser of what stands in brackets and in CASE as a parameter, so that each
//! is proved by itself.

ghost use Rattle.sq_parse_expr.specs.Depth.{expressions, queries};
ghost use Rattle.sq_parse_expr.specs.Nests.{Nests};
ghost use Rattle.sq_lexemes.specs.Reads.{Reads};

use sq_lexemes::cursor::Cursor;
use sq_lexemes::error::ParseError;
use sq_parts::{HeldExpression, HeldQuery};
use std::alloc::Global;

/// What tokens are read as.
#[derive(Clone, Copy)]
pub enum Wanted {
    Expression,
    Query,
}

#[derive(Drop)]
pub enum Tree {
    Expression(HeldExpression),
    Query(HeldQuery),
}

#[derive(Clone, Copy)]
pub struct Grammar<F> {
    pub alloc: Global,
    /// How deep brackets and CASE may still nest inside.
    pub depth: usize,
    pub parse: F,
}

impl<F: Fn(Global, &mut Cursor<'_>, usize, Wanted) -> Result<Tree, ParseError>> Grammar<F> {
    /// An expression in brackets or CASE.
    pub fn nested(&self, tokens: &mut Cursor<'_>) -> Result<HeldExpression, ParseError>
        requires { Nests self.now.depth (F.pre self.now.parse) (F.post self.now.parse) }
        ensures { Reads ((expressions self.now.depth) tokens.old) result tokens.new }
    {
        match (self.parse)(self.alloc, tokens, self.depth, Wanted::Expression)? {
            Tree::Expression(found) => Ok(found),
            Tree::Query(_) => Err(ParseError::Syntax),
        }
    }

    /// A query in brackets.
    pub fn inner(&self, tokens: &mut Cursor<'_>) -> Result<HeldQuery, ParseError>
        requires { Nests self.now.depth (F.pre self.now.parse) (F.post self.now.parse) }
        ensures { Reads ((queries self.now.depth) tokens.old) result tokens.new }
    {
        match (self.parse)(self.alloc, tokens, self.depth, Wanted::Query)? {
            Tree::Query(found) => Ok(found),
            Tree::Expression(_) => Err(ParseError::Syntax),
        }
    }
}
