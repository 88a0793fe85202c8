//! Trees of a depth, and whole ones.

ghost use Rattle.std.specs.Prelude.{◌≡◌};
ghost use Rattle.sq_lexemes.specs.Cursor.{Fits};
ghost use Rattle.sq_parse_expr.specs.Depth.{expressions, queries};
ghost use Rattle.sq_parse_expr.specs.Nests.{ReadsTree};
ghost use Rattle.sq_lexemes.specs.Reads.{Finds};
ghost use Rattle.sq_lexemes.specs.Whole.{whole};

use crate::grammar::{Grammar, Tree, Wanted};
use sq_lexemes::cursor::Cursor;
use sq_lexemes::error::ParseError;
use sq_parts::{HeldExpression, HeldQuery};
use sq_syntax::Lexeme;
use std::alloc::Global;

/// What nests less deep than `depth`.
#[tactic(auto, using(crate::proofs::Froms::expressions_none, crate::proofs::Froms::expressions_some, crate::proofs::Froms::queries_none, crate::proofs::Froms::queries_some))]
pub fn parse(
    alloc: Global,
    tokens: &mut Cursor<'_>,
    depth: usize,
    wanted: Wanted,
) -> Result<Tree, ParseError>
    ensures { ReadsTree depth wanted tokens.old result tokens.new }
{
    if depth == 0 {
        return Err(ParseError::Syntax);
    }
    let grammar = Grammar {
        alloc,
        depth: depth - 1,
        parse,
    };
    match wanted {
        Wanted::Expression => Ok(Tree::Expression(grammar.expression(tokens)?)),
        Wanted::Query => Ok(Tree::Query(grammar.query(tokens)?)),
    }
}

/// The expression that all of the tokens are.
#[tactic(auto, using(crate::proofs::Froms::last_some, crate::proofs::Froms::last_none))]
pub fn expression_at(
    alloc: Global,
    tokens: &[Lexeme],
    depth: usize,
) -> Result<HeldExpression, ParseError>
    requires { Fits 0 tokens.now }
    ensures { Finds (whole (expressions depth) tokens.now) result }
{
    let mut cursor = Cursor::new(tokens);
    match parse(alloc, &mut cursor, depth, Wanted::Expression)? {
        Tree::Expression(found) if cursor.left() == 0 => Ok(found),
        _ => Err(ParseError::Syntax),
    }
}

/// The query that all of the tokens are.
#[tactic(auto, using(crate::proofs::Froms::last_some, crate::proofs::Froms::last_none))]
pub fn query_at(alloc: Global, tokens: &[Lexeme], depth: usize) -> Result<HeldQuery, ParseError>
    requires { Fits 0 tokens.now }
    ensures { Finds (whole (queries depth) tokens.now) result }
{
    let mut cursor = Cursor::new(tokens);
    match parse(alloc, &mut cursor, depth, Wanted::Query)? {
        Tree::Query(found) if cursor.left() == 0 => Ok(found),
        _ => Err(ParseError::Syntax),
    }
}
