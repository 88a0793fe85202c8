//! Expressions and queries, and the parts of statements that have them.

ghost use Rattle.std.specs.Prelude.{◌≡◌};
ghost use Rattle.sq_syntax.specs.Grammar as grammar;
ghost use Rattle.sq_syntax.specs.Grammar.{IsExpression, IsQuery};
ghost use Rattle.sq_grammar.specs.Queries as spec;
ghost use Rattle.sq_lexemes.specs.Answers.{Answers};
ghost use Rattle.sq_lexemes.specs.Reads.{Reads};
ghost use Rattle.sq_parse_expr.specs.Depth.{outer, queries};

use sq_base::{Fault, List};
use sq_lexemes::cursor::Cursor;
use sq_lexemes::error::ParseError;
use sq_parts::{HeldExpression, HeldFrom, HeldQuery};
use sq_syntax::{Node, Output, Symbol, Token, With};
use std::alloc::Global;

pub fn expression(alloc: Global, tokens: &[Token]) -> Result<HeldExpression, Fault>
    ensures { Answers IsExpression grammar.height tokens.now result }
{
    sq_parse_expr::expression(alloc, tokens)
}

pub fn query(alloc: Global, tokens: &[Token]) -> Result<HeldQuery, Fault>
    ensures { Answers IsQuery grammar.query_height tokens.now result }
{
    sq_parse_expr::query(alloc, tokens)
}

pub fn next_expression(alloc: Global, tokens: &mut Cursor<'_>) -> Result<HeldExpression, ParseError>
    ensures { Reads (outer 64 tokens.old) result tokens.new }
{
    sq_parse_expr::parts::next_expression(alloc, tokens)
}

pub fn next_with(
    alloc: Global,
    tokens: &mut Cursor<'_>,
) -> Result<List<With<HeldQuery>>, ParseError>
    ensures { Reads (spec.with_queries (outer 64) (queries 64) tokens.old) result tokens.new }
{
    sq_parse_expr::parts::next_with(alloc, tokens)
}

pub fn next_clause(
    alloc: Global,
    tokens: &mut Cursor<'_>,
    word: Symbol,
) -> Result<Option<HeldExpression>, ParseError>
    ensures { Reads (spec.clause (outer 64) (queries 64) word tokens.old) result tokens.new }
{
    sq_parse_expr::parts::next_clause(alloc, tokens, word)
}

pub fn next_output(
    alloc: Global,
    tokens: &mut Cursor<'_>,
) -> Result<Node<Output<HeldExpression>>, ParseError>
    ensures { Reads (spec.output (outer 64) (queries 64) tokens.old) result tokens.new }
{
    sq_parse_expr::parts::next_output(alloc, tokens)
}

pub fn next_from(alloc: Global, tokens: &mut Cursor<'_>) -> Result<HeldFrom, ParseError>
    ensures { Reads (spec.from_item (outer 64) (queries 64) tokens.old) result tokens.new }
{
    sq_parse_expr::parts::next_from(alloc, tokens)
}
