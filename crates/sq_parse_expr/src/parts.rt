//! The parts of statements, in which brackets and CASE nest at most 64 deep.

ghost use Rattle.sq_grammar.specs.Queries as spec;
ghost use Rattle.sq_lexemes.specs.Reads.{Reads};
ghost use Rattle.sq_parse_expr.specs.Depth.{outer, queries};

use crate::grammar::Grammar;
use crate::whole::parse;
use sq_base::List;
use sq_base::limits::MOST_DEPTH;
use sq_lexemes::cursor::Cursor;
use sq_lexemes::error::ParseError;
use sq_parts::{HeldExpression, HeldFrom, HeldQuery};
use sq_syntax::{Node, Output, Symbol, With};
use std::alloc::Global;

/// The longest expression that begins with the next token.
pub fn next_expression(alloc: Global, tokens: &mut Cursor<'_>) -> Result<HeldExpression, ParseError>
    ensures { Reads (outer 64 tokens.old) result tokens.new }
{
    let grammar = Grammar {
        alloc,
        depth: MOST_DEPTH,
        parse,
    };
    grammar.expression(tokens)
}

/// The longest query that begins with the next token.
pub fn next_query(alloc: Global, tokens: &mut Cursor<'_>) -> Result<HeldQuery, ParseError>
    ensures { Reads (spec.query (outer 64) (queries 64) tokens.old) result tokens.new }
{
    let grammar = Grammar {
        alloc,
        depth: MOST_DEPTH,
        parse,
    };
    grammar.query(tokens)
}

/// The queries of WITH, where it comes next.
pub fn next_with(
    alloc: Global,
    tokens: &mut Cursor<'_>,
) -> Result<List<With<HeldQuery>>, ParseError>
    ensures { Reads (spec.with_queries (outer 64) (queries 64) tokens.old) result tokens.new }
{
    let grammar = Grammar {
        alloc,
        depth: MOST_DEPTH,
        parse,
    };
    grammar.with_queries(tokens)
}

/// A word and an expression, where the word comes next.
pub fn next_clause(
    alloc: Global,
    tokens: &mut Cursor<'_>,
    word: Symbol,
) -> Result<Option<HeldExpression>, ParseError>
    ensures { Reads (spec.clause (outer 64) (queries 64) word tokens.old) result tokens.new }
{
    let grammar = Grammar {
        alloc,
        depth: MOST_DEPTH,
        parse,
    };
    grammar.clause(tokens, word)
}

/// An item of SELECT or RETURNING.
pub fn next_output(
    alloc: Global,
    tokens: &mut Cursor<'_>,
) -> Result<Node<Output<HeldExpression>>, ParseError>
    ensures { Reads (spec.output (outer 64) (queries 64) tokens.old) result tokens.new }
{
    let grammar = Grammar {
        alloc,
        depth: MOST_DEPTH,
        parse,
    };
    grammar.output(tokens)
}

/// An item of FROM or USING.
pub fn next_from(alloc: Global, tokens: &mut Cursor<'_>) -> Result<HeldFrom, ParseError>
    ensures { Reads (spec.from_item (outer 64) (queries 64) tokens.old) result tokens.new }
{
    let grammar = Grammar {
        alloc,
        depth: MOST_DEPTH,
        parse,
    };
    grammar.from_item(tokens)
}
