//! What stands behind the table of a change of data (PostgreSQL manual, INSERT, UPDATE and DELETE).

ghost use Rattle.std.specs.Prelude.{◌≡◌};
ghost use Rattle.sq_syntax.specs.declared.symbol.Symbol.TheVariants as s;
ghost use Rattle.sq_grammar.specs.Queries as query_spec;
ghost use Rattle.sq_grammar.specs.Reading.{many, sees};
ghost use Rattle.sq_grammar.specs.Statements as spec;
ghost use Rattle.sq_grammar.specs.Statements.{listed};
ghost use Rattle.sq_lexemes.specs.Reads.{Reads};
ghost use Rattle.sq_parse_expr.specs.Depth.{outer, queries};

use sq_base::List;
use sq_lexemes::cursor::Cursor;
use sq_lexemes::error::ParseError;
use sq_lexemes::lists::list_with_first;
use sq_parse_expr::parts::{next_from, next_output};
use sq_parts::{HeldExpression, HeldFrom};
use sq_syntax::{Node, Output, Symbol};
use sq_words::{expect_word, sees_word};
use std::alloc::Global;

fn output_behind_comma(
    alloc: Global,
    tokens: &mut Cursor<'_>,
) -> Result<Node<Output<HeldExpression>>, ParseError>
    ensures { Reads (query_spec.next_output (outer 64) (queries 64) tokens.old) result tokens.new }
{
    tokens.expect(Symbol::Comma)?;
    next_output(alloc, tokens)
}

fn more_outputs(
    alloc: Global,
    tokens: &mut Cursor<'_>,
) -> Result<List<Node<Output<HeldExpression>>>, ParseError>
    ensures { Reads (many (sees s.Comma) (query_spec.next_output (outer 64) (queries 64)) tokens.old) result tokens.new }
{
    let mut found = List::new(alloc);
    for _turn in 0..tokens.left() {
        if !tokens.sees(Symbol::Comma) {
            return Ok(found);
        }
        let next = output_behind_comma(alloc, tokens)?;
        found.push(next)?;
    }
    Ok(found)
}

/// What stands behind RETURNING, where it comes next.
#[tactic(auto, unfolding(crate::specs::Words::returning))]
pub fn returning(
    alloc: Global,
    tokens: &mut Cursor<'_>,
) -> Result<List<Node<Output<HeldExpression>>>, ParseError>
    ensures { Reads (spec.returning (outer 64) (queries 64) tokens.old) result tokens.new }
{
    if !sees_word(tokens, "returning") {
        return Ok(List::new(alloc));
    }
    expect_word(tokens, "returning")?;
    let first = next_output(alloc, tokens)?;
    let more = more_outputs(alloc, tokens)?;
    Ok(list_with_first(alloc, first, more)?)
}

fn from_behind_comma(alloc: Global, tokens: &mut Cursor<'_>) -> Result<HeldFrom, ParseError>
    ensures { Reads (query_spec.next_from (outer 64) (queries 64) tokens.old) result tokens.new }
{
    tokens.expect(Symbol::Comma)?;
    next_from(alloc, tokens)
}

fn more_from(alloc: Global, tokens: &mut Cursor<'_>) -> Result<List<HeldFrom>, ParseError>
    ensures { Reads (many (sees s.Comma) (query_spec.next_from (outer 64) (queries 64)) tokens.old) result tokens.new }
{
    let mut found = List::new(alloc);
    for _turn in 0..tokens.left() {
        if !tokens.sees(Symbol::Comma) {
            return Ok(found);
        }
        let next = from_behind_comma(alloc, tokens)?;
        found.push(next)?;
    }
    Ok(found)
}

/// Sources behind this word, where it comes next.
#[tactic(auto, unfolding(crate::specs::Words::sources))]
pub fn sources(
    alloc: Global,
    tokens: &mut Cursor<'_>,
    word: Symbol,
) -> Result<List<HeldFrom>, ParseError>
    ensures { Reads (spec.sources (outer 64) (queries 64) word tokens.old) result tokens.new }
{
    if !tokens.sees(word) {
        return Ok(List::new(alloc));
    }
    tokens.expect(word)?;
    let first = next_from(alloc, tokens)?;
    let more = more_from(alloc, tokens)?;
    Ok(list_with_first(alloc, first, more)?)
}
