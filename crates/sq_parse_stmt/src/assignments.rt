//! SET of UPDATE and of ON CONFLICT (PostgreSQL manual, UPDATE and INSERT).

ghost use Rattle.std.specs.Prelude.{◌≡◌};
ghost use Rattle.sq_syntax.specs.declared.symbol.Symbol.TheVariants as s;
ghost use Rattle.sq_grammar.specs.Reading.{many, sees};
ghost use Rattle.sq_grammar.specs.Statements as spec;
ghost use Rattle.sq_grammar.specs.Statements.{listed};
ghost use Rattle.sq_lexemes.specs.Reads.{Reads};
ghost use Rattle.sq_parse_expr.specs.Depth.{outer, queries};
ghost use Rattle.sq_parse_stmt.specs.Changes as parts;

use crate::rows::given;
use sq_base::List;
use sq_lexemes::cursor::Cursor;
use sq_lexemes::error::ParseError;
use sq_lexemes::lists::list_with_first;
use sq_lexemes::names::name;
use sq_syntax::{Assignment, Symbol};
use sq_words::expect_word;
use std::alloc::Global;

#[tactic(auto, unfolding(crate::specs::Words::assignment))]
fn assignment(alloc: Global, tokens: &mut Cursor<'_>) -> Result<Assignment, ParseError>
    ensures { Reads (spec.assignment (outer 64) (queries 64) tokens.old) result tokens.new }
{
    let column = name(alloc, tokens)?;
    tokens.expect(Symbol::Equal)?;
    let value = given(alloc, tokens)?;
    Ok(Assignment { column, value })
}

fn next_assignment(alloc: Global, tokens: &mut Cursor<'_>) -> Result<Assignment, ParseError>
    ensures { Reads (parts.next_assignment (outer 64) (queries 64) tokens.old) result tokens.new }
{
    tokens.expect(Symbol::Comma)?;
    assignment(alloc, tokens)
}

fn more_assignments(alloc: Global, tokens: &mut Cursor<'_>) -> Result<List<Assignment>, ParseError>
    ensures { Reads (many (sees s.Comma) (parts.next_assignment (outer 64) (queries 64)) tokens.old) result tokens.new }
{
    let mut found = List::new(alloc);
    for _turn in 0..tokens.left() {
        if !tokens.sees(Symbol::Comma) {
            return Ok(found);
        }
        let next = next_assignment(alloc, tokens)?;
        found.push(next)?;
    }
    Ok(found)
}

fn some_assignments(alloc: Global, tokens: &mut Cursor<'_>) -> Result<List<Assignment>, ParseError>
    ensures { Reads (listed (spec.assignment (outer 64) (queries 64)) tokens.old) result tokens.new }
{
    let first = assignment(alloc, tokens)?;
    let more = more_assignments(alloc, tokens)?;
    Ok(list_with_first(alloc, first, more)?)
}

#[tactic(auto, unfolding(crate::specs::Words::assignments))]
pub fn assignments(alloc: Global, tokens: &mut Cursor<'_>) -> Result<List<Assignment>, ParseError>
    ensures { Reads (spec.assignments (outer 64) (queries 64) tokens.old) result tokens.new }
{
    expect_word(tokens, "set")?;
    some_assignments(alloc, tokens)
}
