//! Names with commas between them.

ghost use Rattle.std.specs.Prelude.{◌≡◌, []};
ghost use Rattle.sq_syntax.specs.declared.symbol.Symbol.TheVariants as s;
ghost use Rattle.sq_grammar.specs.Queries as spec;
ghost use Rattle.sq_grammar.specs.Reading.{many, sees};
ghost use Rattle.sq_lexemes.specs.Reads.{Reads};

use crate::cursor::Cursor;
use crate::error::ParseError;
use crate::lists::list_with_first;
use crate::names::name;
use sq_base::List;
use sq_syntax::{Identifier, Symbol};
use std::alloc::Global;

fn next_name(alloc: Global, tokens: &mut Cursor<'_>) -> Result<Identifier, ParseError>
    ensures { Reads (spec.next_name tokens.old) result tokens.new }
{
    tokens.expect(Symbol::Comma)?;
    name(alloc, tokens)
}

fn more_names(alloc: Global, tokens: &mut Cursor<'_>) -> Result<List<Identifier>, ParseError>
    ensures { Reads (many (sees s.Comma) spec.next_name tokens.old) result tokens.new }
{
    let mut found = List::new(alloc);
    for _turn in 0..tokens.left() {
        if !tokens.sees(Symbol::Comma) {
            return Ok(found);
        }
        let next = next_name(alloc, tokens)?;
        found.push(next)?;
    }
    Ok(found)
}

/// Takes names, one at least, with commas between them.
#[tactic(auto, unfolding(crate::specs::Words::names))]
pub fn names(alloc: Global, tokens: &mut Cursor<'_>) -> Result<List<Identifier>, ParseError>
    ensures { Reads (spec.names tokens.old) result tokens.new }
{
    let first = name(alloc, tokens)?;
    let more = more_names(alloc, tokens)?;
    Ok(list_with_first(alloc, first, more)?)
}

/// Takes names in brackets, one at least, with commas between them.
pub fn in_brackets(alloc: Global, tokens: &mut Cursor<'_>) -> Result<List<Identifier>, ParseError>
    ensures { Reads (spec.in_brackets tokens.old) result tokens.new }
{
    tokens.expect(Symbol::Open)?;
    let found = names(alloc, tokens)?;
    tokens.expect(Symbol::Close)?;
    Ok(found)
}

/// The same, where a bracket comes next; else there are none.
#[tactic(auto, unfolding(crate::specs::Words::bracketed_names))]
pub fn bracketed_names(
    alloc: Global,
    tokens: &mut Cursor<'_>,
) -> Result<List<Identifier>, ParseError>
    ensures { Reads (spec.bracketed_names tokens.old) result tokens.new }
{
    if tokens.sees(Symbol::Open) {
        in_brackets(alloc, tokens)
    } else {
        Ok(List::new(alloc))
    }
}
