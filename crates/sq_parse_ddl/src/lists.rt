//! Names and labels with commas between them.

ghost use Rattle.std.specs.Prelude.{◌≡◌};
ghost use Rattle.sq_syntax.specs.declared.symbol.Symbol.TheVariants as s;
ghost use Rattle.sq_grammar.specs.Names as names;
ghost use Rattle.sq_grammar.specs.Primaries.{a_text};
ghost use Rattle.sq_grammar.specs.Reading.{many, sees};
ghost use Rattle.sq_grammar.specs.Statements.{listed};
ghost use Rattle.sq_lexemes.specs.Reads.{Reads};
ghost use Rattle.sq_parse_ddl.specs.Parts as parts;

use sq_base::List;
use sq_lexemes::cursor::Cursor;
use sq_lexemes::error::ParseError;
use sq_lexemes::lists::list_with_first;
use sq_lexemes::names::qualified_name;
use sq_lexemes::texts::text;
use sq_syntax::{QualifiedName, Symbol};
use std::alloc::Global;

fn next_name(alloc: Global, tokens: &mut Cursor<'_>) -> Result<QualifiedName, ParseError>
    ensures { Reads (parts.next_name tokens.old) result tokens.new }
{
    tokens.expect(Symbol::Comma)?;
    qualified_name(alloc, tokens)
}

fn more_names(alloc: Global, tokens: &mut Cursor<'_>) -> Result<List<QualifiedName>, ParseError>
    ensures { Reads (many (sees s.Comma) parts.next_name tokens.old) result tokens.new }
{
    let mut found = List::new(alloc);
    for _turn in 0..tokens.left() {
        if !tokens.sees(Symbol::Comma) {
            return Ok(found);
        }
        let next = next_name(alloc, tokens)?;
        found.push(next)?;
    }
    Ok(found)
}

pub fn qualified_names(
    alloc: Global,
    tokens: &mut Cursor<'_>,
) -> Result<List<QualifiedName>, ParseError>
    ensures { Reads (listed names.qualified_name tokens.old) result tokens.new }
{
    let first = qualified_name(alloc, tokens)?;
    let more = more_names(alloc, tokens)?;
    Ok(list_with_first(alloc, first, more)?)
}

fn next_label(alloc: Global, tokens: &mut Cursor<'_>) -> Result<List<u8>, ParseError>
    ensures { Reads (parts.next_label tokens.old) result tokens.new }
{
    tokens.expect(Symbol::Comma)?;
    text(alloc, tokens)
}

fn more_labels(alloc: Global, tokens: &mut Cursor<'_>) -> Result<List<List<u8>>, ParseError>
    ensures { Reads (many (sees s.Comma) parts.next_label tokens.old) result tokens.new }
{
    let mut found = List::new(alloc);
    for _turn in 0..tokens.left() {
        if !tokens.sees(Symbol::Comma) {
            return Ok(found);
        }
        let next = next_label(alloc, tokens)?;
        found.push(next)?;
    }
    Ok(found)
}

/// The labels of an enum, one at least.
pub fn labels(alloc: Global, tokens: &mut Cursor<'_>) -> Result<List<List<u8>>, ParseError>
    ensures { Reads (listed a_text tokens.old) result tokens.new }
{
    let first = text(alloc, tokens)?;
    let more = more_labels(alloc, tokens)?;
    Ok(list_with_first(alloc, first, more)?)
}
