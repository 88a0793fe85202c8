//! The elements of tables (PostgreSQL manual, CREATE TABLE).

ghost use Rattle.std.specs.Prelude.{◌≡◌, []};
ghost use Rattle.sq_syntax.specs.declared.symbol.Symbol.TheVariants as s;
ghost use Rattle.sq_grammar.specs.Reading.{choose, many, pure, sees};
ghost use Rattle.sq_grammar.specs.Schemas as spec;
ghost use Rattle.sq_grammar.specs.Statements.{listed};
ghost use Rattle.sq_lexemes.specs.Reads.{Reads};
ghost use Rattle.sq_parse_ddl.specs.Parts as parts;

use crate::constraints::constraints;
use crate::table_constraints::{begins_table_constraint, table_constraint};
use sq_base::List;
use sq_lexemes::cursor::Cursor;
use sq_lexemes::error::ParseError;
use sq_lexemes::lists::list_with_first;
use sq_lexemes::names::name;
use sq_lexemes::types::type_name;
use sq_syntax::{Column, Element, Symbol};
use std::alloc::Global;

#[tactic(auto, unfolding(crate::specs::Words::column))]
pub fn column(alloc: Global, tokens: &mut Cursor<'_>) -> Result<Column, ParseError>
    ensures { Reads (spec.column tokens.old) result tokens.new }
{
    let name = name(alloc, tokens)?;
    let of = type_name(alloc, tokens)?;
    let constraints = constraints(alloc, tokens)?;
    Ok(Column {
        name,
        of,
        constraints,
    })
}

#[tactic(auto, unfolding(crate::specs::Words::element))]
fn element(alloc: Global, tokens: &mut Cursor<'_>) -> Result<Element, ParseError>
    ensures { Reads (spec.element tokens.old) result tokens.new }
{
    if begins_table_constraint(tokens.rest()) {
        Ok(Element::Constraint(table_constraint(alloc, tokens)?))
    } else {
        Ok(Element::Column(column(alloc, tokens)?))
    }
}

fn next_element(alloc: Global, tokens: &mut Cursor<'_>) -> Result<Element, ParseError>
    ensures { Reads (parts.next_element tokens.old) result tokens.new }
{
    tokens.expect(Symbol::Comma)?;
    element(alloc, tokens)
}

fn more_elements(alloc: Global, tokens: &mut Cursor<'_>) -> Result<List<Element>, ParseError>
    ensures { Reads (many (sees s.Comma) parts.next_element tokens.old) result tokens.new }
{
    let mut found = List::new(alloc);
    for _turn in 0..tokens.left() {
        if !tokens.sees(Symbol::Comma) {
            return Ok(found);
        }
        let next = next_element(alloc, tokens)?;
        found.push(next)?;
    }
    Ok(found)
}

fn some_elements(alloc: Global, tokens: &mut Cursor<'_>) -> Result<List<Element>, ParseError>
    ensures { Reads (listed spec.element tokens.old) result tokens.new }
{
    let first = element(alloc, tokens)?;
    let more = more_elements(alloc, tokens)?;
    Ok(list_with_first(alloc, first, more)?)
}

/// What stands before the closing bracket.
pub fn elements(alloc: Global, tokens: &mut Cursor<'_>) -> Result<List<Element>, ParseError>
    ensures { Reads (choose (sees s.Close) (pure []) (listed spec.element) tokens.old) result tokens.new }
{
    if tokens.sees(Symbol::Close) {
        Ok(List::new(alloc))
    } else {
        some_elements(alloc, tokens)
    }
}
