//! Signs, NOT, COLLATE and `::`, which stand before or after their operand any number of times.

ghost use Rattle.std.specs.Prelude.{◌≡◌};
ghost use Rattle.sq_syntax.specs.declared.symbol.Symbol.TheVariants as s;
ghost use Rattle.sq_grammar.specs.Levels as spec;
ghost use Rattle.sq_grammar.specs.Reading.{many, sees};
ghost use Rattle.sq_lexemes.specs.Reads.{Reads};

use crate::cursor::Cursor;
use crate::error::ParseError;
use crate::names::name;
use crate::types::type_name;
use sq_base::{List, Place};
use sq_syntax::{Collation, Conversion, Reading, Sign, Symbol};
use std::alloc::Global;

fn sees_sign(tokens: &Cursor<'_>) -> bool
    ensures { result ≡ spec.sees_sign tokens.now }
{
    tokens.sees(Symbol::Minus) || tokens.sees(Symbol::Plus)
}

#[tactic(auto, unfolding(crate::specs::Words::sign))]
fn sign(tokens: &mut Cursor<'_>) -> Result<Sign, ParseError>
    ensures { Reads (spec.sign tokens.old) result tokens.new }
{
    let lexeme = tokens.take()?;
    let is_minus = match lexeme.reading {
        Reading::Symbol(Symbol::Minus) => true,
        Reading::Symbol(Symbol::Plus) => false,
        _ => return Err(ParseError::Syntax),
    };
    Ok(Sign {
        place: lexeme.place,
        is_minus,
    })
}

/// Takes the signs before an operand.
pub fn signs(alloc: Global, tokens: &mut Cursor<'_>) -> Result<List<Sign>, ParseError>
    ensures { Reads (many spec.sees_sign spec.sign tokens.old) result tokens.new }
{
    let mut found = List::new(alloc);
    for _turn in 0..tokens.left() {
        if !sees_sign(tokens) {
            return Ok(found);
        }
        let next = sign(tokens)?;
        found.push(next)?;
    }
    Ok(found)
}

#[tactic(auto, unfolding(crate::specs::Words::negation))]
fn negation(tokens: &mut Cursor<'_>) -> Result<Place, ParseError>
    ensures { Reads (spec.negation tokens.old) result tokens.new }
{
    let place = tokens.here();
    tokens.expect(Symbol::Not)?;
    Ok(place)
}

/// Takes each NOT before an operand, and answers its place.
pub fn negations(alloc: Global, tokens: &mut Cursor<'_>) -> Result<List<Place>, ParseError>
    ensures { Reads (many (sees s.Not) spec.negation tokens.old) result tokens.new }
{
    let mut found = List::new(alloc);
    for _turn in 0..tokens.left() {
        if !tokens.sees(Symbol::Not) {
            return Ok(found);
        }
        let next = negation(tokens)?;
        found.push(next)?;
    }
    Ok(found)
}

#[tactic(auto, unfolding(crate::specs::Words::collation))]
fn collation(alloc: Global, tokens: &mut Cursor<'_>) -> Result<Collation, ParseError>
    ensures { Reads (spec.collation tokens.old) result tokens.new }
{
    let place = tokens.here();
    tokens.expect(Symbol::Collate)?;
    let name = name(alloc, tokens)?;
    Ok(Collation { place, name })
}

/// Takes each COLLATE behind an operand (PostgreSQL manual, section 4.2.10).
pub fn collations(alloc: Global, tokens: &mut Cursor<'_>) -> Result<List<Collation>, ParseError>
    ensures { Reads (many (sees s.Collate) spec.collation tokens.old) result tokens.new }
{
    let mut found = List::new(alloc);
    for _turn in 0..tokens.left() {
        if !tokens.sees(Symbol::Collate) {
            return Ok(found);
        }
        let next = collation(alloc, tokens)?;
        found.push(next)?;
    }
    Ok(found)
}

#[tactic(auto, unfolding(crate::specs::Words::conversion))]
fn conversion(alloc: Global, tokens: &mut Cursor<'_>) -> Result<Conversion, ParseError>
    ensures { Reads (spec.conversion tokens.old) result tokens.new }
{
    let place = tokens.here();
    tokens.expect(Symbol::Colons)?;
    let to = type_name(alloc, tokens)?;
    Ok(Conversion { place, to })
}

/// Takes each `::` behind an operand (PostgreSQL manual, section 4.2.9).
pub fn conversions(alloc: Global, tokens: &mut Cursor<'_>) -> Result<List<Conversion>, ParseError>
    ensures { Reads (many (sees s.Colons) spec.conversion tokens.old) result tokens.new }
{
    let mut found = List::new(alloc);
    for _turn in 0..tokens.left() {
        if !tokens.sees(Symbol::Colons) {
            return Ok(found);
        }
        let next = conversion(alloc, tokens)?;
        found.push(next)?;
    }
    Ok(found)
}
