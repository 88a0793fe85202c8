//! Types.

ghost use Rattle.std.specs.Prelude.{◌≡◌, ◌∷◌, ◌&&◌, map, IfOk};
ghost use Rattle.std.specs.Option.{option_copied};
ghost use Rattle.sq_syntax.specs.Pieces as pieces;
ghost use Rattle.sq_syntax.specs.declared.symbol.Symbol.TheVariants as s;
ghost use Rattle.sq_syntax.specs.declared.symbol.Reading.TheVariants as reading;
ghost use Rattle.sq_grammar.specs.Names as spec;
ghost use Rattle.sq_grammar.specs.Reading.{here, many, nowhere, sees};
ghost use Rattle.sq_lexemes.specs.Reads.{Finds, Reads};

use crate::cursor::Cursor;
use crate::error::ParseError;
use crate::lists::list_with_first;
use crate::look_up::same;
use crate::names::qualified_name;
use crate::words::is_among;
use sq_base::{List, Place};
use sq_syntax::{Identifier, Reading, Symbol, TimeZone, TypeName, TypeWord};
use std::alloc::Global;

#[tactic(auto, unfolding(crate::specs::Words::number))]
fn number(alloc: Global, tokens: &mut Cursor<'_>) -> Result<List<u8>, ParseError>
    ensures { Reads (spec.number tokens.old) result tokens.new }
{
    match &tokens.take()?.reading {
        Reading::Number(bytes) => Ok(List::from_slice(alloc, bytes.as_slice())?),
        _ => Err(ParseError::Syntax),
    }
}

fn filled(alloc: Global, bytes: &[u8]) -> Result<List<u8>, ParseError>
    ensures { Finds (spec.digits_of (reading.Number bytes.now) nowhere) result }
{
    match bytes.split_first() {
        Some(_) => Ok(List::from_slice(alloc, bytes)?),
        None => Err(ParseError::Syntax),
    }
}

/// A number of one byte at least.
#[tactic(auto, unfolding(crate::specs::Words::digits))]
fn digits(alloc: Global, tokens: &mut Cursor<'_>) -> Result<List<u8>, ParseError>
    ensures { Reads (spec.digits tokens.old) result tokens.new }
{
    match &tokens.take()?.reading {
        Reading::Number(bytes) => filled(alloc, bytes.as_slice()),
        _ => Err(ParseError::Syntax),
    }
}

#[tactic(auto, unfolding(crate::specs::Words::next_number))]
fn next_number(alloc: Global, tokens: &mut Cursor<'_>) -> Result<List<u8>, ParseError>
    ensures { Reads (spec.next_number tokens.old) result tokens.new }
{
    tokens.expect(Symbol::Comma)?;
    number(alloc, tokens)
}

fn more_numbers(alloc: Global, tokens: &mut Cursor<'_>) -> Result<List<List<u8>>, ParseError>
    ensures { Reads (many (sees s.Comma) spec.next_number tokens.old) result tokens.new }
{
    let mut found = List::new(alloc);
    for _turn in 0..tokens.left() {
        if !tokens.sees(Symbol::Comma) {
            return Ok(found);
        }
        let next = next_number(alloc, tokens)?;
        found.push(next)?;
    }
    Ok(found)
}

#[tactic(auto, unfolding(crate::specs::Words::size, crate::specs::Words::numbers))]
fn size(alloc: Global, tokens: &mut Cursor<'_>) -> Result<List<List<u8>>, ParseError>
    ensures { Reads (spec.size tokens.old) result tokens.new }
{
    if !tokens.sees(Symbol::Open) {
        return Ok(List::new(alloc));
    }
    tokens.expect(Symbol::Open)?;
    let first = number(alloc, tokens)?;
    let more = more_numbers(alloc, tokens)?;
    tokens.expect(Symbol::Close)?;
    Ok(list_with_first(alloc, first, more)?)
}

fn zone_words(tokens: &mut Cursor<'_>, word: Symbol, zone: TimeZone) -> Result<TimeZone, ParseError>
    ensures { Reads (spec.zone_words word zone tokens.old) result tokens.new }
{
    tokens.expect(word)?;
    tokens.expect(Symbol::Time)?;
    tokens.expect(Symbol::Zone)?;
    Ok(zone)
}

#[tactic(auto, unfolding(crate::specs::Words::time_zone))]
fn time_zone(tokens: &mut Cursor<'_>) -> Result<TimeZone, ParseError>
    ensures { Reads (spec.time_zone tokens.old) result tokens.new }
{
    if tokens.sees(Symbol::With) {
        zone_words(tokens, Symbol::With, TimeZone::With)
    } else if tokens.sees(Symbol::Without) {
        zone_words(tokens, Symbol::Without, TimeZone::Without)
    } else {
        Ok(TimeZone::Unsaid)
    }
}

#[tactic(auto, unfolding(crate::specs::Words::square))]
fn square(alloc: Global, tokens: &mut Cursor<'_>) -> Result<List<u8>, ParseError>
    ensures { Reads (spec.square tokens.old) result tokens.new }
{
    tokens.expect(Symbol::OpenSquare)?;
    if tokens.sees(Symbol::CloseSquare) {
        tokens.expect(Symbol::CloseSquare)?;
        return Ok(List::new(alloc));
    }
    let found = digits(alloc, tokens)?;
    tokens.expect(Symbol::CloseSquare)?;
    Ok(found)
}

fn squares(alloc: Global, tokens: &mut Cursor<'_>) -> Result<List<List<u8>>, ParseError>
    ensures { Reads (many (sees s.OpenSquare) spec.square tokens.old) result tokens.new }
{
    let mut found = List::new(alloc);
    for _turn in 0..tokens.left() {
        if !tokens.sees(Symbol::OpenSquare) {
            return Ok(found);
        }
        let next = square(alloc, tokens)?;
        found.push(next)?;
    }
    Ok(found)
}

#[tactic(auto, unfolding(crate::specs::Words::type_words))]
fn type_words(alloc: Global, tokens: &mut Cursor<'_>) -> Result<TypeWord, ParseError>
    ensures { Reads (spec.type_words tokens.old) result tokens.new }
{
    let place = tokens.here();
    if tokens.sees_both(Symbol::Double, Symbol::Precision) {
        tokens.expect(Symbol::Double)?;
        tokens.expect(Symbol::Precision)?;
        return Ok(TypeWord::DoublePrecision(place));
    }
    if tokens.sees_both(Symbol::Character, Symbol::Varying) {
        tokens.expect(Symbol::Character)?;
        tokens.expect(Symbol::Varying)?;
        return Ok(TypeWord::CharacterVarying(place));
    }
    Ok(TypeWord::Named(qualified_name(alloc, tokens)?))
}

const SIZED_TYPES: [&str; 11] = [
    "numeric",
    "decimal",
    "dec",
    "varchar",
    "character",
    "bpchar",
    "char",
    "time",
    "timestamp",
    "timestamptz",
    "interval",
];

const SCALED_TYPES: [&str; 3] = ["numeric", "decimal", "dec"];

fn is_sized(of: Option<&[u8]>) -> bool
    ensures { result ≡ pieces.named_among pieces.sized_types (option_copied of.entry) }
{
    of.is_some_and(|word| is_among(word, &SIZED_TYPES))
}

fn is_scaled(of: Option<&[u8]>) -> bool
    ensures { result ≡ pieces.named_among pieces.scaled_types (option_copied of.entry) }
{
    of.is_some_and(|word| is_among(word, &SCALED_TYPES))
}

#[tactic(auto, using(crate::proofs::Sizes::no_size, crate::proofs::Sizes::one_size, crate::proofs::Sizes::two_sizes, crate::proofs::Sizes::more_sizes))]
fn size_fits(of: Option<&[u8]>, size: &List<List<u8>>) -> bool
    ensures { result ≡ pieces.size_fits (option_copied of.entry) size.now }
{
    match size.len() {
        0 => true,
        1 => is_sized(of),
        2 => is_scaled(of),
        _ => false,
    }
}

fn zone_fits(of: Option<&[u8]>, zone: TimeZone) -> bool
    ensures { result ≡ pieces.zone_fits (option_copied of.entry) zone }
{
    match (zone, of) {
        (TimeZone::Unsaid, _) => true,
        (TimeZone::With, Some(word)) => same("timestamp", word),
        (TimeZone::Without, Some(word)) => same("time", word) || same("timestamp", word),
        (_, None) => false,
    }
}

fn is_built_in(schema: &Option<Identifier>) -> bool
    ensures { result ≡ pieces.is_built_in schema.now }
{
    match schema {
        Some(schema) => schema.name.as_bytes() == "pg_catalog".as_bytes(),
        None => true,
    }
}

/// The name of a type where it may be a built-in one.
fn plain_type(word: &TypeWord) -> Option<&[u8]>
    ensures { option_copied result ≡ pieces.plain_type word.now }
{
    match word {
        TypeWord::Named(name) if is_built_in(&name.schema) => Some(name.name.name.as_bytes()),
        TypeWord::CharacterVarying(_) => Some("varchar".as_bytes()),
        _ => None,
    }
}

/// Takes the name of a type (PostgreSQL manual, chapter 8). A Syntax error where none comes next, and
/// where its name takes no such size or time zone.
#[tactic(auto, unfolding(crate::specs::Words::a_type))]
pub fn type_name(alloc: Global, tokens: &mut Cursor<'_>) -> Result<TypeName, ParseError>
    ensures { Reads (spec.type tokens.old) result tokens.new }
{
    let word = type_words(alloc, tokens)?;
    let size = size(alloc, tokens)?;
    let zone = time_zone(tokens)?;
    let arrays = squares(alloc, tokens)?;
    let of = plain_type(&word);
    if !(size_fits(of, &size) && zone_fits(of, zone)) {
        return Err(ParseError::Syntax);
    }
    Ok(TypeName {
        word,
        size,
        zone,
        arrays,
    })
}
