//! What a token is to the grammar, names and types, and what stands before or behind an operand any
//! number of times.

ghost use Rattle.std.specs.Prelude.{◌≡◌};
ghost use Rattle.sq_syntax.specs.Symbols as symbols;
ghost use Rattle.sq_syntax.specs.declared.symbol.Symbol.TheVariants as s;
ghost use Rattle.sq_grammar.specs.Levels as levels;
ghost use Rattle.sq_grammar.specs.Names as spec;
ghost use Rattle.sq_grammar.specs.Reading as reading;
ghost use Rattle.sq_grammar.specs.Reading.{many, sees};
ghost use Rattle.sq_grammar.specs.Tests as tests;
ghost use Rattle.sq_lexemes.specs.Reads.{Reads};

use sq_base::{List, Place};
use sq_lexemes::cursor::Cursor;
use sq_lexemes::error::ParseError;
use sq_syntax::{ColumnName, Conversion, QualifiedName, Quantifier, Reading, Symbol, TypeName};
use std::alloc::Global;

pub fn is_name(reading: &Reading) -> bool
    ensures { result ≡ symbols.is_name reading.now }
{
    sq_lexemes::words::is_name(reading)
}

pub fn is_bare_label(reading: &Reading) -> bool
    ensures { result ≡ symbols.is_bare_label reading.now }
{
    sq_lexemes::words::is_bare_label(reading)
}

pub fn sees_link(tokens: &Cursor<'_>, level: u8) -> bool
    ensures { result ≡ levels.sees_link level tokens.now }
{
    sq_lexemes::operators::sees_link(tokens, level)
}

pub fn qualified_name(alloc: Global, tokens: &mut Cursor<'_>) -> Result<QualifiedName, ParseError>
    ensures { Reads (spec.qualified_name tokens.old) result tokens.new }
{
    sq_lexemes::names::qualified_name(alloc, tokens)
}

pub fn column_name(alloc: Global, tokens: &mut Cursor<'_>) -> Result<ColumnName, ParseError>
    ensures { Reads (spec.column_name tokens.old) result tokens.new }
{
    sq_lexemes::names::column_name(alloc, tokens)
}

pub fn type_name(alloc: Global, tokens: &mut Cursor<'_>) -> Result<TypeName, ParseError>
    ensures { Reads (spec.type tokens.old) result tokens.new }
{
    sq_lexemes::types::type_name(alloc, tokens)
}

pub fn optional(tokens: &mut Cursor<'_>, symbol: Symbol) -> Result<bool, ParseError>
    ensures { Reads (reading.optional symbol tokens.old) result tokens.new }
{
    tokens.optional(symbol)
}

pub fn quantifier(tokens: &mut Cursor<'_>) -> Result<Quantifier, ParseError>
    ensures { Reads (tests.a_quantifier tokens.old) result tokens.new }
{
    sq_lexemes::operators::quantifier(tokens)
}

pub fn negations(alloc: Global, tokens: &mut Cursor<'_>) -> Result<List<Place>, ParseError>
    ensures { Reads (many (sees s.Not) levels.negation tokens.old) result tokens.new }
{
    sq_lexemes::marks::negations(alloc, tokens)
}

pub fn conversions(alloc: Global, tokens: &mut Cursor<'_>) -> Result<List<Conversion>, ParseError>
    ensures { Reads (many (sees s.Colons) levels.conversion tokens.old) result tokens.new }
{
    sq_lexemes::marks::conversions(alloc, tokens)
}
