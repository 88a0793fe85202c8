//! Names.

ghost use Rattle.std.specs.Prelude.{◌≡◌};
ghost use Rattle.std.specs.Str.{IsUtf8};
ghost use Rattle.sq_grammar.specs.Names as spec;
ghost use Rattle.sq_grammar.specs.Primaries as primaries;
ghost use Rattle.sq_lexemes.specs.Cursor.{IsText};
ghost use Rattle.sq_lexemes.specs.Reads.{Finds, Reads};

use crate::cursor::Cursor;
use crate::error::ParseError;
use crate::words::{is_call, is_name, is_other_call, text_of};
use sq_base::Name;
use sq_syntax::{ColumnName, Identifier, Lexeme, QualifiedName, Reading, Symbol};
use std::alloc::Global;
use std::str::from_utf8;

fn as_text(bytes: &[u8]) -> &str
    requires { IsUtf8 bytes.now }
    ensures { result.now ≡ bytes.now }
{
    from_utf8(bytes).unwrap()
}

/// The name that a word or a quoted name is.
pub fn word(alloc: Global, lexeme: &Lexeme) -> Result<Identifier, ParseError>
    requires { IsText lexeme.now.reading }
    ensures { Finds (spec.word_of lexeme.now.reading lexeme.now.place) result }
{
    let (name, is_quoted) = match &lexeme.reading {
        Reading::Symbol(symbol) => (text_of(*symbol), false),
        Reading::Word(word) => (as_text(word.as_slice()), false),
        Reading::Quoted(name) => (as_text(name.as_slice()), true),
        _ => return Err(ParseError::Syntax),
    };
    Ok(Identifier {
        name: Name::new(alloc, name)?,
        is_quoted,
        place: lexeme.place,
    })
}

/// The bytes of a word.
pub fn folded_word(alloc: Global, lexeme: &Lexeme) -> Result<Name, ParseError>
    requires { IsText lexeme.now.reading }
    ensures { Finds (primaries.word_text lexeme.now.reading) result }
{
    let text = match &lexeme.reading {
        Reading::Symbol(symbol) => text_of(*symbol),
        Reading::Word(word) => as_text(word.as_slice()),
        _ => return Err(ParseError::Syntax),
    };
    Ok(Name::new(alloc, text)?)
}

/// Takes a name: a word that is not reserved, or a quoted name (PostgreSQL manual, section 4.1.1).
/// Every other token is a Syntax error.
#[tactic(auto, unfolding(crate::specs::Words::name))]
pub fn name(alloc: Global, tokens: &mut Cursor<'_>) -> Result<Identifier, ParseError>
    ensures { Reads (spec.name tokens.old) result tokens.new }
{
    let lexeme = tokens.take()?;
    if !is_name(&lexeme.reading) {
        return Err(ParseError::Syntax);
    }
    word(alloc, lexeme)
}

/// The name of a function.
#[tactic(auto, unfolding(crate::specs::Words::call_name))]
pub fn call_name(alloc: Global, tokens: &mut Cursor<'_>) -> Result<Identifier, ParseError>
    ensures { Reads (spec.call_name tokens.old) result tokens.new }
{
    let lexeme = tokens.take()?;
    if !is_call(&lexeme.reading) {
        return Err(ParseError::Syntax);
    }
    let found = word(alloc, lexeme)?;
    if is_other_call(found.name.as_bytes()) {
        return Err(ParseError::Syntax);
    }
    Ok(found)
}

/// Takes a name, or the name of a schema, a dot and a name.
#[tactic(auto, unfolding(crate::specs::Words::qualified_name))]
pub fn qualified_name(alloc: Global, tokens: &mut Cursor<'_>) -> Result<QualifiedName, ParseError>
    ensures { Reads (spec.qualified_name tokens.old) result tokens.new }
{
    let first = name(alloc, tokens)?;
    if !tokens.sees(Symbol::Dot) {
        return Ok(QualifiedName {
            schema: None,
            name: first,
        });
    }
    tokens.expect(Symbol::Dot)?;
    Ok(QualifiedName {
        schema: Some(first),
        name: name(alloc, tokens)?,
    })
}

/// Takes the name of a column, with those of its table and of its schema where they are written
/// (PostgreSQL manual, section 4.2.1).
#[tactic(auto, unfolding(crate::specs::Words::column_name))]
pub fn column_name(alloc: Global, tokens: &mut Cursor<'_>) -> Result<ColumnName, ParseError>
    ensures { Reads (spec.column_name tokens.old) result tokens.new }
{
    let first = name(alloc, tokens)?;
    if !tokens.sees(Symbol::Dot) {
        return Ok(ColumnName::Bare(first));
    }
    tokens.expect(Symbol::Dot)?;
    let second = name(alloc, tokens)?;
    if !tokens.sees(Symbol::Dot) {
        return Ok(ColumnName::OfRange(first, second));
    }
    tokens.expect(Symbol::Dot)?;
    let third = name(alloc, tokens)?;
    Ok(ColumnName::OfTable(first, second, third))
}
