//! Schema statements, with the places and numbers of their tokens.

ghost use Rattle.sq_grammar.specs.Schemas as spec;
ghost use Rattle.sq_lexemes.specs.Cursor.{Fits};
ghost use Rattle.sq_lexemes.specs.Reads.{Finds, Reads};
ghost use Rattle.sq_lexemes.specs.Whole.{whole};

use crate::alter::alter_table;
use crate::alter_type::alter_type;
use crate::create::{create_domain, create_schema, create_table, create_type};
use crate::drops::{drop_named, drop_schema};
use sq_lexemes::cursor::Cursor;
use sq_lexemes::error::ParseError;
use sq_syntax::{Ddl, Lexeme};
use sq_words::{sees_both, sees_word};
use sqlite_items::Boxed;
use std::alloc::Global;

#[tactic(auto, unfolding(crate::specs::Words::ddl))]
fn ddl(alloc: Global, tokens: &mut Cursor<'_>) -> Result<Boxed<Ddl>, ParseError>
    ensures { Reads (spec.ddl tokens.old) result tokens.new }
{
    if sees_both(tokens, "create", "schema") {
        create_schema(alloc, tokens)
    } else if sees_both(tokens, "create", "type") {
        create_type(alloc, tokens)
    } else if sees_both(tokens, "create", "domain") {
        create_domain(alloc, tokens)
    } else if sees_word(tokens, "create") {
        create_table(alloc, tokens)
    } else if sees_both(tokens, "drop", "schema") {
        drop_schema(alloc, tokens)
    } else if sees_word(tokens, "drop") {
        drop_named(alloc, tokens)
    } else if sees_both(tokens, "alter", "type") {
        alter_type(alloc, tokens)
    } else {
        alter_table(alloc, tokens)
    }
}

/// The schema statement that all of the tokens are.
#[tactic(auto, using(sq_lexemes::proofs::Ends::last_some, sq_lexemes::proofs::Ends::last_none))]
pub fn ddl_of(alloc: Global, tokens: &[Lexeme]) -> Result<Boxed<Ddl>, ParseError>
    requires { Fits 0 tokens.now }
    ensures { Finds (whole spec.ddl tokens.now) result }
{
    let mut cursor = Cursor::new(tokens);
    let found = ddl(alloc, &mut cursor)?;
    if cursor.left() > 0 {
        return Err(ParseError::Syntax);
    }
    Ok(found)
}
