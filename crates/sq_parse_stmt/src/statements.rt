//! Queries and changes of data (PostgreSQL manual, SELECT, INSERT, UPDATE and DELETE).

ghost use Rattle.sq_grammar.specs.Statements as spec;
ghost use Rattle.sq_lexemes.specs.Cursor.{Fits};
ghost use Rattle.sq_lexemes.specs.Reads.{Finds, Reads};
ghost use Rattle.sq_lexemes.specs.Whole.{whole};
ghost use Rattle.sq_parse_expr.specs.Depth.{outer, queries};

use crate::changes::{delete, insert, update};
use sq_lexemes::cursor::Cursor;
use sq_lexemes::error::ParseError;
use sq_parse_expr::parts::{next_query, next_with};
use sq_statements::HeldStatement;
use sq_syntax::{Lexeme, Symbol};
use sq_words::sees_word;
use std::alloc::Global;

fn whole_query(alloc: Global, tokens: &mut Cursor<'_>) -> Result<HeldStatement, ParseError>
    ensures { Reads (spec.whole_query (outer 64) (queries 64) tokens.old) result tokens.new }
{
    let query = next_query(alloc, tokens)?;
    Ok(HeldStatement::query(alloc, query)?)
}

/// The word behind the queries of WITH tells what the statement is.
#[tactic(auto, unfolding(crate::specs::Words::statement, crate::specs::Words::insert, crate::specs::Words::update, crate::specs::Words::delete, crate::specs::Words::query))]
fn statement(alloc: Global, tokens: &mut Cursor<'_>) -> Result<HeldStatement, ParseError>
    ensures { Reads (spec.statement (outer 64) (queries 64) tokens.old) result tokens.new }
{
    let begun = tokens.copy();
    let with = next_with(alloc, tokens)?;
    if sees_word(tokens, "insert") {
        insert(alloc, tokens, &begun, with)
    } else if tokens.sees(Symbol::Update) {
        update(alloc, tokens, &begun, with)
    } else if sees_word(tokens, "delete") {
        delete(alloc, tokens, &begun, with)
    } else {
        *tokens = begun;
        whole_query(alloc, tokens)
    }
}

/// The statement that all of the tokens are.
#[tactic(auto, using(sq_lexemes::proofs::Ends::last_some, sq_lexemes::proofs::Ends::last_none), unfolding(crate::specs::Words::statements))]
pub fn statement_of(alloc: Global, tokens: &[Lexeme]) -> Result<HeldStatement, ParseError>
    requires { Fits 0 tokens.now }
    ensures { Finds (whole (spec.statements 65) tokens.now) result }
{
    let mut cursor = Cursor::new(tokens);
    let found = statement(alloc, &mut cursor)?;
    if cursor.left() > 0 {
        return Err(ParseError::Syntax);
    }
    Ok(found)
}
