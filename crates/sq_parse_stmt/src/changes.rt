//! INSERT, UPDATE and DELETE, behind their queries of WITH (PostgreSQL manual, INSERT, UPDATE and
//! DELETE).

ghost use Rattle.sq_lexemes.specs.Reads.{Reads};
ghost use Rattle.sq_parse_expr.specs.Depth.{outer, queries};
ghost use Rattle.sq_parse_stmt.specs.Changes as parts;

use crate::assignments::assignments;
use crate::clauses::{returning, sources};
use crate::conflict::conflict;
use crate::rows::source;
use crate::table_names::{as_name, columns, deleted_alias, updated_alias};
use sq_base::List;
use sq_lexemes::cursor::Cursor;
use sq_lexemes::error::ParseError;
use sq_lexemes::names::qualified_name;
use sq_parse_expr::parts::next_clause;
use sq_parts::HeldQuery;
use sq_statements::HeldStatement;
use sq_syntax::{Symbol, With};
use sq_words::expect_word;
use std::alloc::Global;

/// The rest of the INSERT that begins there, with these queries of WITH.
pub fn insert(
    alloc: Global,
    tokens: &mut Cursor<'_>,
    begun: &Cursor<'_>,
    with: List<With<HeldQuery>>,
) -> Result<HeldStatement, ParseError>
    ensures { Reads (parts.insert_behind (outer 64) (queries 64) begun.now with tokens.old) result tokens.new }
{
    expect_word(tokens, "insert")?;
    expect_word(tokens, "into")?;
    let table = qualified_name(alloc, tokens)?;
    let alias = as_name(alloc, tokens)?;
    let columns = columns(alloc, tokens)?;
    let source = source(alloc, tokens)?;
    let conflict = conflict(alloc, tokens)?;
    let shown = returning(alloc, tokens)?;
    let mark = tokens.node(begun, begun.here(), ());
    Ok(HeldStatement::insert(
        alloc, mark, with, table, alias, columns, source, conflict, shown,
    )?)
}

/// The rest of the UPDATE that begins there, with these queries of WITH.
pub fn update(
    alloc: Global,
    tokens: &mut Cursor<'_>,
    begun: &Cursor<'_>,
    with: List<With<HeldQuery>>,
) -> Result<HeldStatement, ParseError>
    ensures { Reads (parts.update_behind (outer 64) (queries 64) begun.now with tokens.old) result tokens.new }
{
    tokens.expect(Symbol::Update)?;
    let table = qualified_name(alloc, tokens)?;
    let alias = updated_alias(alloc, tokens)?;
    let sets = assignments(alloc, tokens)?;
    let from = sources(alloc, tokens, Symbol::From)?;
    let condition = next_clause(alloc, tokens, Symbol::Where)?;
    let shown = returning(alloc, tokens)?;
    let mark = tokens.node(begun, begun.here(), ());
    Ok(HeldStatement::update(
        alloc, mark, with, table, alias, sets, from, condition, shown,
    )?)
}

/// The rest of the DELETE that begins there, with these queries of WITH.
pub fn delete(
    alloc: Global,
    tokens: &mut Cursor<'_>,
    begun: &Cursor<'_>,
    with: List<With<HeldQuery>>,
) -> Result<HeldStatement, ParseError>
    ensures { Reads (parts.delete_behind (outer 64) (queries 64) begun.now with tokens.old) result tokens.new }
{
    expect_word(tokens, "delete")?;
    tokens.expect(Symbol::From)?;
    let table = qualified_name(alloc, tokens)?;
    let alias = deleted_alias(alloc, tokens)?;
    let using = sources(alloc, tokens, Symbol::Using)?;
    let condition = next_clause(alloc, tokens, Symbol::Where)?;
    let shown = returning(alloc, tokens)?;
    let mark = tokens.node(begun, begun.here(), ());
    Ok(HeldStatement::delete(alloc, mark, with, table, alias, using, condition, shown)?)
}
