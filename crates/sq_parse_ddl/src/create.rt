//! CREATE (PostgreSQL manual, CREATE SCHEMA, CREATE TABLE, CREATE TYPE and CREATE DOMAIN).

ghost use Rattle.std.specs.Prelude.{◌≡◌, [], None, codes};
ghost use Rattle.sq_syntax.specs.declared.ddl.Ddl.TheVariants as ddl_kind;
ghost use Rattle.sq_syntax.specs.declared.symbol.Symbol.TheVariants as s;
ghost use Rattle.sq_grammar.specs.Primaries.{a_text};
ghost use Rattle.sq_grammar.specs.Reading.{choose, pure, sees};
ghost use Rattle.sq_grammar.specs.Schemas as spec;
ghost use Rattle.sq_grammar.specs.Schemas.{numbered};
ghost use Rattle.sq_grammar.specs.Statements.{listed, sees_word};
ghost use Rattle.sq_lexemes.specs.Reads.{Reads};

use crate::columns::elements;
use crate::constraints::constraints;
use crate::lists::labels;
use crate::tails::tails;
use sq_base::List;
use sq_lexemes::cursor::Cursor;
use sq_lexemes::error::ParseError;
use sq_lexemes::names::{name, qualified_name};
use sq_lexemes::types::type_name;
use sq_syntax::{CreateDomain, CreateSchema, CreateTable, CreateType, Ddl, Identifier, Symbol};
use sq_words::{expect_word, if_not_exists, optional_word, sees_word};
use sqlite_items::Boxed;
use std::alloc::Global;

/// The name behind AUTHORIZATION.
fn owner(alloc: Global, tokens: &mut Cursor<'_>) -> Result<Option<Identifier>, ParseError>
    ensures { Reads (choose (sees_word (codes "authorization")) spec.some_owner (pure None) tokens.old) result tokens.new }
{
    if !sees_word(tokens, "authorization") {
        return Ok(None);
    }
    expect_word(tokens, "authorization")?;
    Ok(Some(name(alloc, tokens)?))
}

#[tactic(auto, unfolding(crate::specs::Words::create_schema))]
pub fn create_schema(alloc: Global, tokens: &mut Cursor<'_>) -> Result<Boxed<Ddl>, ParseError>
    ensures { Reads (numbered spec.create_schema ddl_kind.CreateSchema tokens.old) result tokens.new }
{
    let begun = tokens.copy();
    expect_word(tokens, "create")?;
    expect_word(tokens, "schema")?;
    let if_not_exists = if_not_exists(tokens)?;
    let name = name(alloc, tokens)?;
    let owner = owner(alloc, tokens)?;
    let form = CreateSchema {
        if_not_exists,
        name,
        owner,
    };
    Ok(Boxed::new(
        alloc,
        Ddl::CreateSchema(tokens.node(&begun, begun.here(), form)),
    )?)
}

#[tactic(auto, unfolding(crate::specs::Words::create_table))]
pub fn create_table(alloc: Global, tokens: &mut Cursor<'_>) -> Result<Boxed<Ddl>, ParseError>
    ensures { Reads (numbered spec.create_table ddl_kind.CreateTable tokens.old) result tokens.new }
{
    let begun = tokens.copy();
    expect_word(tokens, "create")?;
    let is_unlogged = optional_word(tokens, "unlogged")?;
    expect_word(tokens, "table")?;
    let if_not_exists = if_not_exists(tokens)?;
    let name = qualified_name(alloc, tokens)?;
    tokens.expect(Symbol::Open)?;
    let elements = elements(alloc, tokens)?;
    tokens.expect(Symbol::Close)?;
    let tails = tails(alloc, tokens)?;
    let form = CreateTable {
        is_unlogged,
        if_not_exists,
        name,
        elements,
        tails,
    };
    Ok(Boxed::new(
        alloc,
        Ddl::CreateTable(tokens.node(&begun, begun.here(), form)),
    )?)
}

/// The labels before the closing bracket.
fn optional_labels(alloc: Global, tokens: &mut Cursor<'_>) -> Result<List<List<u8>>, ParseError>
    ensures { Reads (choose (sees s.Close) (pure []) (listed a_text) tokens.old) result tokens.new }
{
    if tokens.sees(Symbol::Close) {
        Ok(List::new(alloc))
    } else {
        labels(alloc, tokens)
    }
}

#[tactic(auto, unfolding(crate::specs::Words::create_type))]
pub fn create_type(alloc: Global, tokens: &mut Cursor<'_>) -> Result<Boxed<Ddl>, ParseError>
    ensures { Reads (numbered spec.create_type ddl_kind.CreateType tokens.old) result tokens.new }
{
    let begun = tokens.copy();
    expect_word(tokens, "create")?;
    expect_word(tokens, "type")?;
    let name = qualified_name(alloc, tokens)?;
    tokens.expect(Symbol::As)?;
    expect_word(tokens, "enum")?;
    tokens.expect(Symbol::Open)?;
    let labels = optional_labels(alloc, tokens)?;
    tokens.expect(Symbol::Close)?;
    let form = CreateType { name, labels };
    Ok(Boxed::new(
        alloc,
        Ddl::CreateType(tokens.node(&begun, begun.here(), form)),
    )?)
}

#[tactic(auto, unfolding(crate::specs::Words::create_domain))]
pub fn create_domain(alloc: Global, tokens: &mut Cursor<'_>) -> Result<Boxed<Ddl>, ParseError>
    ensures { Reads (numbered spec.create_domain ddl_kind.CreateDomain tokens.old) result tokens.new }
{
    let begun = tokens.copy();
    expect_word(tokens, "create")?;
    expect_word(tokens, "domain")?;
    let name = qualified_name(alloc, tokens)?;
    let has_as = tokens.optional(Symbol::As)?;
    let base = type_name(alloc, tokens)?;
    let constraints = constraints(alloc, tokens)?;
    let form = CreateDomain {
        name,
        has_as,
        base,
        constraints,
    };
    Ok(Boxed::new(
        alloc,
        Ddl::CreateDomain(tokens.node(&begun, begun.here(), form)),
    )?)
}
