//! DROP (PostgreSQL manual, DROP SCHEMA, DROP TABLE, DROP TYPE and DROP DOMAIN).

ghost use Rattle.std.specs.Prelude.{◌≡◌};
ghost use Rattle.sq_syntax.specs.declared.ddl.Ddl.TheVariants as ddl_kind;
ghost use Rattle.sq_grammar.specs.Schemas as spec;
ghost use Rattle.sq_grammar.specs.Schemas.{numbered};
ghost use Rattle.sq_lexemes.specs.Reads.{Reads};

use crate::lists::qualified_names;
use sq_lexemes::cursor::Cursor;
use sq_lexemes::error::ParseError;
use sq_lexemes::name_lists::names;
use sq_syntax::{Ddl, DropNamed, DropSchema, Dropped};
use sq_words::{behavior, expect_word, if_exists, sees_word};
use sqlite_items::Boxed;
use std::alloc::Global;

#[tactic(auto, unfolding(crate::specs::Words::drop_schema, crate::specs::Words::names))]
pub fn drop_schema(alloc: Global, tokens: &mut Cursor<'_>) -> Result<Boxed<Ddl>, ParseError>
    ensures { Reads (numbered spec.drop_schema ddl_kind.DropSchema tokens.old) result tokens.new }
{
    let begun = tokens.copy();
    expect_word(tokens, "drop")?;
    expect_word(tokens, "schema")?;
    let if_exists = if_exists(tokens)?;
    let names = names(alloc, tokens)?;
    let behavior = behavior(tokens)?;
    let form = DropSchema {
        if_exists,
        names,
        behavior,
    };
    Ok(Boxed::new(
        alloc,
        Ddl::DropSchema(tokens.node(&begun, begun.here(), form)),
    )?)
}

#[tactic(auto, unfolding(crate::specs::Words::dropped_kind))]
fn dropped(tokens: &mut Cursor<'_>) -> Result<Dropped, ParseError>
    ensures { Reads (spec.dropped_kind tokens.old) result tokens.new }
{
    if sees_word(tokens, "table") {
        expect_word(tokens, "table")?;
        Ok(Dropped::Table)
    } else if sees_word(tokens, "type") {
        expect_word(tokens, "type")?;
        Ok(Dropped::Type)
    } else {
        expect_word(tokens, "domain")?;
        Ok(Dropped::Domain)
    }
}

#[tactic(auto, unfolding(crate::specs::Words::drop_named))]
pub fn drop_named(alloc: Global, tokens: &mut Cursor<'_>) -> Result<Boxed<Ddl>, ParseError>
    ensures { Reads (numbered spec.drop_named ddl_kind.Drop tokens.old) result tokens.new }
{
    let begun = tokens.copy();
    expect_word(tokens, "drop")?;
    let kind = dropped(tokens)?;
    let if_exists = if_exists(tokens)?;
    let names = qualified_names(alloc, tokens)?;
    let behavior = behavior(tokens)?;
    let form = DropNamed {
        kind,
        if_exists,
        names,
        behavior,
    };
    Ok(Boxed::new(alloc, Ddl::Drop(tokens.node(&begun, begun.here(), form)))?)
}
