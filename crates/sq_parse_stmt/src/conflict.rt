//! ON CONFLICT (PostgreSQL manual, INSERT).

ghost use Rattle.std.specs.Prelude.{◌≡◌};
ghost use Rattle.sq_grammar.specs.Statements as spec;
ghost use Rattle.sq_lexemes.specs.Reads.{Reads};
ghost use Rattle.sq_parse_expr.specs.Depth.{outer, queries};

use crate::assignments::assignments;
use sq_lexemes::cursor::Cursor;
use sq_lexemes::error::ParseError;
use sq_lexemes::name_lists::in_brackets;
use sq_lexemes::names::name;
use sq_parse_expr::parts::next_clause;
use sq_statements::boxed;
use sq_syntax::{Conflict, ConflictTarget, Symbol};
use sq_words::{expect_word, sees_word};
use sqlite_items::Items;
use std::alloc::Global;

fn target_columns(
    alloc: Global,
    tokens: &mut Cursor<'_>,
) -> Result<Option<ConflictTarget>, ParseError>
    ensures { Reads (spec.target_columns (outer 64) (queries 64) tokens.old) result tokens.new }
{
    let names = in_brackets(alloc, tokens)?;
    let condition = next_clause(alloc, tokens, Symbol::Where)?;
    Ok(Some(ConflictTarget::Columns(names, boxed(condition))))
}

fn target_constraint(
    alloc: Global,
    tokens: &mut Cursor<'_>,
) -> Result<Option<ConflictTarget>, ParseError>
    ensures { Reads (spec.target_constraint (outer 64) (queries 64) tokens.old) result tokens.new }
{
    tokens.expect(Symbol::On)?;
    expect_word(tokens, "constraint")?;
    let name = name(alloc, tokens)?;
    Ok(Some(ConflictTarget::Constraint(name)))
}

#[tactic(auto, unfolding(crate::specs::Words::optional_target))]
fn optional_target(
    alloc: Global,
    tokens: &mut Cursor<'_>,
) -> Result<Option<ConflictTarget>, ParseError>
    ensures { Reads (spec.optional_target (outer 64) (queries 64) tokens.old) result tokens.new }
{
    if tokens.sees(Symbol::Open) {
        target_columns(alloc, tokens)
    } else if tokens.sees(Symbol::On) {
        target_constraint(alloc, tokens)
    } else {
        Ok(None)
    }
}

/// NOTHING of the ON CONFLICT that begins there.
fn do_nothing(
    tokens: &mut Cursor<'_>,
    begun: &Cursor<'_>,
    target: Option<ConflictTarget>,
) -> Result<Option<Conflict>, ParseError>
    ensures { Reads (spec.do_nothing (outer 64) (queries 64) begun.now target tokens.old) result tokens.new }
{
    expect_word(tokens, "nothing")?;
    Ok(Some(Conflict::Nothing(begun.here(), target)))
}

/// UPDATE of the ON CONFLICT that begins there. Without a target it is a Syntax error.
fn do_update(
    alloc: Global,
    tokens: &mut Cursor<'_>,
    begun: &Cursor<'_>,
    target: Option<ConflictTarget>,
) -> Result<Option<Conflict>, ParseError>
    ensures { Reads (spec.do_update (outer 64) (queries 64) begun.now target tokens.old) result tokens.new }
{
    let Some(target) = target else {
        return Err(ParseError::Syntax);
    };
    tokens.expect(Symbol::Update)?;
    let sets = assignments(alloc, tokens)?;
    let condition = next_clause(alloc, tokens, Symbol::Where)?;
    Ok(Some(Conflict::Update(
        begun.here(),
        target,
        Items::from_vec(sets.into_vec()),
        boxed(condition),
    )))
}

fn on_conflict(alloc: Global, tokens: &mut Cursor<'_>) -> Result<Option<Conflict>, ParseError>
    ensures { Reads (spec.on_conflict (outer 64) (queries 64) tokens.old tokens.old) result tokens.new }
{
    let begun = tokens.copy();
    tokens.expect(Symbol::On)?;
    expect_word(tokens, "conflict")?;
    let target = optional_target(alloc, tokens)?;
    expect_word(tokens, "do")?;
    if sees_word(tokens, "nothing") {
        do_nothing(tokens, &begun, target)
    } else {
        do_update(alloc, tokens, &begun, target)
    }
}

#[tactic(auto, unfolding(crate::specs::Words::conflict))]
pub fn conflict(alloc: Global, tokens: &mut Cursor<'_>) -> Result<Option<Conflict>, ParseError>
    ensures { Reads (spec.conflict (outer 64) (queries 64) tokens.old) result tokens.new }
{
    if tokens.sees(Symbol::On) {
        on_conflict(alloc, tokens)
    } else {
        Ok(None)
    }
}
