//! References to other tables (PostgreSQL manual, CREATE TABLE).

ghost use Rattle.std.specs.Prelude.{◌≡◌, None, codes};
ghost use Rattle.sq_syntax.specs.declared.symbol.Symbol.TheVariants as s;
ghost use Rattle.sq_grammar.specs.Reading.{choose, many, pure, sees};
ghost use Rattle.sq_grammar.specs.Schemas as spec;
ghost use Rattle.sq_grammar.specs.Statements.{sees_word};
ghost use Rattle.sq_lexemes.specs.Reads.{Reads};

use sq_base::{List, Name};
use sq_lexemes::cursor::Cursor;
use sq_lexemes::error::ParseError;
use sq_lexemes::name_lists::bracketed_names;
use sq_lexemes::names::qualified_name;
use sq_lexemes::texts::field;
use sq_syntax::{ConstraintForm, Reaction, Reference, ReferenceAction, ReferenceEvent, Symbol};
use sq_words::{expect_word, sees_word};
use std::alloc::Global;

#[tactic(auto, unfolding(crate::specs::Words::event))]
fn event(tokens: &mut Cursor<'_>) -> Result<ReferenceEvent, ParseError>
    ensures { Reads (spec.event tokens.old) result tokens.new }
{
    if tokens.sees(Symbol::Update) {
        tokens.expect(Symbol::Update)?;
        Ok(ReferenceEvent::Update)
    } else {
        expect_word(tokens, "delete")?;
        Ok(ReferenceEvent::Delete)
    }
}

fn set_action(tokens: &mut Cursor<'_>) -> Result<ReferenceAction, ParseError>
    ensures { Reads (spec.set_action tokens.old) result tokens.new }
{
    expect_word(tokens, "set")?;
    if tokens.sees(Symbol::Null) {
        tokens.expect(Symbol::Null)?;
        Ok(ReferenceAction::SetNull)
    } else {
        expect_word(tokens, "default")?;
        Ok(ReferenceAction::SetDefault)
    }
}

#[tactic(auto, unfolding(crate::specs::Words::reference_action_words))]
fn action(tokens: &mut Cursor<'_>) -> Result<ReferenceAction, ParseError>
    ensures { Reads (spec.reference_action_words tokens.old) result tokens.new }
{
    if sees_word(tokens, "cascade") {
        expect_word(tokens, "cascade")?;
        Ok(ReferenceAction::Cascade)
    } else if sees_word(tokens, "restrict") {
        expect_word(tokens, "restrict")?;
        Ok(ReferenceAction::Restrict)
    } else if tokens.sees(Symbol::No) {
        tokens.expect(Symbol::No)?;
        expect_word(tokens, "action")?;
        Ok(ReferenceAction::NoAction)
    } else {
        set_action(tokens)
    }
}

#[tactic(auto, unfolding(crate::specs::Words::reaction))]
fn reaction(tokens: &mut Cursor<'_>) -> Result<Reaction, ParseError>
    ensures { Reads (spec.reaction tokens.old) result tokens.new }
{
    tokens.expect(Symbol::On)?;
    let event = event(tokens)?;
    let action = action(tokens)?;
    Ok(Reaction { event, action })
}

fn reactions(alloc: Global, tokens: &mut Cursor<'_>) -> Result<List<Reaction>, ParseError>
    ensures { Reads (many (sees s.On) spec.reaction tokens.old) result tokens.new }
{
    let mut found = List::new(alloc);
    for _turn in 0..tokens.left() {
        if !tokens.sees(Symbol::On) {
            return Ok(found);
        }
        let next = reaction(tokens)?;
        found.push(next)?;
    }
    Ok(found)
}

/// The word behind MATCH.
fn matching(alloc: Global, tokens: &mut Cursor<'_>) -> Result<Option<Name>, ParseError>
    ensures { Reads (choose (sees_word (codes "match")) spec.some_match (pure None) tokens.old) result tokens.new }
{
    if !sees_word(tokens, "match") {
        return Ok(None);
    }
    expect_word(tokens, "match")?;
    Ok(Some(field(alloc, tokens)?))
}

#[tactic(auto, unfolding(crate::specs::Words::reference))]
pub fn reference(alloc: Global, tokens: &mut Cursor<'_>) -> Result<ConstraintForm, ParseError>
    ensures { Reads (spec.reference tokens.old) result tokens.new }
{
    expect_word(tokens, "references")?;
    let table = qualified_name(alloc, tokens)?;
    let columns = bracketed_names(alloc, tokens)?;
    let matching = matching(alloc, tokens)?;
    let reactions = reactions(alloc, tokens)?;
    Ok(ConstraintForm::References(Reference {
        table,
        columns,
        matching,
        reactions,
    }))
}
