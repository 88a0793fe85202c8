//! Constraints of columns and domains (PostgreSQL manual, CREATE TABLE and CREATE DOMAIN).

ghost use Rattle.std.specs.Prelude.{◌≡◌, None};
ghost use Rattle.sq_syntax.specs.declared.symbol.Symbol.TheVariants as s;
ghost use Rattle.sq_grammar.specs.Reading.{choose, many, pure, sees};
ghost use Rattle.sq_grammar.specs.Schemas as spec;
ghost use Rattle.sq_lexemes.specs.Reads.{Reads};
ghost use Rattle.sq_parse_ddl.specs.Parts as parts;

use crate::references::reference;
use crate::runs::{default_run, ends_default, within};
use sq_base::List;
use sq_lexemes::cursor::{Cursor, split};
use sq_lexemes::error::ParseError;
use sq_lexemes::names::{name, qualified_name};
use sq_lexemes::texts::field;
use sq_syntax::{Constraint, ConstraintForm, Generation, Identifier, Reading, Symbol};
use sq_words::{expect_word, is, sees_word};
use std::alloc::Global;

/// The name behind CONSTRAINT.
#[tactic(auto, unfolding(crate::specs::Words::constraint_name))]
pub fn constraint_name(
    alloc: Global,
    tokens: &mut Cursor<'_>,
) -> Result<Option<Identifier>, ParseError>
    ensures { Reads (spec.constraint_name tokens.old) result tokens.new }
{
    if !sees_word(tokens, "constraint") {
        return Ok(None);
    }
    expect_word(tokens, "constraint")?;
    Ok(Some(name(alloc, tokens)?))
}

/// The options of an identity column.
fn options(alloc: Global, tokens: &mut Cursor<'_>) -> Result<Option<List<Reading>>, ParseError>
    ensures { Reads (choose (sees s.Open) spec.some_within (pure None) tokens.old) result tokens.new }
{
    if !tokens.sees(Symbol::Open) {
        return Ok(None);
    }
    Ok(Some(within(alloc, tokens)?))
}

fn identity(
    alloc: Global,
    tokens: &mut Cursor<'_>,
    generation: Generation,
) -> Result<ConstraintForm, ParseError>
    ensures { Reads (spec.identity generation tokens.old) result tokens.new }
{
    expect_word(tokens, "identity")?;
    let options = options(alloc, tokens)?;
    Ok(ConstraintForm::Identity(generation, options))
}

fn stored(alloc: Global, tokens: &mut Cursor<'_>) -> Result<ConstraintForm, ParseError>
    ensures { Reads (spec.stored tokens.old) result tokens.new }
{
    let run = within(alloc, tokens)?;
    expect_word(tokens, "stored")?;
    Ok(ConstraintForm::Stored(run))
}

#[tactic(auto, unfolding(crate::specs::Words::generated))]
fn generated(alloc: Global, tokens: &mut Cursor<'_>) -> Result<ConstraintForm, ParseError>
    ensures { Reads (spec.generated tokens.old) result tokens.new }
{
    expect_word(tokens, "generated")?;
    if tokens.sees(Symbol::By) {
        tokens.expect(Symbol::By)?;
        expect_word(tokens, "default")?;
        tokens.expect(Symbol::As)?;
        return identity(alloc, tokens, Generation::ByDefault);
    }
    expect_word(tokens, "always")?;
    tokens.expect(Symbol::As)?;
    if sees_word(tokens, "identity") {
        identity(alloc, tokens, Generation::Always)
    } else {
        stored(alloc, tokens)
    }
}

/// NO INHERIT.
fn no_inherit(tokens: &mut Cursor<'_>) -> Result<bool, ParseError>
    ensures { Reads (parts.no_inherit tokens.old) result tokens.new }
{
    if !tokens.sees(Symbol::No) {
        return Ok(false);
    }
    tokens.expect(Symbol::No)?;
    expect_word(tokens, "inherit")?;
    Ok(true)
}

#[tactic(auto, unfolding(crate::specs::Words::check))]
fn check(alloc: Global, tokens: &mut Cursor<'_>) -> Result<ConstraintForm, ParseError>
    ensures { Reads (spec.check tokens.old) result tokens.new }
{
    expect_word(tokens, "check")?;
    let run = within(alloc, tokens)?;
    let alone = no_inherit(tokens)?;
    Ok(ConstraintForm::Check(run, alone))
}

fn collated(alloc: Global, tokens: &mut Cursor<'_>) -> Result<ConstraintForm, ParseError>
    ensures { Reads (spec.collated tokens.old) result tokens.new }
{
    tokens.expect(Symbol::Collate)?;
    Ok(ConstraintForm::Collate(qualified_name(alloc, tokens)?))
}

fn by_default(alloc: Global, tokens: &mut Cursor<'_>) -> Result<ConstraintForm, ParseError>
    ensures { Reads (spec.by_default tokens.old) result tokens.new }
{
    expect_word(tokens, "default")?;
    Ok(ConstraintForm::Default(default_run(alloc, tokens)?))
}

fn initially(alloc: Global, tokens: &mut Cursor<'_>) -> Result<ConstraintForm, ParseError>
    ensures { Reads (spec.initially tokens.old) result tokens.new }
{
    expect_word(tokens, "initially")?;
    Ok(ConstraintForm::Initially(field(alloc, tokens)?))
}

fn negated(tokens: &mut Cursor<'_>) -> Result<ConstraintForm, ParseError>
    ensures { Reads (spec.negated tokens.old) result tokens.new }
{
    tokens.expect(Symbol::Not)?;
    if tokens.sees(Symbol::Null) {
        tokens.expect(Symbol::Null)?;
        Ok(ConstraintForm::NotNull)
    } else {
        expect_word(tokens, "deferrable")?;
        Ok(ConstraintForm::NotDeferrable)
    }
}

#[tactic(auto, unfolding(crate::specs::Words::constraint_form))]
fn constraint_form(alloc: Global, tokens: &mut Cursor<'_>) -> Result<ConstraintForm, ParseError>
    ensures { Reads (spec.constraint_form tokens.old) result tokens.new }
{
    if tokens.sees(Symbol::Not) {
        negated(tokens)
    } else if tokens.sees(Symbol::Null) {
        tokens.expect(Symbol::Null)?;
        Ok(ConstraintForm::Null)
    } else if sees_word(tokens, "primary") {
        expect_word(tokens, "primary")?;
        tokens.expect(Symbol::Key)?;
        Ok(ConstraintForm::PrimaryKey)
    } else if sees_word(tokens, "unique") {
        expect_word(tokens, "unique")?;
        Ok(ConstraintForm::Unique)
    } else if tokens.sees(Symbol::Collate) {
        collated(alloc, tokens)
    } else if sees_word(tokens, "default") {
        by_default(alloc, tokens)
    } else if sees_word(tokens, "check") {
        check(alloc, tokens)
    } else if sees_word(tokens, "references") {
        reference(alloc, tokens)
    } else if sees_word(tokens, "generated") {
        generated(alloc, tokens)
    } else if sees_word(tokens, "deferrable") {
        expect_word(tokens, "deferrable")?;
        Ok(ConstraintForm::Deferrable)
    } else {
        initially(alloc, tokens)
    }
}

#[tactic(auto, unfolding(crate::specs::Words::constraint))]
fn constraint(alloc: Global, tokens: &mut Cursor<'_>) -> Result<Constraint, ParseError>
    ensures { Reads (spec.constraint tokens.old) result tokens.new }
{
    let name = constraint_name(alloc, tokens)?;
    let form = constraint_form(alloc, tokens)?;
    Ok(Constraint { name, form })
}

fn starts_constraint(reading: &Reading) -> bool
    ensures { result ≡ spec.starts_constraint reading.now }
{
    ends_default(reading) && !is(",", reading)
}

fn begins_constraint(tokens: &Cursor<'_>) -> bool
    ensures { result ≡ spec.begins_constraint tokens.now.tokens }
{
    match split(tokens.rest()) {
        Some((lexeme, _)) => starts_constraint(&lexeme.reading),
        None => false,
    }
}

fn more_constraints(alloc: Global, tokens: &mut Cursor<'_>) -> Result<List<Constraint>, ParseError>
    ensures { Reads (many (λ now. spec.begins_constraint now.tokens) spec.constraint tokens.old) result tokens.new }
{
    let mut found = List::new(alloc);
    for _turn in 0..tokens.left() {
        if !begins_constraint(tokens) {
            return Ok(found);
        }
        let next = constraint(alloc, tokens)?;
        found.push(next)?;
    }
    Ok(found)
}

#[tactic(auto, unfolding(crate::specs::Words::constraints))]
pub fn constraints(alloc: Global, tokens: &mut Cursor<'_>) -> Result<List<Constraint>, ParseError>
    ensures { Reads (spec.constraints tokens.old) result tokens.new }
{
    more_constraints(alloc, tokens)
}
