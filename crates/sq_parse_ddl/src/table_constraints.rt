//! Constraints of tables (PostgreSQL manual, CREATE TABLE).

ghost use Rattle.std.specs.Prelude.{◌≡◌};
ghost use Rattle.sq_syntax.specs.Schemas.{opens_exclusion};
ghost use Rattle.sq_grammar.specs.Schemas as spec;
ghost use Rattle.sq_lexemes.specs.Reads.{Reads};

use crate::constraints::constraint_name;
use crate::runs::{Stop, run, some_run};
use sq_lexemes::cursor::{Cursor, split};
use sq_lexemes::error::ParseError;
use sq_lexemes::name_lists::in_brackets;
use sq_syntax::{Lexeme, Reading, Symbol, TableConstraint, TableConstraintForm};
use sq_words::{expect_word, is, sees_word};
use std::alloc::Global;

fn starts_table_constraint(reading: &Reading) -> bool
    ensures { result ≡ spec.starts_table_constraint reading.now }
{
    is("constraint", reading)
        || is("primary", reading)
        || is("unique", reading)
        || is("check", reading)
        || is("foreign", reading)
}

fn opens_exclusion(reading: &Reading) -> bool
    ensures { result ≡ opens_exclusion reading.now }
{
    matches!(reading, Reading::Symbol(Symbol::Using | Symbol::Open))
}

/// EXCLUDE is a column's name where neither USING nor a bracket follows.
fn begins_exclusion(tokens: &[Lexeme]) -> bool
    ensures { result ≡ spec.begins_exclusion tokens.now }
{
    match tokens {
        [first, second, ..] => is("exclude", &first.reading) && opens_exclusion(&second.reading),
        _ => false,
    }
}

pub fn begins_table_constraint(tokens: &[Lexeme]) -> bool
    ensures { result ≡ spec.begins_table_constraint tokens.now }
{
    match split(tokens) {
        Some((lexeme, _)) => {
            starts_table_constraint(&lexeme.reading) || begins_exclusion(tokens)
        }
        None => false,
    }
}

fn primary_key(alloc: Global, tokens: &mut Cursor<'_>) -> Result<TableConstraintForm, ParseError>
    ensures { Reads (spec.primary_key tokens.old) result tokens.new }
{
    expect_word(tokens, "primary")?;
    tokens.expect(Symbol::Key)?;
    let names = in_brackets(alloc, tokens)?;
    let run = run(alloc, tokens, Stop::Comma)?;
    Ok(TableConstraintForm::PrimaryKey(names, run))
}

fn exclusion(alloc: Global, tokens: &mut Cursor<'_>) -> Result<TableConstraintForm, ParseError>
    ensures { Reads (spec.exclusion tokens.old) result tokens.new }
{
    if !begins_exclusion(tokens.rest()) {
        return Err(ParseError::Syntax);
    }
    expect_word(tokens, "exclude")?;
    Ok(TableConstraintForm::Exclude(some_run(alloc, tokens, Stop::Comma)?))
}

#[tactic(auto, unfolding(crate::specs::Words::table_constraint_form))]
fn table_constraint_form(
    alloc: Global,
    tokens: &mut Cursor<'_>,
) -> Result<TableConstraintForm, ParseError>
    ensures { Reads (spec.table_constraint_form tokens.old) result tokens.new }
{
    if sees_word(tokens, "primary") {
        primary_key(alloc, tokens)
    } else if sees_word(tokens, "unique") {
        expect_word(tokens, "unique")?;
        Ok(TableConstraintForm::Unique(some_run(alloc, tokens, Stop::Comma)?))
    } else if sees_word(tokens, "check") {
        expect_word(tokens, "check")?;
        Ok(TableConstraintForm::Check(some_run(alloc, tokens, Stop::Comma)?))
    } else if sees_word(tokens, "foreign") {
        expect_word(tokens, "foreign")?;
        tokens.expect(Symbol::Key)?;
        Ok(TableConstraintForm::ForeignKey(some_run(alloc, tokens, Stop::Comma)?))
    } else {
        exclusion(alloc, tokens)
    }
}

#[tactic(auto, unfolding(crate::specs::Words::table_constraint))]
pub fn table_constraint(
    alloc: Global,
    tokens: &mut Cursor<'_>,
) -> Result<TableConstraint, ParseError>
    ensures { Reads (spec.table_constraint tokens.old) result tokens.new }
{
    let name = constraint_name(alloc, tokens)?;
    let form = table_constraint_form(alloc, tokens)?;
    Ok(TableConstraint { name, form })
}
