ghost use Rattle.std.specs.Prelude.{◌≡◌, ◌<◌, ◌≤◌, ◌++◌, [], ◌∷◌, true, false, length, codes, string_bytes, IfOk};
ghost use Rattle.sq_run.specs.Statements;
ghost use Rattle.sq_run.specs.Statements.{is, is_end, is_inner, are_inner, is_single, after, name_at, next, items_at, ended, single, one_statement, select};
ghost use Rattle.sq_syntax.specs.declared.token.TokenKind.TheVariants.{Word, Punct};
ghost use Rattle.sq_base.specs.Answers.{Finds};

use crate::names::{name_text, same_word};
use sq_base::{List, Name, NoForm, Place};
use sq_syntax::{Token, TokenKind};
use std::alloc::{AllocError, Global};

/// A name as it is looked up, and where it stands.
#[derive(Debug, Drop)]
pub struct Named {
    pub name: Name,
    pub place: Place,
}

/// A query for columns of one table.
#[derive(Debug, Drop)]
pub struct Select {
    pub outputs: List<Named>,
    pub table: Named,
}

#[tactic(auto, unfolding(crate::specs::Statements::same_kind))]
fn same_kind(a: TokenKind, b: TokenKind) -> bool
    ensures { result ≡ Statements.same_kind a b }
{
    a == b
}

/// Whether a token of this kind is this word in any letter case, or this mark.
fn is(token: &Token, kind: TokenKind, text: &str) -> bool
    ensures { result ≡ is kind text.now token.now }
{
    same_kind(token.kind, kind) && same_word(token.bytes.as_slice(), text.as_bytes())
}

/// Whether a token ends a statement.
pub fn is_end(token: &Token) -> bool
    ensures { result ≡ is_end token.now }
{
    is(token, TokenKind::Punct, ";")
}

/// The tokens after this word or mark.
#[tactic(auto, unfolding(crate::specs::Statements::after))]
fn after<'a>(tokens: &'a [Token], kind: TokenKind, text: &str) -> Result<&'a [Token], NoForm>
    ensures shorter { IfOk result (λ r. length r.now < length tokens.now) }
    ensures part { Finds (λ r. r.now) result (after kind text.now tokens.now) }
{
    match tokens.split_first() {
        Some((token, later)) if is(token, kind, text) => Ok(later),
        _ => Err(NoForm::Absent),
    }
}

/// The name at the head, and the tokens after it.
#[tactic(auto, unfolding(crate::specs::Statements::name_at))]
fn name_at<'a>(alloc: Global, tokens: &'a [Token]) -> Result<(Named, &'a [Token]), NoForm>
    ensures shorter { IfOk result (λ r. length r.1.now < length tokens.now) }
    ensures part { Finds (λ r. (r.0, r.1.now)) result (name_at tokens.now) }
{
    let Some((token, later)) = tokens.split_first() else {
        return Err(NoForm::Absent);
    };
    let named = Named {
        name: name_text(alloc, token.kind, token.bytes.as_slice())?,
        place: token.place,
    };
    Ok((named, later))
}

/// Whether more items follow, and the tokens after the comma or the closing word or mark.
#[tactic(auto, unfolding(crate::specs::Statements::next))]
fn next<'a>(
    tokens: &'a [Token],
    kind: TokenKind,
    close: &str,
) -> Result<(bool, &'a [Token]), NoForm>
    ensures shorter { IfOk result (λ r. length r.1.now < length tokens.now) }
    ensures part { Finds (λ r. (r.0, r.1.now)) result (next kind close.now tokens.now) }
{
    match after(tokens, TokenKind::Punct, ",") {
        Ok(later) => Ok((true, later)),
        Err(NoForm::Absent) => Ok((false, after(tokens, kind, close)?)),
        Err(NoForm::Memory) => Err(NoForm::Memory),
    }
}

/// Nothing follows.
#[tactic(auto, unfolding(crate::specs::Statements::ended))]
fn ended(tokens: &[Token]) -> Result<(), NoForm>
    ensures { Finds (λ r. r) result (ended tokens.now) }
{
    if tokens.is_empty() {
        Ok(())
    } else {
        Err(NoForm::Absent)
    }
}

/// The names up to the word FROM, and the tokens after it.
fn outputs_at<'a>(alloc: Global, tokens: &'a [Token]) -> Result<(List<Named>, &'a [Token]), NoForm>
    ensures { Finds (λ r. (r.0, r.1.now)) result (items_at name_at Word (codes "from") tokens.now) }
{
    let mut outputs = List::new(alloc);
    let mut rest = tokens;
    loop {
        let (output, later) = name_at(alloc, rest)?;
        outputs.push(output)?;
        let (more, later) = next(later, TokenKind::Word, "from")?;
        rest = later;
        if !more {
            return Ok((outputs, rest));
        }
    }
}

/// Whether a token stands inside a statement: it neither ends one nor names a query.
fn is_inner(token: &Token) -> bool
    ensures { result ≡ is_inner token.now }
{
    token.kind != TokenKind::Note && !is_end(token)
}

fn are_inner(tokens: &[Token]) -> bool
    ensures { result ≡ are_inner tokens.now }
{
    tokens.iter().all(is_inner)
}

/// Whether tokens are those of a single statement.
fn is_single(tokens: &[Token]) -> bool
    ensures { result ≡ is_single tokens.now }
{
    !tokens.is_empty() && are_inner(tokens)
}

/// Tokens, where they are those of a single statement.
fn single(tokens: &[Token]) -> Result<&[Token], NoForm>
    ensures { Finds (λ r. r.now) result (single tokens.now) }
{
    if is_single(tokens) {
        Ok(tokens)
    } else {
        Err(NoForm::Absent)
    }
}

/// The one statement of a file, without the semicolon that ends it.
#[tactic(auto, unfolding(crate::specs::Statements::one_statement))]
pub fn one_statement(tokens: &[Token]) -> Result<&[Token], NoForm>
    ensures { Finds (λ r. r.now) result (one_statement tokens.now) }
{
    let (statement, end) = tokens.split_at(tokens.len().saturating_sub(1));
    after(end, TokenKind::Punct, ";")?;
    single(statement)
}

/// Reads SELECT with its names and its table.
#[tactic(auto, unfolding(crate::specs::Statements::select))]
pub fn read_select(alloc: Global, tokens: &[Token]) -> Result<Select, NoForm>
    ensures { Finds (λ r. r) result (select tokens.now) }
{
    let tokens = after(tokens, TokenKind::Word, "select")?;
    let (outputs, tokens) = outputs_at(alloc, tokens)?;
    let (table, tokens) = name_at(alloc, tokens)?;
    ended(tokens)?;
    Ok(Select { outputs, table })
}
