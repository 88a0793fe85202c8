ghost use Rattle.std.specs.Prelude.{◌≡◌, ◌++◌, IfOk, OnOk};
ghost use Rattle.sq_lexer.specs.Printed.{gap_text, spaced, printed};
ghost use Rattle.sq_base.specs.Answers.{Gives as Answers};
ghost use Rattle.sq_run.specs.Parsed.{statement_check};
ghost use Rattle.sq_run.specs.Query.{behind, before_end, query_name, noted_name, annotated, named_statement, query_in};
ghost use Rattle.sq_base.specs.Answers.{Finds};

use crate::names::{ascii, is_identifier};
use crate::statements::{Select, one_statement, read_select};
use sq_base::{Fault, List, Name, NoForm};
use sq_parse_stmt::statement;
use sq_syntax::{Gap, Token, TokenKind};
use std::alloc::{AllocError, Global};

/// A query with its name, what its statement asks for, and its printed text.
#[derive(Debug, Drop)]
pub struct Query {
    pub name: Name,
    pub select: Select,
    pub text: List<u8>,
}

/// What stands behind the front of a text.
fn behind<'a>(text: &'a [u8], front: &[u8]) -> Result<&'a [u8], NoForm>
    ensures { Finds (λ r. r.now) result (behind front.now text.now) }
{
    text.strip_prefix(front).ok_or(NoForm::Absent)
}

/// What stands before the end of a text.
fn before_end<'a>(text: &'a [u8], end: &[u8]) -> Result<&'a [u8], NoForm>
    ensures { Finds (λ r. r.now) result (before_end end.now text.now) }
{
    text.strip_suffix(end).ok_or(NoForm::Absent)
}

/// A query's name.
#[tactic(auto, unfolding(crate::specs::Query::query_name))]
fn query_name(alloc: Global, text: &[u8]) -> Result<Name, NoForm>
    ensures { Finds (λ r. r) result (query_name text.now) }
{
    if is_identifier(text) {
        Ok(Name::from_string(ascii(alloc, text)?))
    } else {
        Err(NoForm::Absent)
    }
}

/// The name in the line `-- name: NAME :many` (sqlc documentation, query annotations).
#[tactic(auto, unfolding(crate::specs::Query::noted_name))]
fn noted_name(alloc: Global, bytes: &[u8]) -> Result<Name, NoForm>
    ensures { Finds (λ r. r) result (noted_name bytes.now) }
{
    let rest = behind(bytes, b"-- name: ")?;
    query_name(alloc, before_end(rest, b" :many")?)
}

/// The name of the annotated query, and the tokens behind the annotation.
#[tactic(auto, unfolding(crate::specs::Query::annotated))]
fn annotated<'a>(alloc: Global, tokens: &'a [Token]) -> Result<(Name, &'a [Token]), NoForm>
    ensures { Finds (λ r. (r.0, r.1.now)) result (annotated tokens.now) }
{
    match tokens.split_first() {
        Some((token, later)) if token.kind == TokenKind::Note => Ok((
            noted_name(alloc, token.bytes.as_slice())?,
            later,
        )),
        _ => Err(NoForm::Absent),
    }
}

/// The name of a file's one query, and its statement, which stands directly behind the annotation.
#[tactic(auto, unfolding(crate::specs::Query::named_statement))]
pub fn named_statement<'a>(
    alloc: Global,
    tokens: &'a [Token],
) -> Result<(Name, &'a [Token]), NoForm>
    ensures { Finds (λ r. (r.0, r.1.now)) result (named_statement tokens.now) }
{
    let (name, later) = annotated(alloc, tokens)?;
    Ok((name, one_statement(later)?))
}

/// Reads a statement, and drops its tree, which nothing uses yet.
///
/// Refused at the first token: [4] more than 16,384 tokens; [5] brackets and CASE that nest more
/// than 64 deep; [6] tokens that spell no statement; [7] a tree that is higher than 256.
#[tactic(auto, using(crate::proofs::ReadStatement::reads))]
pub fn check_statement(alloc: Global, tokens: &[Token]) -> Result<(), Fault>
    ensures { Answers (statement_check tokens.now) result }
{
    match statement(alloc, tokens) {
        Ok(_) => Ok(()),
        Err(fault) => Err(fault),
    }
}

/// How a gap is printed.
fn gap_text(gap: Gap) -> &'static str
    ensures { result.now ≡ gap_text gap }
{
    match gap {
        Gap::Nothing => "",
        Gap::Blank => " ",
        Gap::Line => "\n",
    }
}

/// Adds a token and the gap before it.
fn add_spaced(text: &mut List<u8>, token: &Token) -> Result<(), AllocError>
    ensures { OnOk result (text.new ≡ text.old ++ gap_text token.now.gap ++ token.now.bytes) }
{
    text.extend_from_slice(gap_text(token.gap).as_bytes())?;
    text.extend_from_slice(token.bytes.as_slice())
}

/// Adds tokens with the gaps before them.
fn add_all_spaced(text: &mut List<u8>, tokens: &[Token]) -> Result<(), AllocError>
    ensures { OnOk result (text.new ≡ text.old ++ spaced tokens.now) }
{
    for token in tokens {
        add_spaced(text, token)?;
    }
    Ok(())
}

/// Tokens with the gaps between them.
fn printed(alloc: Global, tokens: &[Token]) -> Result<List<u8>, AllocError>
    ensures { IfOk result (λ text. text ≡ printed tokens.now) }
{
    let mut text = List::new(alloc);
    if let Some((first, rest)) = tokens.split_first() {
        text.extend_from_slice(first.bytes.as_slice())?;
        add_all_spaced(&mut text, rest)?;
    }
    Ok(text)
}

/// Reads the query with this name and statement.
#[tactic(auto, unfolding(crate::specs::Query::query_in))]
pub fn read_query(alloc: Global, name: Name, statement: &[Token]) -> Result<Query, NoForm>
    ensures { Finds (λ r. r) result (query_in name statement.now) }
{
    let select = read_select(alloc, statement)?;
    let text = printed(alloc, statement)?;
    Ok(Query { name, select, text })
}
