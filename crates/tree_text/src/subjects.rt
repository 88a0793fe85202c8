//! What is tried: expressions, queries, changes of data and schema statements.

use crate::brackets::say_tree;
use crate::parts::Part;
use crate::places::places;
use crate::schemas::Shown;
use crate::statements::{all_parts, in_statement, say_changed};
use crate::tokens::tokens_of;
use crate::words::{refused, say};
use case_files::Subject;
use sq_base::Fault;
use sq_parse_ddl::ddl;
use sq_parse_expr::{expression, query};
use sq_parse_stmt::statement;
use sq_syntax::{Statement, Token};
use std::alloc::{AllocError, Global};

/// The tree of an expression, fully bracketed, or the number and the place of its refusal.
#[derive(Drop)]
pub struct Expressions;

/// The tree of a query, fully bracketed. In front of set operations stands how many operands each
/// chain of INTERSECT has.
#[derive(Drop)]
pub struct Queries;

/// What a statement changes, and its tree.
#[derive(Drop)]
pub struct Changes;

/// The places that the tree of a statement keeps.
#[derive(Drop)]
pub struct Places;

/// A schema statement as a text: a short one, or a full one with each field and its places.
#[derive(Clone, Copy)]
pub enum Schemas {
    Short,
    Full,
}

/// The answer for a refusal.
pub fn no_tree(alloc: Global, fault: &Fault) -> Result<String, AllocError> {
    refused(alloc, fault, "", " at ")
}

fn tree(alloc: Global, tokens: &[Token], whole: Part<'_>) -> Result<String, AllocError> {
    let mut text = String::new(alloc);
    let parts = all_parts(alloc, [whole].as_slice())?;
    say_tree(alloc, &mut text, tokens, parts.as_slice())?;
    Ok(text)
}

impl Subject for Expressions {
    fn answer(&mut self, alloc: Global, input: &str) -> Result<String, AllocError> {
        let found = match tokens_of(alloc, input.as_bytes()) {
            Ok(found) => found,
            Err(fault) => return no_tree(alloc, &fault),
        };
        match expression(alloc, found.as_slice()) {
            Ok(whole) => tree(alloc, found.as_slice(), Part::Expression(whole.part())),
            Err(fault) => no_tree(alloc, &fault),
        }
    }
}

impl Subject for Queries {
    fn answer(&mut self, alloc: Global, input: &str) -> Result<String, AllocError> {
        let found = match tokens_of(alloc, input.as_bytes()) {
            Ok(found) => found,
            Err(fault) => return no_tree(alloc, &fault),
        };
        match query(alloc, found.as_slice()) {
            Ok(whole) => tree(alloc, found.as_slice(), Part::Query(whole.part())),
            Err(fault) => no_tree(alloc, &fault),
        }
    }
}

fn change(alloc: Global, tokens: &[Token], whole: &Statement) -> Result<String, AllocError> {
    let mut text = String::new(alloc);
    say_changed(&mut text, whole)?;
    say(&mut text, "|")?;
    let mut found = Vec::new(alloc);
    in_statement(whole, &mut found)?;
    let parts = all_parts(alloc, found.as_slice())?;
    say_tree(alloc, &mut text, tokens, parts.as_slice())?;
    Ok(text)
}

fn placed(alloc: Global, tokens: &[Token], whole: &Statement) -> Result<String, AllocError> {
    let mut found = Vec::new(alloc);
    in_statement(whole, &mut found)?;
    let parts = all_parts(alloc, found.as_slice())?;
    places(alloc, tokens, parts.as_slice())
}

impl Subject for Changes {
    fn answer(&mut self, alloc: Global, input: &str) -> Result<String, AllocError> {
        let found = match tokens_of(alloc, input.as_bytes()) {
            Ok(found) => found,
            Err(fault) => return no_tree(alloc, &fault),
        };
        match statement(alloc, found.as_slice()) {
            Ok(whole) => change(alloc, found.as_slice(), whole.part()),
            Err(fault) => no_tree(alloc, &fault),
        }
    }
}

impl Subject for Places {
    fn answer(&mut self, alloc: Global, input: &str) -> Result<String, AllocError> {
        let found = match tokens_of(alloc, input.as_bytes()) {
            Ok(found) => found,
            Err(fault) => return no_tree(alloc, &fault),
        };
        match statement(alloc, found.as_slice()) {
            Ok(whole) => placed(alloc, found.as_slice(), whole.part()),
            Err(fault) => no_tree(alloc, &fault),
        }
    }
}

/// The schema statement of tokens as a text, or that it is passed over, or its refusal.
pub fn schema(alloc: Global, tokens: &[Token], is_full: bool) -> Result<String, AllocError> {
    match ddl(alloc, tokens) {
        Ok(Some(whole)) => {
            let mut shown = Shown::new(alloc, is_full);
            shown.schema(whole.get())?;
            Ok(shown.text)
        }
        Ok(None) => String::from_str(alloc, "passed over"),
        Err(fault) => no_tree(alloc, &fault),
    }
}

impl Subject for Schemas {
    fn answer(&mut self, alloc: Global, input: &str) -> Result<String, AllocError> {
        match tokens_of(alloc, input.as_bytes()) {
            Ok(found) => schema(alloc, found.as_slice(), matches!(self, Schemas::Full)),
            Err(fault) => no_tree(alloc, &fault),
        }
    }
}
