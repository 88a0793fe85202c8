//! Statements: schema statements, queries and changes of data.

ghost use Rattle.std.specs.Prelude.{◌≡◌, IfOk};
ghost use Rattle.sq_syntax.specs.Statements as syntax;
ghost use Rattle.sq_syntax.specs.Statements.{IsStatement};
ghost use Rattle.sq_syntax.specs.declared.statement.Statement.TheVariants as statement;
ghost use Rattle.sq_lexemes.specs.Answers.{Answers};
ghost use Rattle.sq_parse_ddl.specs.Answers.{AnswersDdl};

use sq_base::{Fault, List};
use sq_parts::{HeldExpression, HeldFrom, HeldQuery};
use sq_statements::HeldStatement;
use sq_syntax::{
    Assignment, Conflict, Ddl, Identifier, InsertSource, Node, Output, QualifiedName, TableAlias,
    Token, With,
};
use sqlite_items::Boxed;
use std::alloc::{AllocError, Global};

pub fn ddl(alloc: Global, tokens: &[Token]) -> Result<Option<Boxed<Ddl>>, Fault>
    ensures { AnswersDdl tokens.now result }
{
    sq_parse_ddl::ddl(alloc, tokens)
}

pub fn statement(alloc: Global, tokens: &[Token]) -> Result<HeldStatement, Fault>
    ensures { Answers IsStatement syntax.statement_height tokens.now result }
{
    sq_parse_stmt::statement(alloc, tokens)
}

pub fn insert(
    alloc: Global,
    mark: Node<()>,
    with: List<With<HeldQuery>>,
    table: QualifiedName,
    alias: Option<Identifier>,
    columns: List<Identifier>,
    source: InsertSource,
    conflict: Option<Conflict>,
    shown: List<Node<Output<HeldExpression>>>,
) -> Result<HeldStatement, AllocError>
    ensures { IfOk result (λ made. made ≡ statement.Insert (record { place = mark.place; first = mark.first; last = mark.last; with = with; table = table; alias = alias; columns = columns; source = source; conflict = conflict; returning = shown })) }
{
    HeldStatement::insert(
        alloc, mark, with, table, alias, columns, source, conflict, shown,
    )
}

pub fn update(
    alloc: Global,
    mark: Node<()>,
    with: List<With<HeldQuery>>,
    table: QualifiedName,
    alias: Option<TableAlias>,
    sets: List<Assignment>,
    from: List<HeldFrom>,
    condition: Option<HeldExpression>,
    shown: List<Node<Output<HeldExpression>>>,
) -> Result<HeldStatement, AllocError>
    ensures { IfOk result (λ made. made ≡ statement.Update (record { place = mark.place; first = mark.first; last = mark.last; with = with; table = table; alias = alias; sets = sets; from = from; condition = condition; returning = shown })) }
{
    HeldStatement::update(
        alloc, mark, with, table, alias, sets, from, condition, shown,
    )
}

pub fn delete(
    alloc: Global,
    mark: Node<()>,
    with: List<With<HeldQuery>>,
    table: QualifiedName,
    alias: Option<TableAlias>,
    sources: List<HeldFrom>,
    condition: Option<HeldExpression>,
    shown: List<Node<Output<HeldExpression>>>,
) -> Result<HeldStatement, AllocError>
    ensures { IfOk result (λ made. made ≡ statement.Delete (record { place = mark.place; first = mark.first; last = mark.last; with = with; table = table; alias = alias; using = sources; condition = condition; returning = shown })) }
{
    HeldStatement::delete(alloc, mark, with, table, alias, sources, condition, shown)
}
