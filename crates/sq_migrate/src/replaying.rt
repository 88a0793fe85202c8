//! The replay of schema statements.

ghost use Rattle.std.specs.Prelude.{◌≡◌, IfOk, Ok, Option, Result};
ghost use Rattle.sq_base.specs.declared.refusal.Refusal.{Refusal as Refused};
ghost use Rattle.sq_catalog.specs.declared.change.Change.{Change as Asked};
ghost use Rattle.sq_base.specs.Answers.{Gives};
ghost use Rattle.sq_migrate.specs.Refused.{Lists};
ghost use Rattle.sq_migrate.specs.Replay as spec;
ghost use Rattle.sq_migrate.specs.Replay.{state};

use crate::asking::{
    domain_asked, drop_asked, enum_asked, schema_asked, schema_drop_asked, table_asked,
};
use crate::columns::text;
use crate::tables::{acting, action_asked, move_asked, rename_asked, type_change_asked};
use sq_base::{Code, Fault, List, Place, Refusal};
use sq_catalog::{Action, Catalogue, Cause, Change, ChangeFault};
use sq_syntax::{AlterTable, Ddl, DropNamed, DropSchema, TableAction, TableChange};
use std::alloc::{AllocError, Global};

// The refusal of a change, at the place of its statement.
fn refusal_of(alloc: Global, place: Place, cause: Cause) -> Result<Refusal, AllocError>
    ensures { IfOk result (λ refusal. refusal ≡ spec.refusal_of place cause) }
{
    let (code, name) = match cause {
        Cause::Exists(name) => (Code::Exists, name),
        Cause::Missing(name) => (Code::Missing, name),
        Cause::InUse(name) => (Code::InUse, name),
        Cause::InPrimaryKey(name) => (Code::InPrimaryKey, name),
        Cause::TooManyColumns(name) => (Code::TooManyColumns, name),
    };
    Refusal::naming(alloc, code, place, name.as_str())
}

// Makes a change, or lists its refusal.
fn make(
    alloc: Global,
    catalogue: &mut Catalogue,
    refusals: &mut List<Refusal>,
    place: Place,
    change: Change,
) -> Result<(), AllocError>
    ensures { IfOk result (λ done. state catalogue.new refusals.new ≡ spec.done place (state catalogue.old refusals.old) (Ok change)) }
{
    match catalogue.apply(change) {
        Ok(()) => Ok(()),
        Err(ChangeFault::Refused(cause)) => {
            let refusal = refusal_of(alloc, place, cause)?;
            refusals.push(refusal)
        }
        Err(ChangeFault::Memory) => Err(AllocError),
    }
}

// Lists what is refused before any change.
fn refuse(refusals: &mut List<Refusal>, fault: Fault) -> Result<(), AllocError>
    ensures { Lists fault refusals.old refusals.new result }
{
    match fault {
        Fault::Refused(refusal) => refusals.push(refusal),
        Fault::Memory => Err(AllocError),
    }
}

// Does what is asked for, or lists its refusal.
fn do_asked(
    alloc: Global,
    catalogue: &mut Catalogue,
    refusals: &mut List<Refusal>,
    place: Place,
    asked: Result<Change, Fault>,
) -> Result<(), AllocError>
    ensures { (meant : Result Asked Refused) → Gives meant asked → IfOk result (λ done. state catalogue.new refusals.new ≡ spec.done place (state catalogue.old refusals.old) meant) }
{
    match asked {
        Ok(change) => make(alloc, catalogue, refusals, place, change),
        Err(fault) => refuse(refusals, fault),
    }
}

// Does what is asked for, if it is anything, or lists its refusal.
fn do_if_any(
    alloc: Global,
    catalogue: &mut Catalogue,
    refusals: &mut List<Refusal>,
    place: Place,
    asked: Result<Option<Change>, Fault>,
) -> Result<(), AllocError>
    ensures { (meant : Result (Option Asked) Refused) → Gives meant asked → IfOk result (λ done. state catalogue.new refusals.new ≡ spec.done_if_any place (state catalogue.old refusals.old) meant) }
{
    match asked {
        Ok(Some(change)) => make(alloc, catalogue, refusals, place, change),
        Ok(None) => Ok(()),
        Err(fault) => refuse(refusals, fault),
    }
}

fn drop_schemas(
    alloc: Global,
    catalogue: &mut Catalogue,
    refusals: &mut List<Refusal>,
    place: Place,
    x: &DropSchema,
) -> Result<(), AllocError>
    ensures { IfOk result (λ done. state catalogue.new refusals.new ≡ spec.schemas_dropped place x.now (state catalogue.old refusals.old) x.now.names) }
{
    for name in x.names.as_slice() {
        let asked = schema_drop_asked(alloc, x, name);
        do_asked(alloc, catalogue, refusals, place, asked)?;
    }
    Ok(())
}

fn drop_names(
    alloc: Global,
    catalogue: &mut Catalogue,
    refusals: &mut List<Refusal>,
    place: Place,
    x: &DropNamed,
) -> Result<(), AllocError>
    ensures { IfOk result (λ done. state catalogue.new refusals.new ≡ spec.names_dropped place x.now (state catalogue.old refusals.old) x.now.names) }
{
    for name in x.names.as_slice() {
        let asked = drop_asked(alloc, catalogue, x, name);
        do_asked(alloc, catalogue, refusals, place, asked)?;
    }
    Ok(())
}

fn act(
    alloc: Global,
    catalogue: &mut Catalogue,
    refusals: &mut List<Refusal>,
    place: Place,
    x: &AlterTable,
    actions: &[TableAction],
) -> Result<(), AllocError>
    ensures { IfOk result (λ done. state catalogue.new refusals.new ≡ spec.acted place x.now (state catalogue.old refusals.old) actions.now) }
{
    for action in actions {
        let asked = action_asked(alloc, catalogue, x, action);
        do_if_any(alloc, catalogue, refusals, place, asked)?;
    }
    Ok(())
}

// What a change of a table that is no list of actions asks for.
fn table_change_asked(
    alloc: Global,
    catalogue: &Catalogue,
    x: &AlterTable,
    change: &TableChange,
) -> Result<Option<Change>, Fault>
    ensures { Gives (spec.table_change_asked catalogue.now x.now change.now) result }
{
    match change {
        TableChange::RenameTo(to) => Ok(Some(rename_asked(alloc, catalogue, x, to)?)),
        TableChange::RenameColumn(_, from, to) => {
            let action = Action::RenameColumn {
                from: text(alloc, from)?,
                to: text(alloc, to)?,
            };
            Ok(Some(acting(alloc, catalogue, x, action)?))
        }
        TableChange::RenameConstraint(from, to) => {
            let action = Action::RenameConstraint {
                from: text(alloc, from)?,
                to: text(alloc, to)?,
            };
            Ok(Some(acting(alloc, catalogue, x, action)?))
        }
        TableChange::SetSchema(to) => Ok(Some(move_asked(alloc, catalogue, x, to)?)),
        TableChange::Actions(_) => Ok(None),
    }
}

fn change_table(
    alloc: Global,
    catalogue: &mut Catalogue,
    refusals: &mut List<Refusal>,
    place: Place,
    x: &AlterTable,
) -> Result<(), AllocError>
    ensures { IfOk result (λ done. state catalogue.new refusals.new ≡ spec.table_changed place x.now (state catalogue.old refusals.old) x.now.change) }
{
    if let TableChange::Actions(actions) = &x.change {
        return act(alloc, catalogue, refusals, place, x, actions.as_slice());
    }
    let asked = table_change_asked(alloc, catalogue, x, &x.change);
    do_if_any(alloc, catalogue, refusals, place, asked)
}

// Makes the changes of a statement in order.
fn replay_one(
    alloc: Global,
    catalogue: &mut Catalogue,
    refusals: &mut List<Refusal>,
    statement: &Ddl,
) -> Result<(), AllocError>
    ensures { IfOk result (λ done. state catalogue.new refusals.new ≡ spec.after (state catalogue.old refusals.old) statement.now) }
{
    match statement {
        Ddl::CreateSchema(x) => {
            let asked = schema_asked(alloc, &x.form);
            do_asked(alloc, catalogue, refusals, x.place, asked)
        }
        Ddl::CreateTable(x) => {
            let asked = table_asked(alloc, catalogue, &x.form);
            do_asked(alloc, catalogue, refusals, x.place, asked)
        }
        Ddl::CreateType(x) => {
            let asked = enum_asked(alloc, catalogue, &x.form);
            do_asked(alloc, catalogue, refusals, x.place, asked)
        }
        Ddl::CreateDomain(x) => {
            let asked = domain_asked(alloc, catalogue, &x.form);
            do_asked(alloc, catalogue, refusals, x.place, asked)
        }
        Ddl::DropSchema(x) => drop_schemas(alloc, catalogue, refusals, x.place, &x.form),
        Ddl::Drop(x) => drop_names(alloc, catalogue, refusals, x.place, &x.form),
        Ddl::AlterTable(x) => change_table(alloc, catalogue, refusals, x.place, &x.form),
        Ddl::AlterType(x) => {
            let asked = type_change_asked(alloc, catalogue, &x.form.name, &x.form.change);
            do_if_any(alloc, catalogue, refusals, x.place, asked)
        }
    }
}

/// Replays statements over a catalogue: each statement's changes are made in order. What is refused is
/// left out and listed with its place, and the next change is tried: an unknown type (15) or schema
/// (16) at its name, and at the statement a name that is taken (80) or missing (81), a type or schema
/// in use (82), a key column that would lose NOT NULL (83), and more than 1,600 columns (84). After
/// want of memory the catalogue holds the changes up to some point.
pub fn replay(
    alloc: Global,
    catalogue: &mut Catalogue,
    statements: &List<Ddl>,
) -> Result<List<Refusal>, AllocError>
    ensures { IfOk result (λ refusals. state catalogue.new refusals ≡ spec.replayed catalogue.old statements.now) }
{
    let mut refusals = List::new(alloc);
    for statement in statements.as_slice() {
        replay_one(alloc, catalogue, &mut refusals, statement)?;
    }
    Ok(refusals)
}
