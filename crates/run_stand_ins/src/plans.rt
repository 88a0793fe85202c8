//! What is read of a schema file, what is put, and what is printed.

ghost use Rattle.std.specs.Prelude.{◌≡◌, ◌∷◌, ◌++◌, [], Some, IfOk, OnOk};
ghost use Rattle.sq_plan.specs.Asked.{Joins, Judges};
ghost use Rattle.sq_plan.specs.Deliver;
ghost use Rattle.sq_plan.specs.Deliver.{PutsAll, Shows, files_of};
ghost use Rattle.sq_plan.specs.Findings.{in_source};
ghost use Rattle.sq_plan.specs.Folds.{unless_found};
ghost use Rattle.sq_plan.specs.Rollback;

use sq_base::{File, List, Out, Refusal, Sink};
use sq_plan::{Ending, Finding, Halt, Joined, PutFault, Report, SoFar, Status};
use std::alloc::{AllocError, Global};

pub fn before_rollback(bytes: &[u8]) -> &[u8]
    ensures { result.now ≡ Rollback.before_rollback bytes.now }
{
    sq_plan::before_rollback(bytes)
}

pub fn join(so_far: Joined<File>, part: Result<List<File>, Halt>) -> Result<Joined<File>, Halt>
    ensures { Joins so_far part result }
{
    sq_plan::join(so_far, part)
}

pub fn unless_found(done: SoFar<List<File>>) -> Result<List<File>, Halt>
    ensures { Judges (unless_found done) result }
{
    done.unless_found()
}

pub fn list_refusal(
    alloc: Global,
    found: &mut List<Finding>,
    path: &str,
    refusal: Refusal,
) -> Result<(), AllocError>
    ensures { OnOk result (found.new ≡ found.old ++ in_source path.now refusal ∷ []) }
{
    sq_plan::list_refusal(alloc, found, path, refusal)
}

pub fn put_accepted<O: Out>(out: &mut O, ending: &Ending) -> Result<(), PutFault>
    ensures { PutsAll (files_of ending.now) (O.state out.old) (O.state out.new) result }
{
    sq_plan::put_accepted(out, ending)
}

pub fn report_of(
    alloc: Global,
    ending: &Ending,
    put: Result<(), PutFault>,
) -> Result<Report, AllocError>
    ensures { IfOk result (λ shown. Deliver.report_of ending.now put ≡ Some shown) }
{
    sq_plan::report_of(alloc, ending, put)
}

pub fn show<S: Sink>(screen: &mut S, report: &Report) -> Status
    ensures { Shows report.now (S.state screen.old) (S.state screen.new) result }
{
    sq_plan::show(screen, report)
}
