//! What parts come to that are all judged: what all of them give, or the findings of all.

ghost use Rattle.std.specs.Prelude.{◌≡◌, [], ◌++◌, Ok, Err, IfOk, OnOk};
ghost use Rattle.sq_plan.specs.Asked.{Comes, Joins, joined, ended_with};

use crate::{Finding, Halt};
use sq_base::List;
use std::alloc::AllocError;

/// Adds items at the end.
pub fn append<T: Drop>(items: &mut List<T>, more: List<T>) -> Result<(), AllocError>
    ensures { OnOk result (items.new ≡ items.old ++ more) }
{
    for item in more.into_vec() {
        items.push(item)?;
    }
    Ok(())
}

/// What parts were judged to be together, or the findings of all.
pub type Joined<T> = Result<List<T>, List<Finding>>;

/// What a part has come to, unless it halts the run.
fn come_to<T: Drop>(part: Result<List<T>, Halt>) -> Result<Joined<T>, Halt>
    ensures { Comes part result }
{
    match part {
        Ok(items) => Ok(Ok(items)),
        Err(Halt::Refused(findings)) => Ok(Err(findings)),
        Err(Halt::Missing(path)) => Err(Halt::Missing(path)),
        Err(Halt::Failed(path)) => Err(Halt::Failed(path)),
        Err(Halt::Memory) => Err(Halt::Memory),
    }
}

/// Items with those of the next part, or its findings.
fn joined_items<T: Drop>(items: List<T>, after: Joined<T>) -> Result<Joined<T>, AllocError>
    ensures { IfOk result (λ both. both ≡ joined (Ok items) after) }
{
    let more = match after {
        Ok(more) => more,
        Err(findings) => return Ok(Err(findings)),
    };
    let mut both = items;
    append(&mut both, more)?;
    Ok(Ok(both))
}

/// Findings with those of the next part.
fn joined_findings<T: Drop>(
    findings: List<Finding>,
    after: Joined<T>,
) -> Result<Joined<T>, AllocError>
    ensures { IfOk result (λ both. both ≡ joined (Err findings) after) }
{
    let more = match after {
        Ok(_items) => return Ok(Err(findings)),
        Err(more) => more,
    };
    let mut both = findings;
    append(&mut both, more)?;
    Ok(Err(both))
}

/// What two parts give, or the findings of both.
fn joined<T: Drop>(before: Joined<T>, after: Joined<T>) -> Result<Joined<T>, AllocError>
    ensures { IfOk result (λ both. both ≡ joined before after) }
{
    match before {
        Ok(items) => joined_items(items, after),
        Err(findings) => joined_findings(findings, after),
    }
}

/// Joins what was judged so far with what a part has come to.
pub fn join<T: Drop>(so_far: Joined<T>, part: Result<List<T>, Halt>) -> Result<Joined<T>, Halt>
    ensures { Joins so_far part result }
{
    let answer = come_to(part)?;
    match joined(so_far, answer) {
        Ok(both) => Ok(both),
        Err(_) => Err(Halt::Memory),
    }
}

/// How a run ends for what was judged.
pub fn ending<T: Drop>(judged: Joined<T>) -> Result<List<T>, Halt>
    ensures { result ≡ ended_with judged (Ok []) }
{
    match judged {
        Ok(items) => Ok(items),
        Err(findings) => Err(Halt::Refused(findings)),
    }
}
