ghost use Rattle.std.specs.Prelude.{◌≡◌, [], ◌∷◌, Ok, Err, Some, map, IfOk};
ghost use Rattle.sq_plan.specs.declared.halt.Ending.TheVariants.{Judged};
ghost use Rattle.sq_plan.specs.Deliver;
ghost use Rattle.sq_plan.specs.Lines.{finding_line, usage_lines};
ghost use Rattle.sq_plan.specs.Deliver.{PutsAll, files_of, PrintsAll, Shows, TellsMemory, report};

use crate::lines::{finding_line, line};
use crate::{Ending, Finding, Halt, Status};
use sq_base::{File, List, Out, OutFault, Sink, SinkFault};
use std::alloc::{AllocError, Global};

/// The put that answered a fault, by the number of its file.
#[derive(Clone, Copy, Debug, PartialEq, Eq)]
pub struct PutFault {
    pub at: usize,
    pub fault: OutFault,
}

/// What a run has to say, before the screen is called.
#[derive(Debug, Drop)]
pub struct Report {
    pub status: Status,
    pub lines: List<List<u8>>,
}

/// Puts the files in order.
fn put_all<O: Out>(out: &mut O, files: &[File]) -> Result<(), PutFault>
    ensures { PutsAll files.now (O.state out.old) (O.state out.new) result }
{
    for (at, file) in files.iter().enumerate() {
        match out.put(file.path.as_str(), file.bytes.as_slice()) {
            Ok(()) => {}
            Err(fault) => return Err(PutFault { at, fault }),
        }
    }
    Ok(())
}

/// Puts the files of a run that is accepted.
pub fn put_accepted<O: Out>(out: &mut O, ending: &Ending) -> Result<(), PutFault>
    ensures { PutsAll (files_of ending.now) (O.state out.old) (O.state out.new) result }
{
    match ending {
        Ending::Judged(Ok(files)) => put_all(out, files.as_slice()),
        Ending::Usage | Ending::Judged(Err(_)) => Ok(()),
    }
}

/// Writes the lines in order.
fn print_all<S: Sink>(screen: &mut S, lines: &[List<u8>]) -> Result<(), SinkFault>
    ensures { PrintsAll lines.now (S.state screen.old) (S.state screen.new) result }
{
    for line in lines {
        screen.write(line.as_slice())?;
    }
    Ok(())
}

/// A report of one line.
fn one_line(alloc: Global, status: Status, line: List<u8>) -> Result<Report, AllocError>
    ensures { IfOk result (λ shown. report status (line ∷ []) ≡ Some shown) }
{
    let mut lines = List::new(alloc);
    lines.push(line)?;
    Ok(Report { status, lines })
}

/// The line that says how the program is called.
fn usage_lines(alloc: Global) -> Result<List<List<u8>>, AllocError>
    ensures { IfOk result (λ lines. lines ≡ usage_lines) }
{
    let mut lines = List::new(alloc);
    lines.push(List::from_slice(
        alloc,
        b"usage: sqlc generate|compile [-f PATH | --file PATH | --file=PATH]\n",
    )?)?;
    Ok(lines)
}

/// The lines of refusals.
fn finding_lines(alloc: Global, findings: &[Finding]) -> Result<List<List<u8>>, AllocError>
    ensures { IfOk result (λ lines. lines ≡ map finding_line findings.now) }
{
    let mut lines = List::new(alloc);
    for finding in findings {
        lines.push(finding_line(alloc, finding)?)?;
    }
    Ok(lines)
}

/// The status and the lines of a run that was halted.
fn halt_report(alloc: Global, halt: &Halt, put: Result<(), PutFault>) -> Result<Report, AllocError>
    ensures { IfOk result (λ shown. Deliver.report_of (Judged (Err halt.now)) put ≡ Some shown) }
{
    match halt {
        Halt::Refused(findings) => Ok(Report {
            status: Status::Refused,
            lines: finding_lines(alloc, findings.as_slice())?,
        }),
        Halt::Missing(path) => {
            let line = line(alloc, path, ": no such file or folder")?;
            one_line(alloc, Status::Missing, line)
        }
        Halt::Failed(path) => {
            let line = line(alloc, path, ": cannot be read")?;
            one_line(alloc, Status::ReadFault, line)
        }
        Halt::Memory => Err(AllocError),
    }
}

/// The status and the lines of a run that has come to this end.
pub fn report_of(
    alloc: Global,
    ending: &Ending,
    put: Result<(), PutFault>,
) -> Result<Report, AllocError>
    ensures { IfOk result (λ shown. Deliver.report_of ending.now put ≡ Some shown) }
{
    match ending {
        Ending::Usage => Ok(Report {
            status: Status::Usage,
            lines: usage_lines(alloc)?,
        }),
        Ending::Judged(Ok(files)) => put_report(alloc, files.as_slice(), put),
        Ending::Judged(Err(halt)) => halt_report(alloc, halt, put),
    }
}

/// The status and the lines of a run that was to put these files.
fn put_report(
    alloc: Global,
    files: &[File],
    put: Result<(), PutFault>,
) -> Result<Report, AllocError>
    ensures { IfOk result (λ shown. Deliver.report_of (Judged (Ok files.now)) put ≡ Some shown) }
{
    match put {
        Ok(()) => Ok(Report {
            status: Status::Done,
            lines: List::new(alloc),
        }),
        Err(
            PutFault {
                at,
                fault: OutFault::Failed,
            },
        ) if at < files.len() => {
            let line = line(alloc, &files[at].path, ": cannot be written")?;
            one_line(alloc, Status::WriteFault, line)
        }
        Err(_) => Err(AllocError),
    }
}

/// Says that memory is wanting, where the screen takes it.
pub fn tell_memory<S: Sink>(screen: &mut S) -> Status
    ensures told { TellsMemory (S.state screen.old) (S.state screen.new) }
    ensures status { result ≡ Status.Memory }
{
    let _ = screen.write(b"out of memory\n");
    Status::Memory
}

/// Shows a report.
pub fn show<S: Sink>(screen: &mut S, report: &Report) -> Status
    ensures { Shows report.now (S.state screen.old) (S.state screen.new) result }
{
    match print_all(screen, report.lines.as_slice()) {
        Ok(()) => report.status,
        Err(SinkFault::Failed) => report.status.unless_screen_failed(),
        Err(SinkFault::Memory) => tell_memory(screen),
    }
}
