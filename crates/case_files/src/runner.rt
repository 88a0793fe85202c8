//! The run of a file's cases.

use crate::case::{Case, Fault, cases};
use std::alloc::{AllocError, Global};

/// What is tried: it answers each input by text.
pub trait Subject {
    fn answer(&mut self, alloc: Global, input: &str) -> Result<String, AllocError>;
}

/// How many cases a file has, and a text of those that failed.
#[derive(Drop)]
pub struct Tally {
    pub cases: usize,
    pub failed: usize,
    pub failures: String,
}

/// Adds lines, each behind a mark.
fn show_lines(text: &mut String, mark: &str, lines: &str) -> Result<(), AllocError> {
    for line in lines.lines() {
        text.push_str(mark)?;
        text.push_str(line)?;
        text.push('\n')?;
    }
    Ok(())
}

/// Adds the lines that tell of a failed case: where it stands, what was wanted and what came.
pub fn show_failure(
    alloc: Global,
    text: &mut String,
    file: &str,
    case: &Case,
    came: &str,
) -> Result<(), AllocError> {
    let head = format!(in alloc; "FAILED {file}:{}: {}\n", case.line, case.title)?;
    text.push_str(head.as_str())?;
    show_lines(text, "  wanted: ", case.wanted.as_str())?;
    show_lines(text, "  came:   ", came)
}

/// Puts each case of a file to the subject. A last line of an answer may lack its line feed.
pub fn tried<S: Subject>(
    alloc: Global,
    file: &str,
    text: &str,
    subject: &mut S,
) -> Result<Tally, Fault> {
    let cases = cases(alloc, text)?;
    let mut failed = 0usize;
    let mut failures = String::new(alloc);
    for case in &cases {
        let came = subject.answer(alloc, case.input.as_str())?;
        let wanted = case.wanted.as_str();
        if wanted != came.as_str() && wanted.strip_suffix('\n') != Some(came.as_str()) {
            failed = failed.saturating_add(1);
            show_failure(alloc, &mut failures, file, case, came.as_str())?;
        }
    }
    Ok(Tally {
        cases: cases.len(),
        failed,
        failures,
    })
}

/// What is told of a file's run: its line, and the lines of what failed.
#[derive(Drop)]
pub struct Report {
    pub line: String,
    pub failures: String,
}

/// What is told of a file's run.
pub fn told(alloc: Global, file: &str, ran: Result<Tally, Fault>) -> Result<Report, AllocError> {
    let tally = match ran {
        Ok(tally) => tally,
        Err(fault) => {
            return Ok(Report {
                line: format!(in alloc; "{file}: not tried\n")?,
                failures: format!(in alloc; "FAILED {file}: {fault}\n")?,
            });
        }
    };
    Ok(Report {
        line: format!(in alloc; "{file}: {} cases, {} failed\n", tally.cases, tally.failed)?,
        failures: tally.failures,
    })
}
