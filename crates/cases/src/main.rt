//! Runs the files of cases in its folder. The name of a file up to its first `-` or `.` names its subject.
#![tactic(auto)]

mod subjects;

use case_files::{Fault, Report, told};
use std::process::ExitCode;
use std::rt::Files;
use std::{fs, io};
use subjects::tried_by_name;

/// The names of the files, in the order of their bytes.
fn names<R: Files + AllocGlobal + Clone + Drop>(rt: &R) -> io::Result<Vec<String>> {
    let mut names = Vec::new(rt.alloc());
    for entry in fs::read_dir(rt, ".")? {
        names.push(String::from_str(rt.alloc(), entry?.file_name())?)?;
    }
    names.sort()?;
    Ok(names)
}

/// The report of a file.
fn report<R: Files + AllocGlobal + Clone + Drop>(rt: &R, file: &str) -> io::Result<Report> {
    let ran = match fs::read_to_string(rt, file) {
        Ok(text) => tried_by_name(rt.alloc(), file, text.as_str()),
        Err(_) => Err(Fault::Unread),
    };
    Ok(told(rt.alloc(), file, ran)?)
}

/// Runs each file, and tells whether all is well.
fn run(rt: &HostRuntime) -> io::Result<bool> {
    let mut is_well = true;
    for name in names(rt)? {
        let report = report(rt, name.as_str())?;
        print!(rt; "{}", report.line)?;
        eprint!(rt; "{}", report.failures)?;
        is_well = is_well && report.failures.is_empty();
    }
    Ok(is_well)
}

fn main(rt: HostRuntime) -> ExitCode {
    match run(&rt) {
        Ok(true) => ExitCode::SUCCESS,
        Ok(false) => ExitCode::from(1),
        Err(_) => ExitCode::from(2),
    }
}
