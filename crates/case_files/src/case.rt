//! A file of cases. A case begins with a line `=== TITLE`. What is put in follows it, then a line
//! `---`, then what has to come out. What stands before the first case is a comment.

use std::alloc::{AllocError, Global};
use std::fmt;

/// A case, with the number of its first line.
#[derive(Drop)]
pub struct Case {
    pub line: usize,
    pub title: String,
    pub input: String,
    pub wanted: String,
}

/// Why the cases of a file are not tried.
#[derive(Drop)]
pub enum Fault {
    Memory,
    /// It cannot be read as text.
    Unread,
    /// Its name names no subject.
    NoSubject,
    /// It holds no case.
    Empty,
    /// The case that begins in this line has no line `---`.
    NoAnswer(usize),
}

impl From<AllocError> for Fault {
    fn from(_error: AllocError) -> Fault {
        Fault::Memory
    }
}

impl fmt::Display for Fault {
    fn fmt<W: fmt::Write>(&self, f: &mut fmt::Formatter<W>) -> fmt::Result {
        match self {
            Fault::Memory => f.write_str("out of memory"),
            Fault::Unread => f.write_str("it cannot be read as text"),
            Fault::NoSubject => f.write_str("its name names no subject"),
            Fault::Empty => f.write_str("it holds no case"),
            Fault::NoAnswer(line) => write!(f, "the case of line {line} has no line ---"),
        }
    }
}

/// Where the reader of a file stands.
#[derive(Clone, Copy, PartialEq, Eq)]
enum Part {
    Comment,
    Input,
    Wanted,
}

fn add_line(text: &mut String, line: &str) -> Result<(), AllocError> {
    text.push_str(line)?;
    text.push('\n')
}

fn add_case(found: &mut Vec<Case>, case: Case) -> Result<(), AllocError> {
    found.push(case)?;
    Ok(())
}

/// The cases of a file, in their order.
pub fn cases(alloc: Global, text: &str) -> Result<Vec<Case>, Fault> {
    let mut found = Vec::new(alloc);
    let mut part = Part::Comment;
    let mut case = Case {
        line: 0,
        title: String::new(alloc),
        input: String::new(alloc),
        wanted: String::new(alloc),
    };
    for (at, line) in text.lines().enumerate() {
        let number = at.saturating_add(1);
        if let Some(title) = line.strip_prefix("=== ") {
            match part {
                Part::Comment => (),
                Part::Input => return Err(Fault::NoAnswer(case.line)),
                Part::Wanted => add_case(&mut found, case)?,
            }
            case = Case {
                line: number,
                title: String::from_str(alloc, title)?,
                input: String::new(alloc),
                wanted: String::new(alloc),
            };
            part = Part::Input;
        } else if line == "---" && part == Part::Input {
            part = Part::Wanted;
        } else {
            match part {
                Part::Comment => (),
                Part::Input => add_line(&mut case.input, line)?,
                Part::Wanted => add_line(&mut case.wanted, line)?,
            }
        }
    }
    match part {
        Part::Comment => return Err(Fault::Empty),
        Part::Input => return Err(Fault::NoAnswer(case.line)),
        Part::Wanted => add_case(&mut found, case)?,
    }
    Ok(found)
}
