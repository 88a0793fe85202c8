//! Whole projects in memory.

use crate::given::{Given, read_given};
use crate::seen::show_bytes;
use case_files::Subject;
use sq_base::{List, MemoryOut, MemorySink, MemoryTree};
use sq_plan::Status;
use sq_run::{Inputs, sqlc};
use std::alloc::{AllocError, Global};

/// The run of a project: its first line is `$ sqlc WORD ..`, then come the lines `show PATH` of the
/// files that are shown whole, and the files. The answer has the lines of the screen, the status, and
/// the files that were put, in their order.
#[derive(Drop)]
pub struct Projects {
    kept: String,
}

impl Projects {
    pub fn new(alloc: Global) -> Projects {
        Projects {
            kept: String::new(alloc),
        }
    }
}

/// The words behind the program's name.
fn words(alloc: Global, given: &Given) -> Result<Vec<String>, AllocError> {
    let mut words = Vec::new(alloc);
    let line = given.head.as_str().lines().next().unwrap_or("");
    for word in line.split_whitespace().skip(2) {
        words.push(String::from_str(alloc, word)?)?;
    }
    Ok(words)
}

fn is_shown(given: &Given, path: &str) -> bool {
    given
        .head
        .as_str()
        .lines()
        .any(|line| line.strip_prefix("show ") == Some(path))
}

fn told(
    alloc: Global,
    given: &Given,
    status: Status,
    out: &MemoryOut,
    screen: &MemorySink,
) -> Result<String, AllocError> {
    let mut text = String::new(alloc);
    show_bytes(alloc, &mut text, screen.text())?;
    text.push_str(format!(in alloc; "status {}\n", status.code())?.as_str())?;
    for file in out.files() {
        text.push_str("+++ ")?;
        text.push_str(file.path.as_str())?;
        text.push('\n')?;
        if is_shown(given, file.path.as_str()) {
            show_bytes(alloc, &mut text, file.bytes.as_slice())?;
        }
    }
    Ok(text)
}

impl Subject for Projects {
    fn answer(&mut self, alloc: Global, input: &str) -> Result<String, AllocError> {
        let given = read_given(alloc, &mut self.kept, input)?;
        let mut tree = MemoryTree::new(alloc, given.files(alloc)?, List::new(alloc))?;
        let mut out = MemoryOut::new(alloc, List::new(alloc), List::new(alloc))?;
        let mut screen = MemorySink::new(alloc, List::new(alloc))?;
        let inputs = Inputs {
            words: words(alloc, &given)?,
        };
        let status = sqlc(alloc, inputs, &mut tree, &mut out, &mut screen);
        told(alloc, &given, status, &out, &screen)
    }
}
