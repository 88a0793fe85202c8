//! What a case gives: a first line with a command, and files.
//!
//! A line `+++ PATH` begins a file. The line feed before the next such line, and that at the end of the
//! input, is none of the file's. A line `+++ PATH, changed` begins a change of the file of this path: a
//! line with `-` goes, one with `+` comes in its place, and one with a space stays. A line that begins
//! with `<2..5>` stands three times, with the numbers from 2 to 4 in place of its `#`.
//!
//! A case that doesn't begin with `$` takes the command and the files of the last one that does, and
//! puts its own files in their places.

use crate::seen::bytes_of;
use sq_base::{File, List, Name};
use std::alloc::{AllocError, Global};

/// A file by its path and its text.
#[derive(Drop)]
pub struct Held {
    pub path: String,
    pub text: String,
}

/// The lines before the first file, and the files.
#[derive(Drop)]
pub struct Given {
    pub head: String,
    pub files: Vec<Held>,
}

/// The numbers and the line of a line that is to stand several times.
fn repetition(line: &str) -> Option<(u32, u32, &str)> {
    let (range, pattern) = line.strip_prefix('<')?.split_once('>')?;
    let (from, to) = range.split_once("..")?;
    Some((from.parse::<u32>().ok()?, to.parse::<u32>().ok()?, pattern))
}

/// Adds a line with a number in place of its `#`.
fn add_numbered(
    alloc: Global,
    text: &mut String,
    number: u32,
    pattern: &str,
) -> Result<(), AllocError> {
    let number = format!(in alloc; "{number}")?;
    for (at, part) in pattern.split('#').enumerate() {
        text.push_str(if at > 0 { number.as_str() } else { "" })?;
        text.push_str(part)?;
    }
    text.push('\n')
}

/// A text with each line as often as it is to stand.
fn repeated(alloc: Global, input: &str) -> Result<String, AllocError> {
    let mut text = String::new(alloc);
    for line in input.lines() {
        let Some((from, to, pattern)) = repetition(line) else {
            text.push_str(line)?;
            text.push('\n')?;
            continue;
        };
        for number in from..to {
            add_numbered(alloc, &mut text, number, pattern)?;
        }
    }
    Ok(text)
}

/// A text after a change of its lines.
fn changed(alloc: Global, text: &str, change: &str) -> Result<String, AllocError> {
    let mut before = String::new(alloc);
    let mut after = String::new(alloc);
    for line in change.lines() {
        let rest = line.get(1..).unwrap_or("");
        if !line.starts_with('+') {
            before.push_str(rest)?;
            before.push('\n')?;
        }
        if !line.starts_with('-') {
            after.push_str(rest)?;
            after.push('\n')?;
        }
    }
    match text.split_once(before.as_str()) {
        Some((front, behind)) => format!(in alloc; "{front}{after}{behind}"),
        None => String::from_str(alloc, "The lines to be changed don't stand here."),
    }
}

/// Puts a file in the place of that of its path, or behind all.
fn put(alloc: Global, files: &mut Vec<Held>, section: &str) -> Result<(), AllocError> {
    let (title, text) = section.split_once('\n').unwrap_or((section, ""));
    let path = title.strip_suffix(", changed").unwrap_or(title);
    for held in files.iter_mut() {
        if held.path.as_str() == path {
            held.text = if path == title {
                String::from_str(alloc, text)?
            } else {
                changed(alloc, held.text.as_str(), text)?
            };
            return Ok(());
        }
    }
    files.push(Held {
        path: String::from_str(alloc, path)?,
        text: String::from_str(alloc, text)?,
    })?;
    Ok(())
}

fn read(alloc: Global, input: &str) -> Result<Given, AllocError> {
    let text = repeated(alloc, input)?;
    let text = text.as_str().strip_suffix('\n').unwrap_or("");
    let mut head = String::new(alloc);
    let mut files = Vec::new(alloc);
    for (at, section) in text.split("\n+++ ").enumerate() {
        if at == 0 {
            head.push_str(section)?;
        } else {
            put(alloc, &mut files, section)?;
        }
    }
    Ok(Given { head, files })
}

/// What a case gives, where the last one that began with `$` is kept.
pub fn read_given(alloc: Global, kept: &mut String, input: &str) -> Result<Given, AllocError> {
    if input.starts_with('$') {
        *kept = String::from_str(alloc, input)?;
        return read(alloc, input);
    }
    let text = format!(in alloc; "{kept}{input}")?;
    read(alloc, text.as_str())
}

impl Given {
    /// The files with their bytes.
    pub fn files(&self, alloc: Global) -> Result<List<File>, AllocError> {
        let mut files = List::new(alloc);
        for held in &self.files {
            files.push(File {
                path: Name::new(alloc, held.path.as_str())?,
                bytes: bytes_of(alloc, held.text.as_str())?,
            })?;
        }
        Ok(files)
    }
}
