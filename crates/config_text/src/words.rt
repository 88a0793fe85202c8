//! The words of a command line.

use case_files::Subject;
use sq_config::{Task, read_words};
use std::alloc::{AllocError, Global};

/// Writes what the words of a line ask for, of which each has a bar behind it.
fn show_request(alloc: Global, text: &mut String, line: &str) -> Result<(), AllocError> {
    let mut words = Vec::new(alloc);
    for word in line.split_terminator('|') {
        words.push(String::from_str(alloc, word)?)?;
    }
    let Some(request) = read_words(alloc, words.as_slice())? else {
        return text.push_str("usage");
    };
    text.push_str(match request.task {
        Task::Generate => "generate ",
        Task::Compile => "compile ",
    })?;
    text.push_str(request.path.as_str())
}

/// Command lines: each is answered by the task and the configuration that it asks for.
#[derive(Drop)]
pub struct Words;

impl Subject for Words {
    fn answer(&mut self, alloc: Global, input: &str) -> Result<String, AllocError> {
        let mut text = String::new(alloc);
        for line in input.lines() {
            text.push_str(line)?;
            text.push_str(": ")?;
            show_request(alloc, &mut text, line)?;
            text.push('\n')?;
        }
        Ok(text)
    }
}
