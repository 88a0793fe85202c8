//! What written Go files read as.

use crate::given::{Given, read_given};
use crate::seen::show_bytes;
use case_files::Subject;
use sq_reader::{ReadBack, read_go};
use sq_shown::{Command, Shown, ShownField};
use std::alloc::{AllocError, Global};

/// The signatures that the files of a case show, in their order, or where there is no reading. The
/// first line of a case with all files is `$ read`.
#[derive(Drop)]
pub struct Reading {
    kept: String,
}

impl Reading {
    pub fn new(alloc: Global) -> Reading {
        Reading {
            kept: String::new(alloc),
        }
    }
}

fn command_word(command: Command) -> &'static str {
    match command {
        Command::One => ":one",
        Command::Many => ":many",
        Command::Exec => ":exec",
        Command::ExecRows => ":execrows",
    }
}

fn show_fields(
    alloc: Global,
    text: &mut String,
    mark: &str,
    fields: &[ShownField],
) -> Result<(), AllocError> {
    for field in fields {
        let (name, of) = (field.name.as_str(), field.of.as_str());
        text.push_str(format!(in alloc; "{mark} {name} {of}\n")?.as_str())?;
    }
    Ok(())
}

fn show(alloc: Global, text: &mut String, shown: &Shown) -> Result<(), AllocError> {
    let (name, command) = (shown.name.as_str(), command_word(shown.command));
    text.push_str(format!(in alloc; "-- name: {name} {command}\n")?.as_str())?;
    show_bytes(alloc, text, shown.text.as_slice())?;
    text.push('\n')?;
    show_fields(alloc, text, "parameter", shown.params.as_slice())?;
    show_fields(alloc, text, "column", shown.columns.as_slice())
}

/// The path of the file of this number.
fn path_of(given: &Given, file: usize) -> &str {
    match given.files.get(file) {
        Some(held) => held.path.as_str(),
        None => "no file",
    }
}

impl Subject for Reading {
    fn answer(&mut self, alloc: Global, input: &str) -> Result<String, AllocError> {
        let given = read_given(alloc, &mut self.kept, input)?;
        match read_go(alloc, &given.files(alloc)?) {
            Ok(read) => {
                let mut text = String::new(alloc);
                for shown in read.as_slice() {
                    show(alloc, &mut text, shown)?;
                }
                Ok(text)
            }
            Err(ReadBack::NotDeclaration { file, line }) => {
                let path = path_of(&given, file);
                format!(in alloc; "{path}:{line}: no declaration")
            }
            Err(ReadBack::Memory) => Err(AllocError),
        }
    }
}
