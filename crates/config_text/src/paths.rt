//! The paths of a configuration.

use case_files::Subject;
use sq_config::{folder_of, is_accepted_path, joined_path};
use std::alloc::{AllocError, Global};

/// The sign that a picture of a sign of control stands for.
fn sign_of(picture: char) -> char {
    match picture {
        '␀' => '\u{0}',
        '␉' => '\t',
        '␊' => '\n',
        '␟' => '\u{1F}',
        '␡' => '\u{7F}',
        other => other,
    }
}

/// Writes where the path of a line leads, in a configuration in this folder.
fn show_way(alloc: Global, text: &mut String, folder: &str, line: &str) -> Result<(), AllocError> {
    let mut path = String::new(alloc);
    for picture in line.chars() {
        path.push(sign_of(picture))?;
    }
    if !is_accepted_path(alloc, path.as_str())? {
        return text.push_str(" is refused\n");
    }
    text.push_str(" -> ")?;
    text.push_str(joined_path(alloc, folder, path.as_str())?.as_str())?;
    text.push('\n')
}

/// The path of a configuration, and paths in it, one a line: each is answered by where it leads.
#[derive(Drop)]
pub struct Paths;

impl Subject for Paths {
    fn answer(&mut self, alloc: Global, input: &str) -> Result<String, AllocError> {
        let mut text = String::new(alloc);
        let Some((configuration, paths)) = input.split_once('\n') else {
            return String::from_str(alloc, "no configuration");
        };
        for line in paths.lines() {
            text.push_str(line)?;
            show_way(alloc, &mut text, folder_of(configuration), line)?;
        }
        Ok(text)
    }
}

/// Paths of configurations: each is answered by its folder.
#[derive(Drop)]
pub struct Folders;

impl Subject for Folders {
    fn answer(&mut self, alloc: Global, input: &str) -> Result<String, AllocError> {
        let mut text = String::new(alloc);
        for line in input.lines() {
            text.push_str(line)?;
            text.push_str(" -> ")?;
            text.push_str(folder_of(line))?;
            text.push('\n')?;
        }
        Ok(text)
    }
}
