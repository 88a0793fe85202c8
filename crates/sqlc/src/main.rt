//! The program: it makes the real tree, output and screen, and ends with the status of the top call.
#![tactic(auto)]

mod disk;
mod screen;
#[cfg(test)]
mod tests;

use disk::{DiskOut, DiskTree};
use screen::Screen;
use sq_base::{Out, Sink, Tree};
use sq_plan::{Status, tell_memory};
use sq_run::{Inputs, sqlc};
use std::alloc::{AllocError, Global};
use std::env;
use std::env::Env;
use std::io::ErrorKind;
use std::process::ExitCode;

/// The words behind the program's name, or none where they are no UTF-8.
fn words(alloc: Global, rt: &(impl Env + AllocGlobal)) -> Result<Vec<String>, AllocError> {
    let mut words = Vec::new(alloc);
    match env::args(rt) {
        Ok(args) => {
            for word in args.skip(1) {
                words.push(word)?;
            }
            Ok(words)
        }
        Err(error) if error.kind() == ErrorKind::OutOfMemory => Err(AllocError),
        Err(_) => Ok(words),
    }
}

/// Does what the words say, where memory was there to read them.
fn run<T: Tree, O: Out, S: Sink>(
    alloc: Global,
    words: Result<Vec<String>, AllocError>,
    tree: &mut T,
    out: &mut O,
    screen: &mut S,
) -> Status {
    match words {
        Ok(words) => sqlc(alloc, Inputs { words }, tree, out, screen),
        Err(_) => tell_memory(screen),
    }
}

fn main(rt: HostRuntime) -> ExitCode {
    let alloc = rt.alloc();
    let mut tree = DiskTree::new(&rt);
    let mut out = DiskOut::new(&rt);
    let mut screen = Screen::new(&rt);
    let words = words(alloc, &rt);
    ExitCode::from(run(alloc, words, &mut tree, &mut out, &mut screen).code())
}
