ghost use Rattle.std.specs.Prelude.{◌≡◌, ◌+◌, ◌-◌, ◌==◌, ◌≤◌, ◌<◌, count_by, length, take, nat_eq, [], Ok};
ghost use Rattle.sq_reader.specs.Gives.{Halts};
ghost use Rattle.sq_reader.specs.Reading;
ghost use Rattle.sq_reader.specs.Answer.{ReadsBack};

use crate::files::all_items;
use crate::items::{Halt, Spot};
use crate::settle::all_settled;
use sq_base::{File, List};
use sq_shown::Shown;
use std::alloc::Global;
use thiserror::Error;

/// Why files have no reading.
#[derive(Debug, Drop, Error)]
pub enum ReadBack {
    /// Nothing that may stand there stands at this line, counted from 1, of the file of this number,
    /// counted from 0.
    #[error("no declaration in file {file} at line {line}")]
    NotDeclaration { file: usize, line: usize },
    #[error("out of memory")]
    Memory,
}

/// How many newlines a text has.
fn newlines(text: &[u8]) -> usize
    ensures count { result ≡ count_by (λ b. b == 10) text.now }
    ensures within { result ≤ length text.now }
{
    let mut count = 0;
    for byte in text {
        if *byte == b'\n' {
            count += 1;
        }
    }
    count
}

/// The line behind which so many bytes are left.
fn line_of(bytes: &[u8], left: usize) -> usize
    ensures { result ≡ Reading.line_of bytes.now left }
{
    let front = bytes.len().saturating_sub(left);
    newlines(&bytes[..front]).saturating_add(1)
}

/// The bytes of the file of this number.
fn bytes_of(files: &List<File>, number: usize) -> &[u8]
    ensures { result.now ≡ Reading.bytes_of files.now number }
{
    match files.get(number) {
        Some(file) => file.bytes.as_slice(),
        None => b"",
    }
}

/// The signatures of all files, or the first spot at which there is no reading.
fn read_items(alloc: Global, files: &List<File>) -> Result<List<Shown>, Halt>
    ensures { Halts (λ shown. shown) result (Reading.read_items files.now) }
{
    let items = all_items(alloc, files.as_slice())?;
    all_settled(alloc, items.as_slice())
}

/// The signatures that written Go files show, or the first line at which there is no reading.
pub fn read_go(alloc: Global, files: &List<File>) -> Result<List<Shown>, ReadBack>
    ensures { ReadsBack result (Reading.read_go files.now) }
{
    match read_items(alloc, files) {
        Ok(shown) => Ok(shown),
        Err(Halt::At(spot)) => Err(ReadBack::NotDeclaration {
            file: spot.file,
            line: line_of(bytes_of(files, spot.file), spot.left),
        }),
        Err(Halt::NoMemory) => Err(ReadBack::Memory),
    }
}
