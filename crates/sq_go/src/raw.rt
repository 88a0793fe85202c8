//! The text of a query within a raw string, and its constant.

ghost use Rattle.std.specs.Prelude.{◌≡◌, ◌++◌, ◌<◌, length, IfOk, OnOk, codes};
ghost use Rattle.sq_shown.specs.Lines.{line};
ghost use Rattle.sq_shown.specs.Layout.{annotation, command_word, constant, leaving, raw, raw_byte};

use crate::line::{push_line, push_text, push_thrice};
use sq_base::List;
use sq_shown::{Command, Shown, constant_name};
use std::alloc::{AllocError, Global};

/// U+FEFF in UTF-8.
const MARK: [u8; 3] = [0xEF, 0xBB, 0xBF];

// Leaves the raw string, appends this in quotes, and enters it again.
fn push_leaving(out: &mut List<u8>, quoted: &str) -> Result<(), AllocError>
    ensures { OnOk result (out.new ≡ out.old ++ leaving quoted.now) }
{
    push_text(out, "`+\"")?;
    push_text(out, quoted)?;
    push_text(out, "\"+`")
}

// Appends a byte of a raw string.
fn push_raw_byte(out: &mut List<u8>, byte: u8) -> Result<(), AllocError>
    ensures { OnOk result (out.new ≡ out.old ++ raw_byte byte) }
{
    if byte == b'`' {
        return push_leaving(out, "`");
    }
    if byte == b'\r' {
        return push_leaving(out, "\\r");
    }
    out.push(byte)
}

// Appends the first byte of a text, or U+FEFF, and gives the rest.
#[tactic(auto, using(crate::proofs::RawSteps::raw_unmarked))]
fn push_raw_part<'a>(out: &mut List<u8>, text: &'a [u8]) -> Result<&'a [u8], AllocError>
    requires { 0 < length text.now }
    ensures shorter { IfOk result (λ rest. length rest.now < length text.now) }
    ensures part { IfOk result (λ rest. out.new ++ raw rest.now ≡ out.old ++ raw text.now) }
{
    if text.starts_with(&MARK) {
        push_leaving(out, "\\ufeff")?;
        return Ok(&text[3..]);
    }
    push_raw_byte(out, text[0])?;
    Ok(&text[1..])
}

// Appends a text within a raw string.
fn push_raw(out: &mut List<u8>, text: &[u8]) -> Result<(), AllocError>
    ensures { OnOk result (out.new ≡ out.old ++ raw text.now) }
{
    let mut rest = text;
    while !rest.is_empty() {
        rest = push_raw_part(out, rest)?;
    }
    Ok(())
}

// The word of a command.
fn command_word(command: Command) -> &'static str
    ensures { result.now ≡ command_word command }
{
    match command {
        Command::One => ":one",
        Command::Many => ":many",
        Command::Exec => ":exec",
        Command::ExecRows => ":execrows",
    }
}

// Appends the line of an annotation, behind the name of its constant.
#[tactic(auto, unfolding(sq_shown::specs::Layout::annotation))]
fn push_annotation(
    out: &mut List<u8>,
    name: &[u8],
    query: &[u8],
    command: Command,
) -> Result<(), AllocError>
    ensures { OnOk result (out.new ≡ out.old ++ annotation name.now query.now command) }
{
    let word = command_word(command).as_bytes();
    push_thrice(out, "const ", name, " = `-- name: ", query, " ", word)
}

// Appends a text within a raw string, and the line that ends the string.
fn push_raw_end(out: &mut List<u8>, text: &[u8]) -> Result<(), AllocError>
    ensures { OnOk result (out.new ≡ out.old ++ line (raw text.now) ++ line (codes "`")) }
{
    push_raw(out, text)?;
    push_line(out, "\n`")
}

/// The constant with a query's text behind its annotation.
#[tactic(auto, unfolding(sq_shown::specs::Layout::constant))]
pub fn constant(alloc: Global, query: &Shown) -> Result<List<u8>, AllocError>
    ensures { IfOk result (λ text. text ≡ constant query.now) }
{
    let name = constant_name(alloc, &query.name)?;
    let mut out = List::new(alloc);
    push_annotation(
        &mut out,
        name.as_slice(),
        query.name.as_bytes(),
        query.command,
    )?;
    push_raw_end(&mut out, query.text.as_slice())?;
    Ok(out)
}
