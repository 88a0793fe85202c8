ghost use Rattle.std.specs.Prelude.{◌≡◌, ◌++◌, OnOk, IfOk, map, decimal};
ghost use Rattle.sq_plan.specs.Lines;
ghost use Rattle.sq_plan.specs.Lines.{shown_byte, shown, kept, numbered, finding_line};

use crate::{Finding, Spot};
use itoa::Buffer;
use sq_base::{Code, List, Name, Place};
use std::alloc::{AllocError, Global};

/// A byte as a line shows it: a control byte is shown as a question mark.
fn shown_byte(byte: u8) -> u8
    ensures { result ≡ shown_byte byte }
{
    if byte < 0x20 || byte == 0x7F {
        b'?'
    } else {
        byte
    }
}

/// Adds a path or a text as lines show it.
fn add_shown(line: &mut List<u8>, text: &[u8]) -> Result<(), AllocError>
    ensures { OnOk result (line.new ≡ line.old ++ shown text.now) }
{
    for byte in text {
        line.push(shown_byte(*byte))?;
    }
    Ok(())
}

/// Adds a text as it is.
fn add(line: &mut List<u8>, text: &str) -> Result<(), AllocError>
    ensures { OnOk result (line.new ≡ line.old ++ text.now) }
{
    line.extend_from_slice(text.as_bytes())
}

/// Adds a number.
fn add_number(line: &mut List<u8>, number: u32) -> Result<(), AllocError>
    ensures { OnOk result (line.new ≡ line.old ++ decimal number) }
{
    let mut buffer = Buffer::new();
    line.extend_from_slice(buffer.format(number).as_bytes())
}

/// Adds a refusal's number and word.
fn add_numbered(line: &mut List<u8>, code: Code) -> Result<(), AllocError>
    ensures { OnOk result (line.new ≡ line.old ++ numbered code) }
{
    add(line, "[")?;
    add_number(line, code.number() as u32)?;
    add(line, "] ")?;
    add(line, code.word())
}

/// Adds a text that a refusal keeps.
fn add_kept(line: &mut List<u8>, text: &Name) -> Result<(), AllocError>
    ensures { OnOk result (line.new ≡ line.old ++ kept text.now) }
{
    let bytes = text.as_bytes();
    if bytes.is_empty() {
        return Ok(());
    }
    add(line, " ")?;
    add_shown(line, bytes)
}

/// A path, and a text behind it.
pub fn line(alloc: Global, path: &Name, text: &str) -> Result<List<u8>, AllocError>
    ensures { IfOk result (λ line. line ≡ Lines.line path.now text.now) }
{
    let mut line = List::new(alloc);
    add_shown(&mut line, path.as_bytes())?;
    add(&mut line, text)?;
    add(&mut line, "\n")?;
    Ok(line)
}

/// Adds what stands between the path and the number.
fn add_spot(line: &mut List<u8>, spot: Spot, place: Place) -> Result<(), AllocError>
    ensures { OnOk result (line.new ≡ line.old ++ Lines.at_spot spot place) }
{
    match spot {
        Spot::Whole => add(line, ": "),
        Spot::Line => {
            add(line, ":")?;
            add_number(line, place.line)?;
            add(line, ": ")
        }
        Spot::Placed => {
            add(line, ":")?;
            add_number(line, place.line)?;
            add(line, ":")?;
            add_number(line, place.column)?;
            add(line, ": ")
        }
    }
}

/// The line of a refusal.
pub fn finding_line(alloc: Global, finding: &Finding) -> Result<List<u8>, AllocError>
    ensures { IfOk result (λ line. line ≡ finding_line finding.now) }
{
    let mut line = List::new(alloc);
    add_shown(&mut line, finding.path.as_bytes())?;
    add_spot(&mut line, finding.spot, finding.refusal.place)?;
    add_numbered(&mut line, finding.refusal.code)?;
    add_kept(&mut line, &finding.refusal.first)?;
    add_kept(&mut line, &finding.refusal.second)?;
    add(&mut line, "\n")?;
    Ok(line)
}
