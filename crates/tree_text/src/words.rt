//! How answers are written: words with a blank between two of them.

use sq_base::{Fault, Place};
use std::alloc::{AllocError, Global};

pub type Done = Result<(), AllocError>;

/// Writes a blank, where something stands before it.
pub fn separate(text: &mut String) -> Done {
    if text.is_empty() || text.ends_with('\n') {
        Ok(())
    } else {
        text.push(' ')
    }
}

pub fn say(text: &mut String, word: &str) -> Done {
    separate(text)?;
    text.push_str(word)
}

pub fn say_if(text: &mut String, holds: bool, word: &str) -> Done {
    if holds { say(text, word) } else { Ok(()) }
}

/// Bytes of a source file, which are text.
pub fn say_bytes(alloc: Global, text: &mut String, bytes: &[u8]) -> Done {
    let shown = String::from_utf8_lossy(alloc, bytes)?;
    say(text, shown.as_str())
}

/// The line and the column.
pub fn write_place(text: &mut String, place: Place) -> Done {
    let (line, column) = (place.line, place.column);
    write!(text, "{line}:{column}")
}

/// The number of the refusal and its place, with `before` before the number and `between` behind it.
pub fn refused(
    alloc: Global,
    fault: &Fault,
    before: &str,
    between: &str,
) -> Result<String, AllocError> {
    let mut text = String::new(alloc);
    match fault {
        Fault::Memory => text.push_str("memory")?,
        Fault::Refused(refusal) => {
            let number = refusal.code.number();
            write!(text, "{before}{number}{between}")?;
            write_place(&mut text, refusal.place)?;
        }
    }
    Ok(text)
}
