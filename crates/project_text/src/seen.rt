//! Bytes that a case cannot hold as they are: `<0D>` is the byte of these two digits.

use sq_base::List;
use std::alloc::{AllocError, Global};

/// The bytes that a text stands for.
pub fn bytes_of(alloc: Global, text: &str) -> Result<List<u8>, AllocError> {
    let mut bytes = Vec::new(alloc);
    for (at, part) in text.split('<').enumerate() {
        let (digits, rest) = part.split_once('>').unwrap_or(("", part));
        match u8::from_str_radix(digits, 16) {
            Ok(byte) if at > 0 && digits.len() == 2 => {
                bytes.push(byte)?;
                bytes.extend_from_slice(rest.as_bytes())?;
            }
            _ => {
                bytes.extend_from_slice(if at > 0 { b"<".as_slice() } else { b"" })?;
                bytes.extend_from_slice(part.as_bytes())?;
            }
        }
    }
    Ok(List::from_vec(bytes))
}

/// Writes bytes so that each can be seen.
pub fn show_bytes(alloc: Global, text: &mut String, bytes: &[u8]) -> Result<(), AllocError> {
    let shown = String::from_utf8_lossy(alloc, bytes)?;
    for character in shown.as_str().chars() {
        match character {
            '\r' => text.push_str("<0D>")?,
            '\u{FEFF}' => text.push_str("<EF><BB><BF>")?,
            _ => text.push(character)?,
        }
    }
    Ok(())
}
