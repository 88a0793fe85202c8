ghost use Rattle.std.specs.Prelude.{◌≡◌, IfOk};
ghost use Rattle.sq_base.specs.Folding.{folded, whole_front};

use crate::Name;
use std::alloc::{AllocError, Global};
use std::str::from_utf8;

/// The longest front of whole characters that has at most 63 bytes.
pub fn whole_front(text: &str) -> &str
    ensures { result.now ≡ whole_front 63 text.now }
{
    let bytes = text.as_bytes();
    let front = &bytes[..bytes.len().min(63)];
    match from_utf8(front) {
        Ok(front) => front,
        Err(error) => from_utf8(&front[..error.valid_up_to()]).unwrap(),
    }
}

/// The name of a word: its ASCII letters are lowered, and it is cut to the longest front of whole
/// characters that has at most 63 bytes.
pub fn fold(alloc: Global, text: &str) -> Result<Name, AllocError>
    ensures { IfOk result (λ name. name ≡ folded text.now) }
{
    let mut name = String::from_str(alloc, whole_front(text))?;
    name.make_ascii_lowercase();
    Ok(Name::from_string(name))
}
