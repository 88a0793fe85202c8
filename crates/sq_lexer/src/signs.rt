//! Runs of signs: each is an operator of its own, and is known without a scan.

ghost use Rattle.std.specs.Prelude.{◌≡◌};
ghost use Rattle.sq_lexer.specs.Reading.{ends_signs, more_signs, lone_signs};

use crate::item::next_class;
use crate::machine::{breaks_off, in_operator, is_sign};
use sq_syntax::{ByteClass, class_of};

fn ends_signs(last: ByteClass, class: ByteClass, next: Option<ByteClass>) -> bool
    ensures { result ≡ ends_signs last class next }
{
    !in_operator(class) || breaks_off(last, Some(class)) || breaks_off(class, next)
}

/// How many signs follow a sign, if their run is no part of a longer operator.
fn more_signs(last: ByteClass, bytes: &[u8]) -> Option<usize>
    ensures { result ≡ more_signs last bytes.now }
{
    let mut last = last;
    for (index, byte) in bytes.iter().enumerate() {
        let class = class_of(*byte);
        if !is_sign(class) || breaks_off(last, Some(class)) {
            return if ends_signs(last, class, next_class(&bytes[index + 1..])) {
                Some(index)
            } else {
                None
            };
        }
        last = class;
    }
    Some(bytes.len())
}

/// How many signs in front are operators of their own.
pub(crate) fn lone_signs(bytes: &[u8]) -> usize
    ensures { result ≡ lone_signs bytes.now }
{
    match bytes.split_first() {
        Some((first, others)) => {
            let class = class_of(*first);
            if is_sign(class) {
                more_signs(class, others).unwrap_or(0)
            } else {
                0
            }
        }
        None => 0,
    }
}
