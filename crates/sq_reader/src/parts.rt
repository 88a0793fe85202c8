ghost use Rattle.std.specs.Prelude.{◌≡◌, ◌<◌, ◌≤◌, ◌+◌, ◌∷◌, [], length, take, drop, Ok, Some, None, IfOk, IfErr, MatchOption, OnOk, option_map};
ghost use Rattle.std.specs.List.{prefix_len};
ghost use Rattle.sq_reader.specs.Gives.{Gives};
ghost use Rattle.sq_reader.specs.Parts;
ghost use Rattle.sq_reader.specs.declared.parts.NoPart.TheVariants.{Absent, Memory};

use sq_base::{List, Name};
use std::alloc::{AllocError, AllocFailed, Global};

/// Bytes that stand together.
#[derive(Clone, Copy)]
pub enum Class {
    /// Letters, digits and the low line, as in a name.
    Word,
    /// Those of a name, dots and square brackets, as in a type.
    Spelling,
    /// Those of a name, dots, hyphens and slashes, as in an import's path.
    Path,
    /// Newlines, as in empty lines.
    Newline,
    /// Square brackets, as before an array's type.
    Bracket,
}

/// Why a part was not read.
#[derive(Drop)]
pub(crate) enum NoPart {
    Absent,
    Memory,
}

impl From<AllocError> for NoPart {
    ghost from_gives = { λ _ fault. fault ≡ Memory };

    fn from(_error: AllocError) -> NoPart {
        NoPart::Memory
    }
}

impl<T: Drop> From<AllocFailed<T>> for NoPart {
    ghost from_gives = { λ _ fault. fault ≡ Memory };

    fn from(_error: AllocFailed<T>) -> NoPart {
        NoPart::Memory
    }
}

/// The rest behind this front.
pub(crate) fn behind<'a>(text: &'a [u8], front: &[u8]) -> Result<&'a [u8], NoPart>
    ensures shorter { IfOk result (λ rest. length rest.now + length front.now ≡ length text.now) }
    ensures part { Gives (λ rest. rest.now) result (Parts.behind front.now text.now) }
{
    match text.strip_prefix(front) {
        Some(rest) => Ok(rest),
        None => Err(NoPart::Absent),
    }
}

/// The front before this end.
pub(crate) fn before<'a>(text: &'a [u8], end: &[u8]) -> Result<&'a [u8], NoPart>
    ensures { Gives (λ front. front.now) result (Parts.before end.now text.now) }
{
    match text.strip_suffix(end) {
        Some(front) => Ok(front),
        None => Err(NoPart::Absent),
    }
}

/// Whether the class has this byte.
fn is_allowed(class: Class, byte: u8) -> bool
    ensures { result ≡ Parts.allows class byte }
{
    match class {
        Class::Word => byte.is_ascii_alphanumeric() || byte == b'_',
        Class::Spelling => {
            byte.is_ascii_alphanumeric()
                || byte == b'_'
                || byte == b'.'
                || byte == b'['
                || byte == b']'
        }
        Class::Path => {
            byte.is_ascii_alphanumeric()
                || byte == b'_'
                || byte == b'.'
                || byte == b'-'
                || byte == b'/'
        }
        Class::Newline => byte == b'\n',
        Class::Bracket => byte == b'[' || byte == b']',
    }
}

/// How many bytes of the class stand at the front.
pub(crate) fn run_length(text: &[u8], class: Class) -> usize
    ensures length { result ≡ prefix_len (Parts.allows class) text.now }
    ensures within { result ≤ length text.now }
{
    for (place, byte) in text.iter().enumerate() {
        if !is_allowed(class, *byte) {
            return place;
        }
    }
    text.len()
}

/// The name or the type at the front, and the rest.
#[tactic(auto, unfolding(crate::specs::Parts::run_at))]
pub(crate) fn run_of<'a>(text: &'a [u8], class: Class) -> Result<(&'a [u8], &'a [u8]), NoPart>
    ensures shorter { IfOk result (λ x. length x.1.now < length text.now) }
    ensures part { Gives (λ x. (x.0.now, x.1.now)) result (Parts.run_at class text.now) }
{
    let length = run_length(text, class);
    if length == 0 {
        return Err(NoPart::Absent);
    }
    Ok((&text[..length], &text[length..]))
}

/// What is written outside of a raw string.
#[derive(Clone, Copy)]
struct Outside {
    bytes: &'static [u8],
    taken: usize,
}

/// What is written outside of a raw string behind a back-quote of it.
#[tactic(auto, unfolding(crate::specs::Parts::outside_at))]
fn outside_of(text: &[u8]) -> Option<Outside>
    ensures { MatchOption result (Parts.outside_at text.now ≡ None) (λ x. Parts.outside_at text.now ≡ Some (record { bytes = x.bytes.now; taken = x.taken })) }
{
    if text.starts_with(b"+\"`\"+`") {
        return Some(Outside {
            bytes: b"`",
            taken: 6,
        });
    }
    if text.starts_with(b"+\"\\r\"+`") {
        return Some(Outside {
            bytes: b"\r",
            taken: 7,
        });
    }
    if text.starts_with(b"+\"\\ufeff\"+`") {
        return Some(Outside {
            bytes: b"\xEF\xBB\xBF",
            taken: 11,
        });
    }
    None
}

/// Whether this stands in no raw string as it is.
fn is_outside(byte: u8, rest: &[u8]) -> bool
    ensures { result ≡ Parts.is_outside byte rest.now }
{
    byte == b'\r' || (byte == 0xEF && rest.starts_with(b"\xBB\xBF"))
}

/// Takes a byte of a raw string, and says how many of the next ones were read with it, or that the
/// string ends.
fn raw_step(
    text: &mut List<u8>,
    read: usize,
    byte: u8,
    rest: &[u8],
) -> Result<Option<usize>, NoPart>
    ensures absent { IfErr result (λ fault. fault ≡ Absent → Parts.raw_after (byte ∷ rest.now) read ≡ None) }
    ensures part { IfOk result (λ left. MatchOption left (Parts.onto text.old (Parts.raw_after (byte ∷ rest.now) read) ≡ Some (text.new, rest.now)) (λ n. Parts.onto text.old (Parts.raw_after (byte ∷ rest.now) read) ≡ Parts.onto text.new (Parts.raw_after rest.now n))) }
{
    if 0 < read {
        return Ok(Some(read - 1));
    }
    if byte == b'`' {
        let Some(outside) = outside_of(rest) else {
            return Ok(None);
        };
        text.extend_from_slice(outside.bytes)?;
        return Ok(Some(outside.taken));
    }
    if is_outside(byte, rest) {
        return Err(NoPart::Absent);
    }
    text.push(byte)?;
    Ok(Some(0))
}

/// What a raw string stands for, up to its closing back-quote.
pub(crate) fn raw_of<'a>(alloc: Global, text: &'a [u8]) -> Result<(List<u8>, &'a [u8]), NoPart>
    ensures shorter { IfOk result (λ x. length x.1.now < length text.now) }
    ensures part { Gives (λ x. (x.0, x.1.now)) result (Parts.raw_at text.now) }
{
    let mut raw = List::new(alloc);
    let mut read = 0;
    for (place, byte) in text.iter().enumerate() {
        let rest = &text[place + 1..];
        match raw_step(&mut raw, read, *byte, rest) {
            Ok(Some(left)) => read = left,
            Ok(None) => return Ok((raw, rest)),
            Err(fault) => return Err(fault),
        }
    }
    Err(NoPart::Absent)
}
