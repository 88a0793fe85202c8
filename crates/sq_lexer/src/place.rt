//! Places and gaps.

ghost use Rattle.std.specs.Prelude.{◌≡◌, ◌<◌, ◌≤◌, ◌+◌, ◌^◌, length};
ghost use Rattle.sq_syntax.specs.Tokens.{after, after_byte, has_newline, gap_after, file_start, begins_line};

use sq_base::Place;
use sq_syntax::Gap;

fn after_byte(place: Place, byte: u8) -> Place
    requires line { place.line + 1 < 2 ^ 32 }
    requires column { place.column + 1 < 2 ^ 32 }
    ensures { result ≡ after_byte place byte }
{
    if byte == b'\n' {
        Place {
            file: place.file,
            line: place.line + 1,
            column: 1,
        }
    } else {
        Place {
            file: place.file,
            line: place.line,
            column: place.column + 1,
        }
    }
}

/// The place after these bytes.
#[tactic(auto, using(crate::proofs::PlaceLemmas::places))]
pub(crate) fn after(place: Place, bytes: &[u8]) -> Place
    requires line { place.line + length bytes.now < 2 ^ 32 }
    requires column { place.column + length bytes.now < 2 ^ 32 }
    ensures exact { result ≡ after place bytes.now }
    ensures line { result.line ≤ place.line + length bytes.now }
    ensures column { result.column ≤ place.column + length bytes.now }
{
    let mut now = place;
    for byte in bytes {
        now = after_byte(now, *byte);
    }
    now
}

fn has_newline(bytes: &[u8]) -> bool
    ensures { result ≡ has_newline bytes.now }
{
    for byte in bytes {
        if *byte == b'\n' {
            return true;
        }
    }
    false
}

/// The gap that has come where these bytes stand between two tokens too.
pub(crate) fn gap_after(gap: Gap, bytes: &[u8]) -> Gap
    ensures { result ≡ gap_after gap bytes.now }
{
    if has_newline(bytes) || matches!(gap, Gap::Line) {
        Gap::Line
    } else {
        Gap::Blank
    }
}

/// The first place of a file.
pub(crate) fn file_start(file: u32) -> Place
    ensures { result ≡ file_start file }
{
    Place {
        file,
        line: 1,
        column: 1,
    }
}

/// Whether a line begins here.
pub(crate) fn begins_line(place: Place) -> bool
    ensures { result ≡ begins_line place }
{
    place.column == 1
}
