//! How deep tokens nest.

ghost use Rattle.std.specs.Prelude.{◌≡◌, ◌≤◌, map, length};
ghost use Rattle.sq_syntax.specs.Facts as facts;

use sq_syntax::{Lexeme, Reading, Symbol};

/// The greatest depth from a token on, where it is this after the token.
fn opens(reading: &Reading, depth: usize) -> usize
    requires { depth ≤ 18446744073709551614 }
    ensures { result ≡ facts.opens (facts.turn reading.now) depth }
{
    match reading {
        Reading::Symbol(Symbol::Open | Symbol::OpenSquare | Symbol::Case) => depth + 1,
        Reading::Symbol(Symbol::Close | Symbol::CloseSquare | Symbol::End) => {
            depth.saturating_sub(1)
        }
        _ => depth,
    }
}

/// How deep brackets and CASE nest.
pub fn nesting_depth(lexemes: &[Lexeme]) -> usize
    ensures value { result ≡ facts.depth_before (map (λ x. x.reading) lexemes.now) 0 }
    ensures within { result ≤ length lexemes.now }
{
    let mut depth = 0;
    let mut left = lexemes.len();
    while left > 0 {
        left -= 1;
        depth = opens(&lexemes[left].reading, depth);
    }
    depth
}
