//! Tokens as the grammar sees them, within the limits.

ghost use Rattle.std.specs.Prelude.{◌≡◌, ◌≤◌, map, length, IfOk, MatchOption};
ghost use Rattle.sq_syntax.specs.Facts as facts;
ghost use Rattle.sq_syntax.specs.Symbols.{lexeme};
ghost use Rattle.sq_lexemes.specs.Answers.{Exceeds, Prepares, Readable};
ghost use Rattle.sq_lexemes.specs.Cursor.{AreTexts};

use sq_base::{Code, Fault, List};
use sq_syntax::{Lexeme, Token};
use std::alloc::{AllocError, Global};

pub fn lexemes(alloc: Global, tokens: &[Token]) -> Result<List<Lexeme>, AllocError>
    ensures value { IfOk result (λ found. found ≡ map lexeme tokens.now) }
    ensures texts { IfOk result (λ found. AreTexts found) }
{
    sq_lexemes::lexemes::lexemes(alloc, tokens)
}

pub fn nesting_depth(lexemes: &[Lexeme]) -> usize
    ensures value { result ≡ facts.depth_before (map (λ x. x.reading) lexemes.now) 0 }
    ensures within { result ≤ length lexemes.now }
{
    sq_lexemes::nesting::nesting_depth(lexemes)
}

pub fn exceeded(tokens: &[Token], found: &[Lexeme]) -> Option<Code>
    requires { found.now ≡ map lexeme tokens.now }
    ensures { MatchOption result (Readable tokens.now) (λ code. Exceeds tokens.now code) }
{
    sq_lexemes::prepare::exceeded(tokens, found)
}

pub fn prepared(alloc: Global, tokens: &[Token]) -> Result<List<Lexeme>, Fault>
    ensures { Prepares tokens.now result }
{
    sq_lexemes::prepare::prepared(alloc, tokens)
}
