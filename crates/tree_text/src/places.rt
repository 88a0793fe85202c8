//! The places that a tree keeps: for each part a line with its place and its tokens, or its word.

use crate::brackets::span;
use crate::parts::Part;
use crate::words::{Done, say, say_bytes, write_place};
use sq_base::Place;
use sq_syntax::Token;
use std::alloc::{AllocError, Global};

fn place(part: Part<'_>) -> Option<Place> {
    match part {
        Part::Expression(x) => Some(x.place),
        Part::Query(query) => Some(query.place),
        Part::Stretch(place, _, _) | Part::Word(place, _) => Some(place),
        Part::Factor(_) | Part::From(_) => None,
    }
}

fn say_part(alloc: Global, text: &mut String, tokens: &[Token], part: Part<'_>) -> Done {
    if let Part::Word(_, word) = part {
        return say(text, word);
    }
    let (first, last) = span(part).unwrap_or((1, 0));
    for (number, token) in tokens.iter().enumerate() {
        if first <= number && number <= last {
            say_bytes(alloc, text, token.bytes.as_slice())?;
        }
    }
    Ok(())
}

/// The lines of the parts.
pub fn places(alloc: Global, tokens: &[Token], parts: &[Part<'_>]) -> Result<String, AllocError> {
    let mut text = String::new(alloc);
    for part in parts {
        if let Some(place) = place(*part) {
            write_place(&mut text, place)?;
            say_part(alloc, &mut text, tokens, *part)?;
            text.push('\n')?;
        }
    }
    Ok(text)
}
