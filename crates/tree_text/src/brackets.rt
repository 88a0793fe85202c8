//! Trees as fully bracketed texts: the tokens of a tree, with brackets round what operators make and
//! braces round queries.

use crate::parts::Part;
use crate::words::{Done, say, say_bytes};
use sq_syntax::{Expression, Query, Token};
use std::alloc::Global;

/// Whether operators, tests or subscripts make the expression.
fn is_joined(form: &Expression) -> bool {
    match form {
        Expression::Subscript(_, _)
        | Expression::Converted(_, _)
        | Expression::Signed(_, _)
        | Expression::Collated(_, _)
        | Expression::AtTimeZone(_, _)
        | Expression::Operation(_, _)
        | Expression::Between(_, _, _, _, _)
        | Expression::InList(_, _, _)
        | Expression::InQuery(_, _, _)
        | Expression::Like(_, _, _, _)
        | Expression::Compared(_, _, _)
        | Expression::AnyArray(_, _, _, _)
        | Expression::AnyQuery(_, _, _, _)
        | Expression::Tested(_, _)
        | Expression::Distinct(_, _, _)
        | Expression::Not(_, _)
        | Expression::And(_, _)
        | Expression::Or(_, _) => true,
        _ => false,
    }
}

/// The numbers of the first and the last token of a tree.
pub fn span(part: Part<'_>) -> Option<(usize, usize)> {
    match part {
        Part::Expression(x) => Some((x.first as usize, x.last as usize)),
        Part::Query(query) => Some((query.first as usize, query.last as usize)),
        Part::Stretch(_, first, last) => Some((first as usize, last as usize)),
        Part::Factor(_) | Part::From(_) | Part::Word(_, _) => None,
    }
}

/// The number of operands of each chain of INTERSECT, where there are several.
fn say_counts(text: &mut String, query: &Query) -> Done {
    if query.body.links.len() == 0 && query.body.first.links.len() == 0 {
        return Ok(());
    }
    let first = query.body.first.links.len().saturating_add(1);
    write!(text, " {first}")?;
    for link in query.body.links.as_slice() {
        let count = link.operand.links.len().saturating_add(1);
        write!(text, " {count}")?;
    }
    Ok(())
}

/// Writes what stands before the token of this number, the outer trees first.
fn open(text: &mut String, parts: &[Part<'_>], number: usize) -> Done {
    for part in parts {
        match (part, span(*part)) {
            (Part::Expression(x), Some((first, _))) if first == number && is_joined(&x.form) => {
                say(text, "(")?
            }
            (Part::Query(query), Some((first, _))) if first == number => {
                say(text, "{")?;
                say_counts(text, query)?;
            }
            _ => {}
        }
    }
    Ok(())
}

/// Writes what stands behind the token of this number, the inner trees first.
fn close(text: &mut String, parts: &[Part<'_>], number: usize) -> Done {
    for part in parts.iter().rev() {
        match (part, span(*part)) {
            (Part::Expression(x), Some((_, last))) if last == number && is_joined(&x.form) => {
                say(text, ")")?
            }
            (Part::Query(_), Some((_, last))) if last == number => say(text, "}")?,
            _ => {}
        }
    }
    Ok(())
}

/// Writes the tree of the tokens that has these parts, of which the first is the whole.
pub fn say_tree(alloc: Global, text: &mut String, tokens: &[Token], parts: &[Part<'_>]) -> Done {
    let whole = parts.first().and_then(|whole| span(*whole));
    let (first, last) = whole.unwrap_or((1, 0));
    for (number, token) in tokens.iter().enumerate() {
        if first <= number && number <= last {
            open(text, parts, number)?;
            say_bytes(alloc, text, token.bytes.as_slice())?;
            close(text, parts, number)?;
        }
    }
    Ok(())
}
