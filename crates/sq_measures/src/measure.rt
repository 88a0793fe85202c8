ghost use Rattle.std.specs.Prelude.{◌≡◌, ◌-◌, ◌^◌, min};
ghost use Rattle.sq_syntax.specs.Grammar as spec;
ghost use Rattle.sq_measures.specs.Parts as parts;

use crate::part::{Part, steps};
use sq_syntax::{Expression, From, Node, Query};

fn more(part: Part<'_>) -> u32
    ensures { result ≡ min (parts.steps_of (parts.seen part.entry)) (2 ^ 32 - 1) }
{
    match part {
        Part::Expression(x) => steps(&x.form),
        _ => 0,
    }
}

fn measured(part: Part<'_>) -> u32
    ensures { result ≡ min (parts.height_of (parts.seen part.entry)) (2 ^ 32 - 1) }
{
    let mut most: u32 = 0;
    'groups: for group in 0..6 {
        let mut at: usize = 0;
        'parts: while let Some(inner) = part.within(group, at) {
            most = most.max(measured(inner));
            at += 1;
        }
    }
    most.saturating_add(more(part))
}

/// How high an expression's tree is: a leaf has the height 1, a chain of operators that of its
/// highest part and the number of its operators, and every other node one more than its highest
/// part. A query in it has the greatest height of its expressions. The count stands still at its
/// type's last value.
pub fn height(tree: &Node<Expression>) -> u32
    ensures { result ≡ min (spec.height tree.now) (2 ^ 32 - 1) }
{
    measured(Part::Expression(tree))
}

/// The greatest height of a query's expressions, up to the last value of its type.
pub fn query_height(tree: &Query) -> u32
    ensures { result ≡ min (spec.query_height tree.now) (2 ^ 32 - 1) }
{
    measured(Part::Query(tree))
}

/// The greatest height of the expressions of an item of FROM, up to the last value of its type.
pub fn from_height(tree: &From) -> u32
    ensures { result ≡ min (spec.from_height tree.now) (2 ^ 32 - 1) }
{
    measured(Part::From(tree))
}
