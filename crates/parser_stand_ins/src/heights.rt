//! How high trees are.

ghost use Rattle.std.specs.Prelude.{◌≡◌, ◌-◌, ◌^◌, min};
ghost use Rattle.sq_syntax.specs.Grammar as grammar;
ghost use Rattle.sq_syntax.specs.Statements as statements;

use sq_syntax::{Expression, From, Node, Query, Statement};

pub fn height(tree: &Node<Expression>) -> u32
    ensures { result ≡ min (grammar.height tree.now) (2 ^ 32 - 1) }
{
    sq_measures::height(tree)
}

pub fn query_height(tree: &Query) -> u32
    ensures { result ≡ min (grammar.query_height tree.now) (2 ^ 32 - 1) }
{
    sq_measures::query_height(tree)
}

pub fn from_height(tree: &From) -> u32
    ensures { result ≡ min (grammar.from_height tree.now) (2 ^ 32 - 1) }
{
    sq_measures::from_height(tree)
}

pub fn statement_height(tree: &Statement) -> u32
    ensures { result ≡ min (statements.statement_height tree.now) (2 ^ 32 - 1) }
{
    sq_statements::statement_height(tree)
}
