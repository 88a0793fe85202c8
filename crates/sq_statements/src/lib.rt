//! Statements, each held in a box that one call drops, and how high their expressions are.
#![tactic(auto)]

mod height;
mod held_statement;

pub use height::statement_height;
pub use held_statement::{HeldStatement, boxed};
