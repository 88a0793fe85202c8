//! Parts of the trees of expressions and queries, each held in a box that one call drops.
//!
//! Contracts see the part itself. A part by value, or a drop that goes through its types, is laid
//! out anew in each function; a box in a struct that is not generic is not.
#![tactic(auto)]

mod expression;
mod from;
mod lists;
pub mod nodes;
mod queries;
mod select;

pub use expression::{HeldArguments, HeldExpression};
pub use from::{HeldFrom, HeldJoin, HeldSource};
pub use lists::{froms, outputs, withs};
pub use queries::{HeldBody, HeldChain, HeldFactor, HeldQuery};
pub use select::{HeldDistinctness, HeldSelect};
