//! Parses schema statements: exactly the trees that the tokens spell.
//!
//! An expression in one of them, as in DEFAULT and CHECK, is kept as a run of tokens.
#![tactic(auto)]

mod actions;
mod ahead;
mod alter;
mod alter_type;
mod answer;
mod columns;
mod constraints;
mod create;
mod drops;
mod lists;
mod passed_over;
mod references;
mod runs;
mod table_constraints;
mod tails;
mod whole;

pub use answer::ddl;
