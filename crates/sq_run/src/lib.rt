//! The top call: it judges a project that is read from a tree, puts files, and prints.
#![tactic(auto)]

mod blocks;
mod declare;
mod judge;
mod names;
mod project;
mod query;
mod run;
mod schema;
mod sources;
mod statements;
mod write;

pub use run::{Inputs, sqlc};
