//! Parses expressions and queries: exactly the well-levelled trees that the tokens spell.
#![tactic(auto)]

mod answer;
mod brackets;
mod calls;
mod constants;
mod forms;
mod from;
mod grammar;
mod levels;
mod lists;
pub mod parts;
mod primaries;
mod queries;
mod query_words;
mod relations;
mod select;
mod whole;

pub use answer::{expression, query};
