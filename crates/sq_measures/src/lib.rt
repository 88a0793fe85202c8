//! How high trees of expressions and queries are.
#![tactic(auto)]

mod measure;
mod part;
mod part_query;

pub use measure::{from_height, height, query_height};
