//! Tokens, trees and refusals as texts, for files of worked cases.
#![tactic(auto)]

mod brackets;
mod limits;
mod parts;
mod places;
mod queries;
mod schemas;
mod statements;
mod subjects;
mod tokens;
mod words;

pub use limits::Limits;
pub use subjects::{Changes, Expressions, Places, Queries, Schemas};
pub use tokens::{Folded, Tokens};
