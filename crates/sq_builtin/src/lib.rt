//! The built-in operators, functions and aggregates of PostgreSQL.
#![tactic(auto)]

mod functions;
mod group;
mod input;
mod look_up;
mod operators;
mod output;
mod parts;
mod row;
mod table;

pub use look_up::{known, rows};
pub use row::{Kind, Pattern, Row, Shape};
