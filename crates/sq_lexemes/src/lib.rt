//! Tokens as the grammar sees them, and the names, types and operators that are read of them.
#![tactic(auto)]

pub mod cursor;
pub mod error;
pub mod lexemes;
pub mod lists;
pub mod look_up;
pub mod marks;
pub mod name_lists;
pub mod names;
pub mod nesting;
pub mod operators;
pub mod prepare;
pub mod texts;
pub mod types;
pub mod words;
