//! How expressions, queries, changes of data and schema statements are read, as definitions, and the
//! laws of their grammar.
#![tactic(auto)]

mod laws;
mod start;

pub use laws::{
    one_ddl, one_expression, one_query, one_statement, read_ddl_exactly, read_exactly,
    read_statements_exactly,
};
pub use start::Start;
