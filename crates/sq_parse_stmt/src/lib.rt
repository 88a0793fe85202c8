//! Parses queries and changes of data: exactly the trees that the tokens spell.
#![tactic(auto)]

mod answer;
mod assignments;
mod changes;
mod clauses;
mod conflict;
mod rows;
mod statements;
mod table_names;

pub use answer::statement;
