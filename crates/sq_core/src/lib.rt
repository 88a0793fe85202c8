//! The core of statements: its types, what a run of it gives, and that what is typed is never stuck.
#![tactic(auto)]

mod laws;
mod node;
mod routine;
mod statement;
mod weak;

pub use laws::{
    aggregates_are_strict, calls_are_never_stuck, empty_tables_fit, every_row_is_possible,
    inserted_row_is_returned, one_column_gives_what_is_stored, operations_are_typed, plus_is_a_row,
    select_of_columns_is_typed, sum_of_nothing_is_null, text_addition_is_stuck, text_is_as_written,
    typed_is_never_stuck,
};
pub use node::{Node, Query, Source, Step};
pub use routine::{
    Aggregation, Change, Extremum, Inner, JoinKind, Joining, Junction, Manner, Merged, Operation,
    Routine, SetKind, SetLink, Slot, Truth,
};
pub use statement::{Assignment, Cell, Conflict, CoreStatement, Entries};
pub use weak::Weak;
