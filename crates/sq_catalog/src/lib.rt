//! The catalogue that the migrations of a project give: its tables with their columns.
#![tactic(auto)]

mod action;
mod catalogue;
mod change;
mod columns;
mod dropping;
mod keys;
mod labels;
mod laws;
mod table;
mod tables;
mod type_words;
mod user_types;

pub use catalogue::Catalogue;
pub use change::{Action, Beside, Cause, Change, ChangeFault, Keys, NewKey, Target};
pub use columns::{column, placed_column};
pub use keys::primary_key;
pub use laws::{
    base_is_held, empty_has_names, empty_is_catalogue, step_keeps, step_keeps_names,
    type_named_is_held,
};
pub use table::{Column, DomainType, EnumType, Key, Table};
