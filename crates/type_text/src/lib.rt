//! Types, casts, built-in rows, resolution and common types, each as a subject of worked cases.
#![tactic(auto)]

mod casts;
mod constants;
mod resolution;
mod rows;
mod types;

pub use casts::Casts;
pub use constants::Constants;
pub use resolution::{CommonTypes, Resolution};
pub use rows::Rows;
pub use types::{show_type, type_named};
