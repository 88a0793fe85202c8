//! The replay of schema statements over a catalogue.
#![tactic(auto)]

mod asking;
mod columns;
mod labels;
mod laws;
mod names;
mod replaying;
mod tables;
mod types;

pub use laws::{replay_keeps, replay_keeps_names};
pub use replaying::replay;
pub use types::{Typed, type_of};
