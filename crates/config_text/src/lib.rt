//! Command lines, configurations and their paths, each as a subject of worked cases.
#![tactic(auto)]

mod configurations;
mod paths;
mod words;

pub use configurations::Configurations;
pub use paths::{Folders, Paths};
pub use words::Words;
