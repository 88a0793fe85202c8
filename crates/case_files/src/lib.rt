//! Files of worked cases: what is put in and the lines that have to come out, as plain text.
#![tactic(auto)]

mod case;
mod runner;

pub use case::{Case, Fault, cases};
pub use runner::{Report, Subject, Tally, show_failure, told, tried};
