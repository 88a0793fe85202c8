//! Projects, replays, written Go files and what is read of them, each as a subject of worked cases.
#![tactic(auto)]

mod catalogue;
mod given;
mod identifiers;
mod layouts;
mod projects;
mod reading;
mod replays;
mod seen;

pub use identifiers::Identifiers;
pub use layouts::Layouts;
pub use projects::Projects;
pub use reading::Reading;
pub use replays::{Replays, statements};
