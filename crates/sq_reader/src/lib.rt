//! What written Go files read as.
#![tactic(auto)]

mod database;
mod files;
mod forms;
mod groups;
mod items;
mod laws;
mod parts;
mod read;
mod settle;

pub use laws::{reads_as_one, reads_as_written};
pub use parts::Class;
pub use read::{ReadBack, read_go};
