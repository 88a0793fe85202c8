//! The files of Go: models, and :many queries without parameters.
#![tactic(auto)]

mod body;
mod clash;
mod database;
mod files;
mod line;
mod many;
mod raw;
mod row;

pub use clash::go_clash;
pub use files::go_files;
