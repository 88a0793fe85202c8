//! The token list of a file.
#![tactic(auto)]

mod item;
mod law;
mod machine;
mod place;
mod reading;
mod signs;

pub use law::{one_token_list, printed_tokens_are_read_again, token_list_is_meant};
pub use reading::tokens;
