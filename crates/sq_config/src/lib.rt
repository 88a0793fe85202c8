//! What the program is told: its command line, its configuration, and where the paths in it lead.
#![tactic(auto)]

mod command_line;
mod configuration;
mod paths;

pub use command_line::{Request, Task, read_words};
pub use configuration::{
    BadConfiguration, Block, Configuration, Entry, OptionPair, OptionValue, Options, Unread,
    configuration_of,
};
pub use paths::{folder_of, is_accepted_path, joined_path};
