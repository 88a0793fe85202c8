//! The plan of a run: what it reads of the tree, how its parts end together, what it puts and what it prints.
#![tactic(auto)]

mod deliver;
mod entries;
mod halt;
mod joining;
mod lines;
mod outputs;
mod read;
mod rollback;
mod so_far;
mod status;

pub use deliver::{PutFault, Report, put_accepted, report_of, show, tell_memory};
pub use entries::{Purpose, files_in};
pub use halt::{Ending, Finding, Halt, Spot};
pub use joining::{Joined, append, ending, join};
pub use outputs::{Output, outputs_of};
pub use read::{Role, START, list_path, read_whole, refuse, refuse_file};
pub use rollback::before_rollback;
pub use so_far::{SoFar, list_refusal};
pub use status::Status;
