//! Which row of the table an operator or a call takes, and which type a list of types has in common.
#![tactic(auto)]

mod agreement;
mod answer;
mod choice;
mod converts;
mod domains;
mod fit;
mod laws;
mod mask;
mod picking;
mod slot;
mod test;

pub use agreement::common;
pub use answer::{Common, Picked};
pub use domains::{has_no_domain, has_no_domain_unless_one};
pub use laws::{agreed_convert, picked_accepts, rows_have_base_types};
pub use picking::pick;
