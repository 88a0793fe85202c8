//! Names, lists, places, limits and refusals, and what the program meets outside itself: a tree of files to
//! read, an output for whole files, and a screen.
#![tactic(auto)]

mod calls;
mod casts;
mod categories;
mod code;
mod constant;
mod conversion;
mod file;
mod folding;
pub mod limits;
mod list;
mod memory_out;
mod memory_sink;
mod memory_tree;
mod name;
mod no_form;
mod out;
mod place;
mod refusal;
mod sink;
mod still_out;
mod still_sink;
mod still_tree;
mod tree;
mod types;

pub use casts::cast;
pub use categories::{category, is_base, preferred};
pub use code::Code;
pub use constant::constant_type;
pub use conversion::{Cast, Category};
pub use file::File;
pub use folding::{fold, whole_front};
pub use list::List;
pub use memory_out::MemoryOut;
pub use memory_sink::MemorySink;
pub use memory_tree::MemoryTree;
pub use name::Name;
pub use no_form::NoForm;
pub use out::{Out, OutFault};
pub use place::Place;
pub use refusal::{Fault, Refusal};
pub use sink::{Sink, SinkFault};
pub use still_out::StillOut;
pub use still_sink::StillSink;
pub use still_tree::StillTree;
pub use tree::{Listing, Tree, TreeFault};
pub use types::{
    CIDR, CITEXT, HSTORE, INET, LTREE, MACADDR, MONEY, POINT, PgType, Scalar, TSVECTOR, XML,
};
