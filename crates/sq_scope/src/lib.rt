//! What names stand for, and the types of parameters.
#![tactic(auto)]

mod demands;
mod ranges;
mod refusing;
mod scope;
mod settling;
mod tables;

pub use demands::{Demand, Demands};
pub use ranges::{Began, Level, Range, RangeColumn, Ranges};
pub use refusing::{keeping, naming};
pub use scope::{Found, Scope, last_name, place_of};
pub use settling::{is_same_type, is_unknown, settled};
pub use tables::{TableRange, aliased, table_range};
