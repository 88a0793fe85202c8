//! Stand-ins for the public functions of a run, of its plan and of its configuration: each has the
//! contract of one of them, and calls it. The edits beside them put wrong answers in the calls' places,
//! which shows for little time that the contracts refuse those.
#![tactic(auto)]

pub mod configurations;
pub mod plans;
pub mod runs;
