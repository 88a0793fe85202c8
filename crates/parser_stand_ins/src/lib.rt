//! Stand-ins for the public functions of the parsers, whose proofs take long: each has the contract of
//! one of them, and calls it. The edits beside them put wrong answers in the calls' places, which
//! shows for little time that the contracts refuse those.
#![tactic(auto)]

pub mod expressions;
pub mod heights;
pub mod lexemes;
pub mod statements;
pub mod words;
