//! Stand-ins for the public functions of the lexer, the catalogue, the replay and the reader of Go
//! files, whose proofs take long: each has the contract of one of them, and calls it. The edits beside
//! them put wrong answers in the calls' places, which shows for little time that the contracts refuse
//! those. They stand apart from those of the parsers, whose libraries take long to load.
#![tactic(auto)]

pub mod catalogues;
pub mod files;
pub mod replays;
