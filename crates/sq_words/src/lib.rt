//! Words of statements that expressions do not know, read by their letters.
#![tactic(auto)]

mod words;

pub use words::{
    begins, begins_both, behavior, expect_word, if_exists, if_not_exists, is, is_one_of,
    optional_word, sees_both, sees_word,
};
