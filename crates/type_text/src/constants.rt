//! The types of number constants.

use crate::types::show_type;
use case_files::Subject;
use sq_base::constant_type;
use std::alloc::{AllocError, Global};

/// Number constants, one a line; each is answered by its type.
#[derive(Drop)]
pub struct Constants;

impl Subject for Constants {
    fn answer(&mut self, alloc: Global, input: &str) -> Result<String, AllocError> {
        let mut text = String::new(alloc);
        for line in input.lines() {
            text.push_str(line)?;
            text.push_str(": ")?;
            show_type(&mut text, constant_type(line.as_bytes()))?;
            text.push('\n')?;
        }
        Ok(text)
    }
}
