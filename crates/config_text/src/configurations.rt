//! What a configuration is read as.

use case_files::Subject;
use sq_base::Name;
use sq_config::{Block, Entry, OptionPair, OptionValue, Unread, configuration_of, folder_of};
use std::alloc::{AllocError, Global};

/// The bytes of a text, in which the sign of a broken character stands for a byte that is no UTF-8.
fn bytes_of(alloc: Global, text: &str) -> Result<Vec<u8>, AllocError> {
    let mut bytes = Vec::new(alloc);
    let mut is_first = true;
    for part in text.split('\u{FFFD}') {
        if !is_first {
            bytes.push(0xFF)?;
        }
        bytes.extend_from_slice(part.as_bytes())?;
        is_first = false;
    }
    Ok(bytes)
}

/// Writes an option and its value.
fn show_pair(text: &mut String, pair: &OptionPair) -> Result<(), AllocError> {
    text.push_str(", ")?;
    text.push_str(pair.key.as_str())?;
    match &pair.value {
        OptionValue::Text(value) => {
            text.push_str(" '")?;
            text.push_str(value.as_str())?;
            text.push_str("'")
        }
        OptionValue::Flag(true) => text.push_str(" true"),
        OptionValue::Flag(false) => text.push_str(" false"),
        OptionValue::Other => text.push_str(" of another kind"),
    }
}

/// Writes an output: its writer, its folder joined and as written, its key, and the options.
fn show_entry(text: &mut String, entry: &Entry) -> Result<(), AllocError> {
    text.push_str(entry.writer.as_str())?;
    text.push_str(" into ")?;
    text.push_str(entry.path.as_str())?;
    text.push_str(", written ")?;
    text.push_str(entry.options.out.as_str())?;
    text.push_str(" at ")?;
    text.push_str(entry.key.as_str())?;
    for pair in entry.options.pairs.as_slice() {
        show_pair(text, pair)?;
    }
    text.push('\n')
}

/// Writes a line of paths.
fn show_paths(text: &mut String, head: &str, paths: &[Name]) -> Result<(), AllocError> {
    text.push_str(head)?;
    for path in paths {
        text.push(' ')?;
        text.push_str(path.as_str())?;
    }
    text.push('\n')
}

/// Writes a block: the paths of its schema and of its queries, and its outputs.
fn show_block(text: &mut String, block: &Block) -> Result<(), AllocError> {
    show_paths(text, "schema", block.schema.as_slice())?;
    show_paths(text, "queries", block.queries.as_slice())?;
    for entry in block.entries.as_slice() {
        show_entry(text, entry)?;
    }
    Ok(())
}

/// The path of a configuration, and its text: answered by its blocks, or by its refusal.
#[derive(Drop)]
pub struct Configurations;

impl Subject for Configurations {
    fn answer(&mut self, alloc: Global, input: &str) -> Result<String, AllocError> {
        let Some((path, json)) = input.split_once('\n') else {
            return String::from_str(alloc, "no configuration");
        };
        let bytes = bytes_of(alloc, json)?;
        let configuration = match configuration_of(alloc, folder_of(path), bytes.as_slice()) {
            Ok(configuration) => configuration,
            Err(Unread::Bad(bad)) => {
                let (number, word) = (bad.code.number(), bad.code.word());
                return format!(in alloc; "[{number}] {word} '{}'", bad.first.as_str());
            }
            Err(Unread::Memory) => return String::from_str(alloc, "out of memory"),
        };
        let mut text = String::from_str(alloc, "accepted\n")?;
        for block in configuration.blocks.as_slice() {
            show_block(&mut text, block)?;
        }
        Ok(text)
    }
}
