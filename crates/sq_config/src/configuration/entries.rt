ghost use Rattle.std.specs.Prelude.{◌≡◌, ◌++◌, [], false, codes, IfOk, OnOk};
ghost use Rattle.std.specs.Option.{option_map_or};
ghost use Rattle.serde_json.specs.Find.{get};
ghost use Rattle.serde_json.specs.View.{view, items_view};
ghost use Rattle.sq_config.specs.KeyPaths.{key_in};
ghost use Rattle.sq_config.specs.Meaning;

use crate::configuration::key_paths::{item_in, key_in};
use crate::configuration::meaning::{pairs_in, paths_at, text_at};
use crate::configuration::{Block, Configuration, Entry, OptionPair, Options};
use crate::joined_path;
use serde_json::Value;
use sq_base::{List, Name};
use std::alloc::{AllocError, Global};

/// The entry of a writer, from the object that holds `out`.
fn entry_of(
    alloc: Global,
    folder: &str,
    key: Name,
    writer: &str,
    pairs: List<OptionPair>,
    value: &Value,
) -> Result<Entry, AllocError>
    ensures { IfOk result (λ entry. entry ≡ Meaning.entry_of folder.now key writer.now pairs (view value.now)) }
{
    let out = text_at("out", value);
    Ok(Entry {
        writer: Name::new(alloc, writer)?,
        options: Options {
            out: Name::new(alloc, out)?,
            pairs,
        },
        path: joined_path(alloc, folder, out)?,
        key,
    })
}

/// The entry of the object `go`.
fn go_entry(alloc: Global, folder: &str, at: Name, value: &Value) -> Result<Entry, AllocError>
    ensures { IfOk result (λ entry. entry ≡ Meaning.go_entry folder.now at (view value.now)) }
{
    let pairs = pairs_in(alloc, true, value)?;
    entry_of(alloc, folder, at, "go", pairs, value)
}

/// Adds the entry of `gen`.
fn add_gen(
    alloc: Global,
    folder: &str,
    at: &str,
    value: &Value,
    entries: &mut List<Entry>,
) -> Result<(), AllocError>
    ensures { OnOk result (entries.new ≡ entries.old ++ Meaning.gen_entries folder.now at.now (view value.now)) }
{
    match value.get("go") {
        Some(go) => {
            let key = key_in(alloc, at, "go")?;
            entries.push(go_entry(alloc, folder, key, go)?)
        }
        None => Ok(()),
    }
}

/// The options of a plugin.
fn plugin_pairs(alloc: Global, value: &Value) -> Result<List<OptionPair>, AllocError>
    ensures { IfOk result (λ pairs. pairs ≡ option_map_or (Meaning.pairs_in false) (get (codes "options") (view value.now)) []) }
{
    match value.get("options") {
        Some(options) => pairs_in(alloc, false, options),
        None => Ok(List::new(alloc)),
    }
}

/// The entry of an item of `codegen`.
fn plugin_entry(alloc: Global, folder: &str, at: Name, value: &Value) -> Result<Entry, AllocError>
    ensures { IfOk result (λ entry. entry ≡ Meaning.plugin_entry folder.now at (view value.now)) }
{
    let pairs = plugin_pairs(alloc, value)?;
    entry_of(alloc, folder, at, text_at("plugin", value), pairs, value)
}

/// Adds the entries of the items of `codegen`.
fn add_plugins(
    alloc: Global,
    folder: &str,
    at: &str,
    items: &[Value],
    entries: &mut List<Entry>,
) -> Result<(), AllocError>
    ensures { OnOk result (entries.new ≡ entries.old ++ Meaning.plugin_entries folder.now at.now 0 (items_view items.now)) }
{
    for (index, item) in items.iter().enumerate() {
        let key = item_in(alloc, at, index)?;
        entries.push(plugin_entry(alloc, folder, key, item)?)?;
    }
    Ok(())
}

/// Adds the entry of a block's `gen`, if it has one.
fn add_block_gen(
    alloc: Global,
    folder: &str,
    at: &str,
    value: &Value,
    entries: &mut List<Entry>,
) -> Result<(), AllocError>
    ensures { OnOk result (entries.new ≡ entries.old ++ option_map_or (Meaning.gen_entries folder.now (key_in at.now (codes "gen"))) (get (codes "gen") (view value.now)) []) }
{
    match value.get("gen") {
        Some(object) => {
            let key = key_in(alloc, at, "gen")?;
            add_gen(alloc, folder, key.as_str(), object, entries)
        }
        None => Ok(()),
    }
}

/// Adds the entries of a block's `codegen`, if it has one.
fn add_block_codegen(
    alloc: Global,
    folder: &str,
    at: &str,
    value: &Value,
    entries: &mut List<Entry>,
) -> Result<(), AllocError>
    ensures { OnOk result (entries.new ≡ entries.old ++ option_map_or (Meaning.codegen_entries folder.now (key_in at.now (codes "codegen"))) (get (codes "codegen") (view value.now)) []) }
{
    match value.get("codegen") {
        Some(Value::Array(items)) => {
            let key = key_in(alloc, at, "codegen")?;
            add_plugins(alloc, folder, key.as_str(), items.as_slice(), entries)
        }
        _ => Ok(()),
    }
}

/// The entries of a block.
fn block_entries(
    alloc: Global,
    folder: &str,
    at: &str,
    value: &Value,
) -> Result<List<Entry>, AllocError>
    ensures { IfOk result (λ entries. entries ≡ Meaning.block_entries folder.now at.now (view value.now)) }
{
    let mut entries = List::new(alloc);
    add_block_gen(alloc, folder, at, value, &mut entries)?;
    add_block_codegen(alloc, folder, at, value, &mut entries)?;
    Ok(entries)
}

/// A block.
fn block_of(alloc: Global, folder: &str, at: &str, value: &Value) -> Result<Block, AllocError>
    ensures { IfOk result (λ block. block ≡ Meaning.block_of folder.now at.now (view value.now)) }
{
    Ok(Block {
        schema: paths_at(alloc, folder, "schema", value)?,
        queries: paths_at(alloc, folder, "queries", value)?,
        entries: block_entries(alloc, folder, at, value)?,
    })
}

/// The blocks of a list.
fn blocks_of(
    alloc: Global,
    folder: &str,
    at: &str,
    items: &[Value],
) -> Result<List<Block>, AllocError>
    ensures { IfOk result (λ blocks. blocks ≡ Meaning.blocks_of folder.now at.now 0 (items_view items.now)) }
{
    let mut blocks = List::new(alloc);
    for (index, item) in items.iter().enumerate() {
        let key = item_in(alloc, at, index)?;
        blocks.push(block_of(alloc, folder, key.as_str(), item)?)?;
    }
    Ok(blocks)
}

/// The blocks of `sql`.
fn sql_blocks(alloc: Global, folder: &str, value: &Value) -> Result<List<Block>, AllocError>
    ensures { IfOk result (λ blocks. blocks ≡ Meaning.sql_blocks folder.now (view value.now)) }
{
    match value {
        Value::Array(items) => blocks_of(alloc, folder, "sql", items.as_slice()),
        _ => Ok(List::new(alloc)),
    }
}

/// What a configuration in this folder says, whose shape is right.
pub fn meaning_of(alloc: Global, folder: &str, value: &Value) -> Result<Configuration, AllocError>
    ensures { IfOk result (λ configuration. configuration ≡ Meaning.meaning_of folder.now (view value.now)) }
{
    let blocks = match value.get("sql") {
        Some(sql) => sql_blocks(alloc, folder, sql)?,
        None => List::new(alloc),
    };
    Ok(Configuration { blocks })
}
