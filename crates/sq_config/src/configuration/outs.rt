ghost use Rattle.std.specs.Prelude.{◌≡◌, ◌++◌, map, IfOk, OnOk};
ghost use Rattle.sq_config.specs.Outs;

use crate::configuration::{Block, Entry};
use sq_base::Name;
use std::alloc::{AllocError, Global};
use std::collections::BTreeSet;

/// Adds entries at the end.
fn add_entries<'a>(all: &mut Vec<&'a Entry>, entries: &'a [Entry]) -> Result<(), AllocError>
    ensures { OnOk result (map (λ e. e.now) all.new.items ≡ map (λ e. e.now) all.old.items ++ entries.now) }
{
    for entry in entries {
        all.push(entry)?;
    }
    Ok(())
}

/// The entries of all blocks, in order.
pub fn all_entries<'a>(alloc: Global, blocks: &'a [Block]) -> Result<Vec<&'a Entry>, AllocError>
    ensures { IfOk result (λ all. map (λ e. e.now) all.items ≡ Outs.all_entries blocks.now) }
{
    let mut all = Vec::new(alloc);
    for block in blocks {
        add_entries(&mut all, block.entries.as_slice())?;
    }
    Ok(all)
}

/// The key of the first entry whose path is that of an entry before it.
pub fn same_out(alloc: Global, entries: &[&Entry]) -> Result<Option<Name>, AllocError>
    ensures { IfOk result (λ key. key ≡ Outs.same_out (map (λ e. e.now) entries.now)) }
{
    let mut seen = BTreeSet::new(alloc);
    for entry in entries {
        if !seen.insert(entry.path.as_str())? {
            return Ok(Some(entry.key.copy(alloc)?));
        }
    }
    Ok(None)
}

/// The name of the first writer that is not there.
pub fn other_writer(alloc: Global, entries: &[&Entry]) -> Result<Option<Name>, AllocError>
    ensures { IfOk result (λ writer. writer ≡ Outs.other_writer (map (λ e. e.now) entries.now)) }
{
    for entry in entries {
        if entry.writer.as_str() != "go" {
            return Ok(Some(entry.writer.copy(alloc)?));
        }
    }
    Ok(None)
}
