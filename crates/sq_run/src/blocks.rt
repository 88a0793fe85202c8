//! The blocks of a configuration are read and judged, one after the other. `configuration` is its path.

ghost use Rattle.std.specs.Prelude.{◌≡◌};
ghost use Rattle.sq_plan.specs.Asked.{Follows};
ghost use Rattle.sq_run.specs.Project.{all_files, block_files, files_for, files_over};

use crate::declare::read_queries;
use crate::schema::read_schema;
use crate::write::write;
use sq_base::{File, List, Tree};
use sq_catalog::Catalogue;
use sq_config::Block;
use sq_plan::{Halt, Output, ending, join, outputs_of};
use std::alloc::Global;

/// The files of these outputs over a catalogue: reads the queries.
fn judge_over<T: Tree>(
    alloc: Global,
    tree: &mut T,
    configuration: &str,
    block: &Block,
    outputs: &[Output],
    catalogue: &Catalogue,
) -> Result<List<File>, Halt>
    ensures { Follows (files_over configuration.now block.now outputs.now catalogue.now) (T.state tree.old) (T.state tree.new) result }
{
    let queries = read_queries(alloc, tree, catalogue, block.queries.as_slice())?;
    write(alloc, configuration, catalogue, queries.as_slice(), outputs)
}

/// The files of these outputs: reads the schema, and then the queries.
fn judge_for<T: Tree>(
    alloc: Global,
    tree: &mut T,
    configuration: &str,
    block: &Block,
    outputs: &[Output],
) -> Result<List<File>, Halt>
    ensures { Follows (files_for configuration.now block.now outputs.now) (T.state tree.old) (T.state tree.new) result }
{
    let catalogue = read_schema(alloc, tree, configuration, block.schema.as_slice())?;
    judge_over(alloc, tree, configuration, block, outputs, &catalogue)
}

/// Reads a block and judges it.
fn judge_block<T: Tree>(
    alloc: Global,
    tree: &mut T,
    configuration: &str,
    block: &Block,
) -> Result<List<File>, Halt>
    ensures { Follows (block_files configuration.now block.now) (T.state tree.old) (T.state tree.new) result }
{
    let outputs = outputs_of(alloc, configuration, block.entries.as_slice())?;
    judge_for(alloc, tree, configuration, block, outputs.as_slice())
}

/// Reads all blocks, one after the other, and judges them.
fn judge_blocks<T: Tree>(
    alloc: Global,
    tree: &mut T,
    configuration: &str,
    blocks: &[Block],
) -> Result<List<File>, Halt>
    ensures { Follows (all_files configuration.now blocks.now) (T.state tree.old) (T.state tree.new) result }
{
    let mut so_far = Ok(List::new(alloc));
    for block in blocks {
        so_far = join(so_far, judge_block(alloc, tree, configuration, block))?;
    }
    ending(so_far)
}

/// Reads the blocks of a configuration and judges them.
pub fn judge_configured<T: Tree>(
    alloc: Global,
    tree: &mut T,
    configuration: &str,
    blocks: &List<Block>,
) -> Result<List<File>, Halt>
    ensures { Follows (all_files configuration.now blocks.now) (T.state tree.old) (T.state tree.new) result }
{
    judge_blocks(alloc, tree, configuration, blocks.as_slice())
}
