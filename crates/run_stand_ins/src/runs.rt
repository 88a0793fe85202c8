//! The top call.

ghost use Rattle.std.specs.Prelude.{◌≡◌, map, string_bytes};
ghost use Rattle.sq_run.specs.Promises.{Promises};
ghost use Rattle.sq_run.specs.Run.{outside};

use sq_base::{Out, Sink, Tree};
use sq_plan::Status;
use sq_run::Inputs;
use std::alloc::Global;

pub fn sqlc<T: Tree, O: Out, S: Sink>(
    alloc: Global,
    inputs: Inputs,
    tree: &mut T,
    out: &mut O,
    screen: &mut S,
) -> Status
    ensures { Promises (map string_bytes inputs.words.items) (outside (T.state tree.old) (O.state out.old) (S.state screen.old)) (outside (T.state tree.new) (O.state out.new) (S.state screen.new)) result }
{
    sq_run::sqlc(alloc, inputs, tree, out, screen)
}
