ghost use Rattle.std.specs.Prelude.{◌≡◌, map, string_bytes};
ghost use Rattle.sq_run.specs.Promises.{Promises};
ghost use Rattle.sq_run.specs.Run.{outside, IsRun};

use crate::project::judge_run;
use sq_base::{Out, Sink, Tree};
use sq_catalog::empty_is_catalogue;
use sq_core::{select_of_columns_is_typed, text_is_as_written, typed_is_never_stuck};
use sq_lexer::printed_tokens_are_read_again;
use sq_migrate::replay_keeps;
use sq_plan::{Status, put_accepted, report_of, show, tell_memory};
use sq_reader::reads_as_written;
use sq_shown::{fields_are_apart, fields_are_words, identifiers_are_words};
use std::alloc::Global;

/// What the program is told.
#[derive(Debug, Drop)]
pub struct Inputs {
    /// The words of the command line, without the program's own name.
    pub words: Vec<String>,
}

/// The run, as it judges, puts and prints.
fn run<T: Tree, O: Out, S: Sink>(
    alloc: Global,
    words: &[String],
    tree: &mut T,
    out: &mut O,
    screen: &mut S,
) -> Status
    ensures { IsRun (map string_bytes words.now) (outside (T.state tree.old) (O.state out.old) (S.state screen.old)) (outside (T.state tree.new) (O.state out.new) (S.state screen.new)) result }
{
    let ending = judge_run(alloc, words, tree);
    let put = put_accepted(out, &ending);
    match report_of(alloc, &ending, put) {
        Ok(report) => show(screen, &report),
        Err(_) => tell_memory(screen),
    }
}

/// Does what the words say: reads a project from the tree, judges it, puts its files, and says on the
/// screen what went wrong.
pub fn sqlc<T: Tree, O: Out, S: Sink>(
    alloc: Global,
    inputs: Inputs,
    tree: &mut T,
    out: &mut O,
    screen: &mut S,
) -> Status
    ensures { Promises (map string_bytes inputs.words.items) (outside (T.state tree.old) (O.state out.old) (S.state screen.old)) (outside (T.state tree.new) (O.state out.new) (S.state screen.new)) result }
{
    empty_is_catalogue();
    replay_keeps();
    typed_is_never_stuck();
    select_of_columns_is_typed();
    text_is_as_written();
    identifiers_are_words();
    fields_are_words();
    fields_are_apart();
    reads_as_written();
    printed_tokens_are_read_again();
    run(alloc, inputs.words.as_slice(), tree, out, screen)
}
