//! What the words ask is judged, up to the files that are to be put.

ghost use Rattle.std.specs.Prelude.{◌≡◌, ◌∷◌, [], Some, IfOk, map, string_bytes};
ghost use Rattle.sq_config.specs.declared.command_line.Task.TheVariants.{Compile};
ghost use Rattle.sq_plan.specs.Asked.{Follows, Judges};
ghost use Rattle.sq_plan.specs.Deliver.{files_of};
ghost use Rattle.sq_plan.specs.Findings.{of_whole};
ghost use Rattle.sq_plan.specs.Halts.{IsRefusalOf};
ghost use Rattle.sq_run.specs.Project.{configured, configuration_at, done_for, put_by, requested, is_command, task_asked, Judging};

use crate::blocks::judge_configured;
use sq_base::{File, List, Name, Refusal, Tree};
use sq_config::{BadConfiguration, Block, Task, Unread, configuration_of, folder_of, read_words};
use sq_plan::{Ending, Halt, Role, START, Spot, read_whole, refuse};
use std::alloc::Global;

/// Refuses a configuration.
fn refuse_configuration(alloc: Global, path: &str, bad: BadConfiguration) -> Halt
    ensures { IsRefusalOf (of_whole path.now bad.code bad.first ∷ []) result }
{
    let BadConfiguration { code, first } = bad;
    let refusal = Refusal {
        code,
        place: START,
        first,
        second: Name::empty(alloc),
    };
    refuse(alloc, path, Spot::Whole, refusal)
}

/// Judges the configuration at a path.
fn configure(alloc: Global, path: &str, bytes: &[u8]) -> Result<List<Block>, Halt>
    ensures { Judges (configured path.now bytes.now) result }
{
    match configuration_of(alloc, folder_of(path), bytes) {
        Ok(configuration) => Ok(configuration.blocks),
        Err(Unread::Bad(bad)) => Err(refuse_configuration(alloc, path, bad)),
        Err(Unread::Memory) => Err(Halt::Memory),
    }
}

/// Reads the configuration at a path.
fn read_configuration<T: Tree>(alloc: Global, tree: &mut T, path: &str) -> Result<List<Block>, Halt>
    ensures { Follows (configuration_at path.now) (T.state tree.old) (T.state tree.new) result }
{
    let bytes = read_whole(alloc, tree, Role::Configuration, path)?;
    configure(alloc, path, bytes.as_slice())
}

/// Of these files, those that the task puts.
fn put_by(alloc: Global, task: Task, files: List<File>) -> List<File>
    ensures { result ≡ put_by task files }
{
    match task {
        Task::Generate => files,
        Task::Compile => List::new(alloc),
    }
}

/// Does the task for these blocks of the configuration at a path, up to the files that are to be put.
fn judge_task<T: Tree>(
    alloc: Global,
    tree: &mut T,
    task: Task,
    path: &str,
    blocks: &List<Block>,
) -> Result<List<File>, Halt>
    ensures follows { Follows (done_for (record { task = task; path = path.now }) blocks.now) (T.state tree.old) (T.state tree.new) result }
    ensures compiling { IfOk result (λ files. task ≡ Compile → files ≡ []) }
{
    let files = judge_configured(alloc, tree, path, blocks)?;
    Ok(put_by(alloc, task, files))
}

/// Does the task for the configuration at a path, up to the files that are to be put.
fn judge_request<T: Tree>(
    alloc: Global,
    tree: &mut T,
    task: Task,
    path: &str,
) -> Result<List<File>, Halt>
    ensures follows { Follows (requested (record { task = task; path = path.now })) (T.state tree.old) (T.state tree.new) result }
    ensures compiling { IfOk result (λ files. task ≡ Compile → files ≡ []) }
{
    let blocks = read_configuration(alloc, tree, path)?;
    judge_task(alloc, tree, task, path, &blocks)
}

/// Does what the words say, up to the files that are to be put.
pub fn judge_run<T: Tree>(alloc: Global, words: &[String], tree: &mut T) -> Ending
    ensures judging { Judging (map string_bytes words.now) (is_command (map string_bytes words.now)) (T.state tree.old) (T.state tree.new) result }
    ensures compiling { task_asked (map string_bytes words.now) ≡ Some Compile → files_of result ≡ [] }
{
    match read_words(alloc, words) {
        Ok(Some(request)) => Ending::Judged(judge_request(
            alloc,
            tree,
            request.task,
            request.path.as_str(),
        )),
        Ok(None) => Ending::Usage,
        Err(_) => Ending::Judged(Err(Halt::Memory)),
    }
}
