ghost use Rattle.std.specs.Prelude.{◌≡◌, IfOk, IfErr, is_some, true, map, string_bytes};
ghost use Rattle.std.specs.Option.{option_copied};
ghost use Rattle.sq_base.specs.Files;
ghost use Rattle.sq_config.specs.CommandLine;
ghost use Rattle.sq_config.specs.CommandLine.{request_of};

use sq_base::Name;
use std::alloc::{AllocError, Global};

/// What the program is asked to do with a project.
#[derive(Clone, Copy, Debug, PartialEq, Eq)]
pub enum Task {
    /// Judge it, and write its files.
    Generate,
    /// Judge it, and write no file.
    Compile,
}

/// What the words of the command line ask for.
#[derive(Debug, Drop)]
pub struct Request {
    pub task: Task,
    /// The path of the configuration file.
    pub path: Name,
}

/// The task that a word names.
fn task_of(word: &str) -> Option<Task>
    ensures { result ≡ CommandLine.task_of word.now }
{
    match word {
        "generate" => Some(Task::Generate),
        "compile" => Some(Task::Compile),
        _ => None,
    }
}

/// A path, unless it is empty.
fn not_empty(path: &str) -> Option<&str>
    ensures { option_copied result ≡ CommandLine.not_empty path.now }
{
    if path.is_empty() { None } else { Some(path) }
}

/// What stands behind the start of a word that begins so.
fn behind<'a>(start: &str, word: &'a str) -> Option<&'a str>
    ensures { option_copied result ≡ Files.behind start.now word.now }
{
    word.strip_prefix(start)
}

/// Whether a word says that the next one is the path.
fn announces_path(word: &str) -> bool
    ensures { result ≡ CommandLine.announces_path word.now }
{
    word == "-f" || word == "--file"
}

/// The path in one word, `--file=PATH`.
fn path_in(word: &str) -> Option<&str>
    ensures { option_copied result ≡ CommandLine.path_in word.now }
{
    match behind("--file=", word) {
        Some(path) => not_empty(path),
        None => None,
    }
}

/// The path of the configuration file that the words behind the task name.
fn path_of(words: &[String]) -> Option<&str>
    ensures { option_copied result ≡ CommandLine.path_of (map string_bytes words.now) }
{
    match words {
        [] => Some("sqlc.json"),
        [word] => path_in(word.as_str()),
        [word, path] if announces_path(word.as_str()) => not_empty(path.as_str()),
        _ => None,
    }
}

/// Reads the words of the command line, without the program's own name: `generate` or `compile`, and
/// behind it nothing, `-f PATH`, `--file PATH` or `--file=PATH`. The path is not empty, and may begin with
/// `-`; where none is named it is `sqlc.json`. Any other list of words asks for nothing.
pub fn read_words(alloc: Global, words: &[String]) -> Result<Option<Request>, AllocError>
    ensures request { IfOk result (λ request. request ≡ request_of (map string_bytes words.now)) }
    ensures command { IfErr result (λ _. is_some (request_of (map string_bytes words.now)) ≡ true) }
{
    let [command, rest @ ..] = words else {
        return Ok(None);
    };
    match (task_of(command.as_str()), path_of(rest)) {
        (Some(task), Some(path)) => Ok(Some(Request {
            task,
            path: Name::new(alloc, path)?,
        })),
        _ => Ok(None),
    }
}
