//! The files of one key of a block: its paths are listed, and then the files that they stand for are read.

ghost use Rattle.std.specs.Prelude.{◌≡◌, ◌∷◌, ◌≤◌, ◌<◌, [], length, IfOk, Ok, Err};
ghost use Rattle.sq_lexer.specs.TokenList.{token_list};
ghost use Rattle.sq_plan.specs.Asked.{Follows, Judges, gathered};
ghost use Rattle.sq_plan.specs.Folds.{GoesOn, Makes, alone, ended_so, going_on, seen};
ghost use Rattle.sq_run.specs.Project;
ghost use Rattle.sq_plan.specs.Reading.{listed};
ghost use Rattle.sq_run.specs.Project.{counted, source, sources, sources_found, with_tokens};
ghost use Rattle.sq_plan.specs.Sources.{bytes_read};
ghost use Rattle.sq_base.specs.declared.limits.TheConstants.{MOST_FILE_BYTES};

use sq_base::limits::MOST_FILES;
use sq_base::{Code, Fault, List, Name, Tree};
use sq_lexer::tokens;
use sq_plan::{
    Finding, Halt, Purpose, Role, Spot, append, before_rollback, ending, join, list_path,
    read_whole, refuse, refuse_file,
};
use sq_syntax::Token;
use std::alloc::{AllocError, Global};

/// A source file with its tokens.
#[derive(Debug, Drop)]
pub struct SourceFile {
    pub path: Name,
    pub tokens: List<Token>,
}

/// Lists the paths of a key.
fn list_paths<T: Tree>(
    alloc: Global,
    tree: &mut T,
    purpose: Purpose,
    paths: &[Name],
) -> Result<List<Name>, Halt>
    ensures { Follows (gathered (λ _ path. listed purpose path) 0 paths.now) (T.state tree.old) (T.state tree.new) result }
{
    let mut so_far = Ok(List::new(alloc));
    for path in paths {
        so_far = join(so_far, list_path(alloc, tree, purpose, path.as_str()))?;
    }
    ending(so_far)
}

/// The files of a key, unless they are too many.
fn counted(alloc: Global, paths: List<Name>) -> Result<List<Name>, Halt>
    ensures few { IfOk result (λ few. length few ≤ MOST_FILES) }
    ensures judges { Judges (counted paths) result }
{
    match paths.get(MOST_FILES) {
        Some(path) => Err(refuse_file(alloc, Role::Source, Code::TooManyFiles, path.as_str())),
        None => Ok(paths),
    }
}

/// The source at a path with these bytes, which has this number among those of its key.
fn source_of(alloc: Global, number: u32, path: &str, bytes: &[u8]) -> Result<SourceFile, Halt>
    requires { length bytes.now ≤ MOST_FILE_BYTES }
    ensures { Judges (with_tokens path.now (token_list number bytes.now)) (alone result) }
{
    let tokens = match tokens(alloc, number, bytes) {
        Ok(tokens) => tokens,
        Err(Fault::Refused(refusal)) => return Err(refuse(alloc, path, Spot::Placed, refusal)),
        Err(Fault::Memory) => return Err(Halt::Memory),
    };
    match Name::new(alloc, path) {
        Ok(path) => Ok(SourceFile { path, tokens }),
        Err(_) => Err(Halt::Memory),
    }
}

/// The bytes of a file that are read for this purpose.
fn bytes_read(purpose: Purpose, bytes: &[u8]) -> &[u8]
    ensures is { result.now ≡ bytes_read purpose bytes.now }
    ensures within { length result.now ≤ length bytes.now }
{
    match purpose {
        Purpose::Schema => before_rollback(bytes),
        Purpose::Queries => bytes,
    }
}

/// Reads the source at a path, which has this number among those of its key.
fn read_source<T: Tree>(
    alloc: Global,
    tree: &mut T,
    purpose: Purpose,
    number: u32,
    path: &str,
) -> Result<SourceFile, Halt>
    ensures { Follows (source purpose number path.now) (T.state tree.old) (T.state tree.new) (alone result) }
{
    let bytes = read_whole(alloc, tree, Role::Source, path)?;
    source_of(alloc, number, path, bytes_read(purpose, bytes.as_slice()))
}

/// What is made of sources, one after another.
pub trait Made {
    ghost use Rattle.sq_run.specs.declared.sources.SourceFile.{SourceFile};

    /// What contracts see of it.
    ghost Value: { Type 0 };

    ghost value: { Self → Value };

    /// What is made with the next source.
    ghost after: { Value → SourceFile → Value };

    /// Takes the next source, which is dropped then.
    fn with(self, alloc: Global, file: SourceFile) -> Result<Self, AllocError>
        ensures { IfOk result (λ made. value made ≡ after (value self) file) };
}

/// Goes on with a source where all before it were read.
fn with_source<M: Made + Drop>(
    alloc: Global,
    before: Result<M, List<Finding>>,
    file: SourceFile,
) -> Result<Result<M, List<Finding>>, AllocError>
    ensures { IfOk result (λ both. seen M.value both ≡ going_on M.after (seen M.value before) (Ok (file ∷ []))) }
{
    match before {
        Ok(made) => Ok(Ok(made.with(alloc, file)?)),
        Err(findings) => Ok(Err(findings)),
    }
}

/// Lists findings behind those before them.
fn with_findings<M: Made + Drop>(
    before: Result<M, List<Finding>>,
    more: List<Finding>,
) -> Result<Result<M, List<Finding>>, AllocError>
    ensures { IfOk result (λ both. seen M.value both ≡ going_on M.after (seen M.value before) (Err more)) }
{
    match before {
        Ok(_made) => Ok(Err(more)),
        Err(findings) => {
            let mut both = findings;
            append(&mut both, more)?;
            Ok(Err(both))
        }
    }
}

/// Goes on with a part that gives a source, lists findings or halts the run.
fn go_on<M: Made + Drop>(
    alloc: Global,
    before: Result<M, List<Finding>>,
    part: Result<SourceFile, Halt>,
) -> Result<Result<M, List<Finding>>, Halt>
    ensures { GoesOn M.after (seen M.value before) (alone part) (seen (seen M.value) result) }
{
    let both = match part {
        Ok(file) => with_source(alloc, before, file),
        Err(Halt::Refused(more)) => with_findings(before, more),
        Err(halt) => return Err(halt),
    };
    match both {
        Ok(both) => Ok(both),
        Err(_) => Err(Halt::Memory),
    }
}

/// What was made of all sources, or their findings.
fn made_of_all<M: Made + Drop>(made: Result<M, List<Finding>>) -> Result<M, Halt>
    ensures { seen M.value result ≡ ended_so (seen M.value made) }
{
    match made {
        Ok(made) => Ok(made),
        Err(findings) => Err(Halt::Refused(findings)),
    }
}

/// Reads the sources at these paths, and makes of each what is made of it before the next is read.
fn read_all<T: Tree, M: Made + Drop>(
    alloc: Global,
    tree: &mut T,
    purpose: Purpose,
    paths: &[Name],
    start: M,
) -> Result<M, Halt>
    requires { length paths.now ≤ MOST_FILES }
    ensures { Makes M.after (M.value start) (gathered (source purpose) 0 paths.now) (T.state tree.old) (T.state tree.new) (seen M.value result) }
{
    let mut made = Ok(start);
    for (number, path) in paths.iter().enumerate() {
        let part = read_source(alloc, tree, purpose, number as u32, path.as_str());
        made = go_on(alloc, made, part)?;
    }
    made_of_all(made)
}

/// Reads the files of a key, unless they are too many.
fn read_found<T: Tree, M: Made + Drop>(
    alloc: Global,
    tree: &mut T,
    purpose: Purpose,
    found: List<Name>,
    start: M,
) -> Result<M, Halt>
    ensures { Makes M.after (M.value start) (sources_found purpose found) (T.state tree.old) (T.state tree.new) (seen M.value result) }
{
    let few = counted(alloc, found)?;
    read_all(alloc, tree, purpose, few.as_slice(), start)
}

/// Lists the paths of a key, and then reads the files that they stand for, each of which is dropped before
/// the next is read.
pub fn read_sources<T: Tree, M: Made + Drop>(
    alloc: Global,
    tree: &mut T,
    purpose: Purpose,
    paths: &[Name],
    start: M,
) -> Result<M, Halt>
    ensures { Makes M.after (M.value start) (sources purpose paths.now) (T.state tree.old) (T.state tree.new) (seen M.value result) }
{
    let found = list_paths(alloc, tree, purpose, paths)?;
    read_found(alloc, tree, purpose, found, start)
}
