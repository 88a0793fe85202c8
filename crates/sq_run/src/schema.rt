//! The catalogue that a schema gives: its statements are replayed in order.

ghost use Rattle.std.specs.Prelude.{◌≡◌, ◌∷◌, ◌<◌, [], length, position, IfOk, IfSome};
ghost use Rattle.std.specs.List.{list_all, slice_split};
ghost use Rattle.std.specs.Option.{option_map_or};
ghost use Rattle.sq_migrate.specs.Replay.{state};
ghost use Rattle.sq_base.specs.Answers.{Gives as Answers};
ghost use Rattle.sq_catalog.specs.Catalogue.{empty};
ghost use Rattle.sq_plan.specs.Asked.{Follows, Judges};
ghost use Rattle.sq_plan.specs.Folds.{folded};
ghost use Rattle.sq_run.specs.Project.{schema_read};
ghost use Rattle.sq_run.specs.Schema as spec;
ghost use Rattle.sq_run.specs.Statements.{is_end};

use crate::sources::{Made, SourceFile, read_sources};
use crate::statements::is_end;
use sq_base::{Code, Fault, List, Name, PgType, Refusal, Scalar, Tree};
use sq_catalog::{Catalogue, Table};
use sq_migrate::replay;
use sq_parse_ddl::ddl;
use sq_plan::{Finding, Halt, Purpose, Role, SoFar, Spot, append, list_refusal, refuse_file};
use sq_syntax::{Ddl, Token, TokenKind};
use sqlite_items::Boxed;
use std::alloc::{AllocError, Global};

/// The tokens but for the comments that name queries. It takes no memory.
fn without_notes(tokens: List<Token>) -> List<Token>
    ensures { result ≡ spec.without_notes tokens }
{
    let mut kept = tokens.into_vec();
    kept.retain(|token| token.kind != TokenKind::Note);
    List::from_vec(kept)
}

/// The place of the first semicolon.
fn first_end(tokens: &[Token]) -> Option<usize>
    ensures place { result ≡ position is_end tokens.now }
    ensures within { IfSome result (λ at. at < length tokens.now) }
{
    tokens.iter().position(|token| is_end(token))
}

/// The tokens before the first semicolon, and those behind it, if there is one.
fn cut(tokens: &[Token]) -> (&[Token], Option<&[Token]>)
    ensures split { slice_split is_end tokens.now ≡ result.0.now ∷ option_map_or (λ later. slice_split is_end later.now) result.1 [] }
    ensures shorter { IfSome result.1 (λ later. length later.now < length tokens.now) }
{
    match first_end(tokens) {
        Some(end) => (&tokens[..end], Some(&tokens[end + 1..])),
        None => (tokens, None),
    }
}

/// The statement that tokens spell, and none where they are passed over.
#[tactic(auto, using(crate::proofs::ReadDdl::reads))]
fn read_ddl(alloc: Global, tokens: &[Token]) -> Result<Option<Boxed<Ddl>>, Fault>
    ensures { Answers (spec.read_ddl tokens.now) result }
{
    ddl(alloc, tokens)
}

/// Refusals in the file at a path.
fn found_at(alloc: Global, path: &str, refusals: List<Refusal>) -> Result<List<Finding>, AllocError>
    ensures { IfOk result (λ findings. findings ≡ spec.found_at path.now refusals) }
{
    let mut findings = List::new(alloc);
    for refusal in refusals.into_vec() {
        findings.push(Finding {
            path: Name::new(alloc, path)?,
            spot: Spot::Placed,
            refusal,
        })?;
    }
    Ok(findings)
}

/// The list of this one statement.
fn one_statement(alloc: Global, statement: Boxed<Ddl>) -> Result<List<Ddl>, AllocError>
    ensures { IfOk result (λ statements. statements ≡ statement ∷ []) }
{
    let mut statements = List::new(alloc);
    statements.push(statement.into_inner())?;
    Ok(statements)
}

/// Replays a statement, and gives what is refused of it.
#[tactic(auto, unfolding(crate::specs::Schema::replay_of))]
fn replay_one(
    alloc: Global,
    catalogue: &mut Catalogue,
    statement: Boxed<Ddl>,
) -> Result<List<Refusal>, AllocError>
    ensures { IfOk result (λ refusals. state catalogue.new refusals ≡ spec.replay_of catalogue.old statement) }
{
    let statements = one_statement(alloc, statement)?;
    replay(alloc, catalogue, &statements)
}

/// Replays a statement of the file at a path, and lists what is refused of it.
fn replay_in(
    alloc: Global,
    done: &mut SoFar<Catalogue>,
    path: &str,
    statement: Boxed<Ddl>,
) -> Result<(), AllocError>
    ensures { IfOk result (λ _. done.new ≡ spec.after_replay path.now done.old.found (spec.replay_of done.old.made statement)) }
{
    let refusals = replay_one(alloc, &mut done.made, statement)?;
    append(&mut done.found, found_at(alloc, path, refusals)?)
}

/// Replays a statement of the file at a path, or lists its refusal.
fn replay_statement(
    alloc: Global,
    done: &mut SoFar<Catalogue>,
    path: &str,
    statement: &[Token],
) -> Result<(), AllocError>
    ensures { IfOk result (λ _. done.new ≡ spec.after_statement path.now done.old statement.now) }
{
    if statement.is_empty() {
        return Ok(());
    }
    match read_ddl(alloc, statement) {
        Ok(Some(read)) => replay_in(alloc, done, path, read),
        Ok(None) => Ok(()),
        Err(Fault::Refused(refusal)) => list_refusal(alloc, &mut done.found, path, refusal),
        Err(Fault::Memory) => Err(AllocError),
    }
}

/// Replays the statements among the tokens of the file at a path.
fn replay_tokens(
    alloc: Global,
    done: &mut SoFar<Catalogue>,
    path: &str,
    tokens: &[Token],
) -> Result<(), AllocError>
    ensures { IfOk result (λ _. done.new ≡ folded (spec.after_statement path.now) done.old (spec.statements tokens.now)) }
{
    let mut rest = tokens;
    loop {
        let (statement, later) = cut(rest);
        replay_statement(alloc, done, path, statement)?;
        match later {
            Some(later) => rest = later,
            None => return Ok(()),
        }
    }
}

impl Made for SoFar<Catalogue> {
    ghost use Rattle.sq_catalog.specs.Contents.{Contents};
    ghost use Rattle.sq_plan.specs.declared.so_far.SoFar.{SoFar as Done};
    ghost use Rattle.sq_run.specs.Schema as spec;

    ghost Value = { Done Contents };

    ghost value = { λ done. done };

    ghost after = { spec.after_file };

    fn with(self, alloc: Global, file: SourceFile) -> Result<SoFar<Catalogue>, AllocError> {
        let SourceFile { path, tokens } = file;
        let tokens = without_notes(tokens);
        let mut done = self;
        replay_tokens(alloc, &mut done, path.as_str(), tokens.as_slice())?;
        Ok(done)
    }
}

/// Whether the forms of a scalar type are built.
fn is_first_scalar(scalar: Scalar) -> bool
    ensures { result ≡ spec.is_first_scalar scalar }
{
    matches!(
        scalar,
        Scalar::SmallInt | Scalar::Integer | Scalar::BigInt | Scalar::Boolean | Scalar::Text
    )
}

/// Whether the forms of a type are built.
fn is_first(of: PgType) -> bool
    ensures { result ≡ spec.is_first of }
{
    !of.array && is_first_scalar(of.scalar)
}

/// Whether the forms of all columns of a table are built.
fn has_first_types(table: &Table) -> bool
    ensures { result ≡ spec.has_first_types table.now }
{
    table
        .columns
        .as_slice()
        .iter()
        .all(|column| is_first(column.of))
}

/// Whether the forms of all columns of these tables are built.
fn have_first_types(tables: &[Table]) -> bool
    ensures { result ≡ list_all spec.has_first_types tables.now }
{
    tables.iter().all(has_first_types)
}

fn has_enums(catalogue: &Catalogue) -> bool
    ensures { result ≡ spec.has_enums catalogue.now }
{
    catalogue.enum_at(0).is_some()
}

fn has_domains(catalogue: &Catalogue) -> bool
    ensures { result ≡ spec.has_domains catalogue.now }
{
    catalogue.domain_at(0).is_some()
}

/// Whether the forms of all types of a catalogue are built.
fn is_built(catalogue: &Catalogue) -> bool
    ensures { result ≡ spec.is_built catalogue.now }
{
    !has_enums(catalogue) && !has_domains(catalogue) && have_first_types(catalogue.tables())
}

/// The catalogue, where its types are built.
fn built(alloc: Global, configuration: &str, catalogue: Catalogue) -> Result<Catalogue, Halt>
    ensures { Judges (spec.catalogue_by configuration.now catalogue []) result }
{
    if is_built(&catalogue) {
        Ok(catalogue)
    } else {
        Err(refuse_file(alloc, Role::Configuration, Code::NotYet, configuration))
    }
}

/// The catalogue, where nothing was refused and its types are built.
fn catalogue_by(
    alloc: Global,
    configuration: &str,
    done: SoFar<Catalogue>,
) -> Result<Catalogue, Halt>
    ensures { Judges (spec.catalogue_by configuration.now done.made done.found) result }
{
    let SoFar { made, found } = done;
    if found.len() > 0 {
        Err(Halt::Refused(found))
    } else {
        built(alloc, configuration, made)
    }
}

/// Reads a schema and replays it over a catalogue, for a block in the configuration at this path.
fn read_over<T: Tree>(
    alloc: Global,
    tree: &mut T,
    configuration: &str,
    paths: &[Name],
    catalogue: Catalogue,
) -> Result<Catalogue, Halt>
    requires { catalogue ≡ empty }
    ensures { Follows (schema_read configuration.now paths.now) (T.state tree.old) (T.state tree.new) result }
{
    let start = SoFar {
        made: catalogue,
        found: List::new(alloc),
    };
    let done = read_sources(alloc, tree, Purpose::Schema, paths, start)?;
    catalogue_by(alloc, configuration, done)
}

/// Reads a schema and replays it, for a block in the configuration at this path.
pub fn read_schema<T: Tree>(
    alloc: Global,
    tree: &mut T,
    configuration: &str,
    paths: &[Name],
) -> Result<Catalogue, Halt>
    ensures { Follows (schema_read configuration.now paths.now) (T.state tree.old) (T.state tree.new) result }
{
    match Catalogue::new(alloc) {
        Ok(catalogue) => read_over(alloc, tree, configuration, paths, catalogue),
        Err(_) => Err(Halt::Memory),
    }
}
