//! Runs: lists of tokens that are kept as they are, with balanced brackets.

ghost use Rattle.std.specs.Prelude.{◌≡◌, ◌≢◌, ◌<◌, [], ◌∷◌, length, None, Some, IfOk, OnOk, MatchOption, MatchResult, if◌then◌else◌};
ghost use Rattle.sq_syntax.specs.Runs.{behind};
ghost use Rattle.sq_grammar.specs.Schemas as spec;
ghost use Rattle.sq_lexemes.specs.Reads.{Reads};
ghost use Rattle.sq_lexemes.specs.declared.error.ParseError.TheVariants.{Memory};
ghost use Rattle.sq_parse_ddl.specs.declared.runs.Stop.{Stop};
ghost use Rattle.sq_parse_ddl.specs.declared.runs.Stop.TheVariants as stop_kind;
ghost use Rattle.sq_parse_ddl.specs.Runs.{as_bracket, ends_run, going_on, innermost_first, is_over, rest_of_run, stops};

use sq_base::List;
use sq_lexemes::cursor::{Cursor, split};
use sq_lexemes::error::ParseError;
use sq_lexemes::texts::copied;
use sq_syntax::{Reading, Symbol};
use sq_words::{is, is_one_of};
use std::alloc::{AllocError, Global};

/// A bracket that is open.
#[derive(Clone, Copy)]
pub enum Bracket {
    Round,
    Square,
}

/// The tokens that end a run at its own depth, beside a bracket that closes another one.
#[derive(Clone, Copy)]
pub enum Stop {
    Never,
    Comma,
    /// What stands behind a default value.
    Default,
    /// What stands behind PARTITION BY.
    Partition,
}

const DEFAULT_ENDS: [&str; 13] = [
    ",",
    "default",
    "constraint",
    "not",
    "null",
    "unique",
    "primary",
    "check",
    "references",
    "generated",
    "collate",
    "deferrable",
    "initially",
];

/// A default value ends before this token.
pub fn ends_default(reading: &Reading) -> bool
    ensures { result ≡ stops stop_kind.Default reading.now }
{
    is_one_of(&DEFAULT_ENDS, reading)
}

fn stops(stop: Stop, reading: &Reading) -> bool
    ensures { result ≡ stops stop reading.now }
{
    match stop {
        Stop::Never => false,
        Stop::Comma => is(",", reading),
        Stop::Default => ends_default(reading),
        Stop::Partition => is("with", reading) || is("tablespace", reading),
    }
}

fn closes(reading: &Reading) -> bool
    ensures { result ≡ spec.closes reading.now }
{
    matches!(
        reading,
        Reading::Symbol(Symbol::Close | Symbol::CloseSquare)
    )
}

fn copy_of(alloc: Global, reading: &Reading) -> Result<Reading, AllocError>
    ensures { IfOk result (λ copy. copy ≡ reading.now) }
{
    Ok(match reading {
        Reading::Symbol(symbol) => Reading::Symbol(*symbol),
        Reading::Word(word) => Reading::Word(copied(alloc, word)?),
        Reading::Quoted(name) => Reading::Quoted(copied(alloc, name)?),
        Reading::Text(bytes) => Reading::Text(copied(alloc, bytes)?),
        Reading::EText(bytes) => Reading::EText(copied(alloc, bytes)?),
        Reading::Dollar(bytes) => Reading::Dollar(copied(alloc, bytes)?),
        Reading::Number(bytes) => Reading::Number(copied(alloc, bytes)?),
        Reading::Parameter(bytes) => Reading::Parameter(copied(alloc, bytes)?),
        Reading::Named(name) => Reading::Named(copied(alloc, name)?),
        Reading::Operator(bytes) => Reading::Operator(copied(alloc, bytes)?),
        Reading::Note => Reading::Note,
    })
}

/// Takes the innermost bracket from those that are open.
#[tactic(auto, using(crate::proofs::RunTurns::pushed, crate::proofs::RunTurns::none_open))]
fn innermost(brackets: &mut Vec<Bracket>) -> Option<Bracket>
    ensures { MatchOption result (innermost_first brackets.old.items ≡ []) (λ x. innermost_first brackets.old.items ≡ as_bracket x ∷ innermost_first brackets.new.items) }
{
    brackets.pop()
}

/// Opens or closes a bracket, and says whether one that is closed is the innermost.
#[tactic(auto, using(crate::proofs::RunTurns::pushed))]
fn turn(brackets: &mut Vec<Bracket>, reading: &Reading) -> Result<bool, AllocError>
    ensures { IfOk result (λ matches. behind reading.now (innermost_first brackets.old.items) ≡ (if matches then Some (innermost_first brackets.new.items) else None)) }
{
    Ok(match reading {
        Reading::Symbol(Symbol::Open) => {
            brackets.push(Bracket::Round)?;
            true
        }
        Reading::Symbol(Symbol::OpenSquare) => {
            brackets.push(Bracket::Square)?;
            true
        }
        Reading::Symbol(Symbol::Close) => { matches!(innermost(brackets), Some(Bracket::Round)) },
        Reading::Symbol(Symbol::CloseSquare) => {
            matches!(innermost(brackets), Some(Bracket::Square))
        },
        _ => true,
    })
}

/// The next token ends a run at its own depth, or none is left.
fn sees_end(tokens: &Cursor<'_>, stop: Stop) -> bool
    ensures { result ≡ ends_run stop tokens.now.tokens }
{
    match split(tokens.rest()) {
        Some((lexeme, _)) => stops(stop, &lexeme.reading) || closes(&lexeme.reading),
        None => true,
    }
}

/// Each bracket that was open is closed, and the next token ends the run.
fn is_over(tokens: &Cursor<'_>, stop: Stop, brackets: &Vec<Bracket>) -> bool
    ensures { result ≡ is_over stop brackets.now.items tokens.now }
{
    brackets.is_empty() && sees_end(tokens, stop)
}

/// Takes a token of a run.
#[tactic(auto, using(crate::proofs::RunTurns::taken, crate::proofs::RunTurns::none_left, crate::proofs::RunTurns::unbalanced))]
fn take(
    alloc: Global,
    tokens: &mut Cursor<'_>,
    brackets: &mut Vec<Bracket>,
    found: &mut List<Reading>,
) -> Result<(), ParseError>
    ensures fewer { OnOk result (length tokens.new.tokens < length tokens.old.tokens) }
    ensures value { MatchResult result (λ _. (stop : Stop) → going_on stop brackets.old.items found.old tokens.old ≡ rest_of_run stop brackets.new.items found.new tokens.new) (λ e. e ≢ Memory → (stop : Stop) → going_on stop brackets.old.items found.old tokens.old ≡ None) }
{
    let reading = &tokens.take()?.reading;
    if !turn(brackets, reading)? {
        return Err(ParseError::Syntax);
    }
    found.push(copy_of(alloc, reading)?)?;
    Ok(())
}

/// The rest of a run, of which these tokens are read and these brackets are open.
#[tactic(auto, using(crate::proofs::RunTurns::over, crate::proofs::RunTurns::not_over))]
fn rest(
    alloc: Global,
    tokens: &mut Cursor<'_>,
    stop: Stop,
    mut brackets: Vec<Bracket>,
    mut found: List<Reading>,
) -> Result<List<Reading>, ParseError>
    ensures { Reads (rest_of_run stop brackets.items found tokens.old) result tokens.new }
{
    while !is_over(tokens, stop, &brackets) {
        take(alloc, tokens, &mut brackets, &mut found)?;
    }
    Ok(found)
}

/// Takes the tokens up to the first at their own depth that ends them.
#[tactic(auto, unfolding(crate::specs::Words::run))]
pub fn run(alloc: Global, tokens: &mut Cursor<'_>, stop: Stop) -> Result<List<Reading>, ParseError>
    ensures { Reads (spec.run (stops stop) tokens.old) result tokens.new }
{
    rest(alloc, tokens, stop, Vec::new(alloc), List::new(alloc))
}

/// The same, of one token at least.
#[tactic(auto, unfolding(crate::specs::Words::some_run))]
pub fn some_run(
    alloc: Global,
    tokens: &mut Cursor<'_>,
    stop: Stop,
) -> Result<List<Reading>, ParseError>
    ensures { Reads (spec.some_run (stops stop) tokens.old) result tokens.new }
{
    let found = run(alloc, tokens, stop)?;
    if found.len() == 0 {
        return Err(ParseError::Syntax);
    }
    Ok(found)
}

/// A default value, whose first token may be any.
#[tactic(auto, unfolding(crate::specs::Words::default_run))]
pub fn default_run(alloc: Global, tokens: &mut Cursor<'_>) -> Result<List<Reading>, ParseError>
    ensures { Reads (spec.default_run tokens.old) result tokens.new }
{
    let mut brackets = Vec::new(alloc);
    let mut found = List::new(alloc);
    take(alloc, tokens, &mut brackets, &mut found)?;
    rest(alloc, tokens, Stop::Default, brackets, found)
}

/// A run in brackets.
#[tactic(auto, unfolding(crate::specs::Words::within))]
pub fn within(alloc: Global, tokens: &mut Cursor<'_>) -> Result<List<Reading>, ParseError>
    ensures { Reads (spec.within tokens.old) result tokens.new }
{
    tokens.expect(Symbol::Open)?;
    let found = run(alloc, tokens, Stop::Never)?;
    tokens.expect(Symbol::Close)?;
    Ok(found)
}
