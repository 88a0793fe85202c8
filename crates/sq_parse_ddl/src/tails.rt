//! What stands behind the elements of a table (PostgreSQL manual, CREATE TABLE).

ghost use Rattle.std.specs.Prelude.{◌≡◌};
ghost use Rattle.sq_grammar.specs.Reading.{many};
ghost use Rattle.sq_grammar.specs.Schemas as spec;
ghost use Rattle.sq_lexemes.specs.Reads.{Reads};

use crate::runs::{Stop, some_run, within};
use sq_base::List;
use sq_lexemes::cursor::Cursor;
use sq_lexemes::error::ParseError;
use sq_lexemes::names::name;
use sq_syntax::{Symbol, Tail};
use sq_words::{expect_word, sees_word};
use std::alloc::Global;

fn partition(alloc: Global, tokens: &mut Cursor<'_>) -> Result<Tail, ParseError>
    ensures { Reads (spec.partition tokens.old) result tokens.new }
{
    expect_word(tokens, "partition")?;
    tokens.expect(Symbol::By)?;
    Ok(Tail::PartitionBy(some_run(alloc, tokens, Stop::Partition)?))
}

fn with_options(alloc: Global, tokens: &mut Cursor<'_>) -> Result<Tail, ParseError>
    ensures { Reads (spec.with_options tokens.old) result tokens.new }
{
    tokens.expect(Symbol::With)?;
    Ok(Tail::With(within(alloc, tokens)?))
}

fn tablespace(alloc: Global, tokens: &mut Cursor<'_>) -> Result<Tail, ParseError>
    ensures { Reads (spec.tablespace tokens.old) result tokens.new }
{
    expect_word(tokens, "tablespace")?;
    Ok(Tail::Tablespace(name(alloc, tokens)?))
}

#[tactic(auto, unfolding(crate::specs::Words::tail))]
fn tail(alloc: Global, tokens: &mut Cursor<'_>) -> Result<Tail, ParseError>
    ensures { Reads (spec.tail tokens.old) result tokens.new }
{
    if tokens.sees(Symbol::With) {
        with_options(alloc, tokens)
    } else if sees_word(tokens, "partition") {
        partition(alloc, tokens)
    } else {
        tablespace(alloc, tokens)
    }
}

fn begins_tail(tokens: &Cursor<'_>) -> bool
    ensures { result ≡ spec.begins_tail tokens.now.tokens }
{
    tokens.sees(Symbol::With) || sees_word(tokens, "partition") || sees_word(tokens, "tablespace")
}

pub fn tails(alloc: Global, tokens: &mut Cursor<'_>) -> Result<List<Tail>, ParseError>
    ensures { Reads (many (λ now. spec.begins_tail now.tokens) spec.tail tokens.old) result tokens.new }
{
    let mut found = List::new(alloc);
    for _turn in 0..tokens.left() {
        if !begins_tail(tokens) {
            return Ok(found);
        }
        let next = tail(alloc, tokens)?;
        found.push(next)?;
    }
    Ok(found)
}
