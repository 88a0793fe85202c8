//! Where the rows of an INSERT come from (PostgreSQL manual, INSERT).

ghost use Rattle.std.specs.Prelude.{◌≡◌};
ghost use Rattle.sq_syntax.specs.declared.symbol.Symbol.TheVariants as s;
ghost use Rattle.sq_grammar.specs.Reading.{many, sees};
ghost use Rattle.sq_grammar.specs.Statements as spec;
ghost use Rattle.sq_grammar.specs.Statements.{listed};
ghost use Rattle.sq_lexemes.specs.Reads.{Reads};
ghost use Rattle.sq_parse_expr.specs.Depth.{outer, queries};
ghost use Rattle.sq_parse_stmt.specs.Changes as parts;

use sq_base::List;
use sq_lexemes::cursor::Cursor;
use sq_lexemes::error::ParseError;
use sq_lexemes::lists::list_with_first;
use sq_parse_expr::parts::{next_expression, next_query};
use sq_syntax::{Given, InsertSource, Symbol, ValuesRow};
use sq_words::{expect_word, sees_word};
use sqlite_items::Items;
use std::alloc::Global;

/// What a column gets: DEFAULT or an expression.
#[tactic(auto, unfolding(crate::specs::Words::given))]
pub fn given(alloc: Global, tokens: &mut Cursor<'_>) -> Result<Given, ParseError>
    ensures { Reads (spec.given (outer 64) (queries 64) tokens.old) result tokens.new }
{
    if sees_word(tokens, "default") {
        let place = tokens.here();
        expect_word(tokens, "default")?;
        Ok(Given::Default(place))
    } else {
        Ok(Given::Expression(next_expression(alloc, tokens)?.into_box()))
    }
}

fn next_given(alloc: Global, tokens: &mut Cursor<'_>) -> Result<Given, ParseError>
    ensures { Reads (parts.next_given (outer 64) (queries 64) tokens.old) result tokens.new }
{
    tokens.expect(Symbol::Comma)?;
    given(alloc, tokens)
}

fn more_givens(alloc: Global, tokens: &mut Cursor<'_>) -> Result<List<Given>, ParseError>
    ensures { Reads (many (sees s.Comma) (parts.next_given (outer 64) (queries 64)) tokens.old) result tokens.new }
{
    let mut found = List::new(alloc);
    for _turn in 0..tokens.left() {
        if !tokens.sees(Symbol::Comma) {
            return Ok(found);
        }
        let next = next_given(alloc, tokens)?;
        found.push(next)?;
    }
    Ok(found)
}

fn givens(alloc: Global, tokens: &mut Cursor<'_>) -> Result<List<Given>, ParseError>
    ensures { Reads (listed (spec.given (outer 64) (queries 64)) tokens.old) result tokens.new }
{
    let first = given(alloc, tokens)?;
    let more = more_givens(alloc, tokens)?;
    Ok(list_with_first(alloc, first, more)?)
}

#[tactic(auto, unfolding(crate::specs::Words::values_row))]
fn values_row(alloc: Global, tokens: &mut Cursor<'_>) -> Result<ValuesRow, ParseError>
    ensures { Reads (spec.values_row (outer 64) (queries 64) tokens.old) result tokens.new }
{
    let place = tokens.here();
    tokens.expect(Symbol::Open)?;
    let values = givens(alloc, tokens)?;
    tokens.expect(Symbol::Close)?;
    Ok(ValuesRow {
        place,
        values: Items::from_vec(values.into_vec()),
    })
}

fn next_row(alloc: Global, tokens: &mut Cursor<'_>) -> Result<ValuesRow, ParseError>
    ensures { Reads (parts.next_row (outer 64) (queries 64) tokens.old) result tokens.new }
{
    tokens.expect(Symbol::Comma)?;
    values_row(alloc, tokens)
}

fn more_rows(alloc: Global, tokens: &mut Cursor<'_>) -> Result<List<ValuesRow>, ParseError>
    ensures { Reads (many (sees s.Comma) (parts.next_row (outer 64) (queries 64)) tokens.old) result tokens.new }
{
    let mut found = List::new(alloc);
    for _turn in 0..tokens.left() {
        if !tokens.sees(Symbol::Comma) {
            return Ok(found);
        }
        let next = next_row(alloc, tokens)?;
        found.push(next)?;
    }
    Ok(found)
}

fn values_rows(alloc: Global, tokens: &mut Cursor<'_>) -> Result<List<ValuesRow>, ParseError>
    ensures { Reads (listed (spec.values_row (outer 64) (queries 64)) tokens.old) result tokens.new }
{
    let first = values_row(alloc, tokens)?;
    let more = more_rows(alloc, tokens)?;
    Ok(list_with_first(alloc, first, more)?)
}

fn rows(alloc: Global, tokens: &mut Cursor<'_>) -> Result<InsertSource, ParseError>
    ensures { Reads (spec.rows (outer 64) (queries 64) tokens.old) result tokens.new }
{
    expect_word(tokens, "values")?;
    let found = values_rows(alloc, tokens)?;
    Ok(InsertSource::Values(Items::from_vec(found.into_vec())))
}

fn default_values(tokens: &mut Cursor<'_>) -> Result<InsertSource, ParseError>
    ensures { Reads (spec.default_values (outer 64) (queries 64) tokens.old) result tokens.new }
{
    expect_word(tokens, "default")?;
    expect_word(tokens, "values")?;
    Ok(InsertSource::DefaultValues)
}

fn queried(alloc: Global, tokens: &mut Cursor<'_>) -> Result<InsertSource, ParseError>
    ensures { Reads (spec.queried (outer 64) (queries 64) tokens.old) result tokens.new }
{
    let query = next_query(alloc, tokens)?;
    Ok(InsertSource::Query(query.into_box()))
}

#[tactic(auto, unfolding(crate::specs::Words::source))]
pub fn source(alloc: Global, tokens: &mut Cursor<'_>) -> Result<InsertSource, ParseError>
    ensures { Reads (spec.source (outer 64) (queries 64) tokens.old) result tokens.new }
{
    if sees_word(tokens, "values") {
        rows(alloc, tokens)
    } else if sees_word(tokens, "default") {
        default_values(tokens)
    } else {
        queried(alloc, tokens)
    }
}
