//! Expressions that no operator joins.

ghost use Rattle.std.specs.Prelude.{◌≡◌, IfOk};
ghost use Rattle.sq_grammar.specs.Primaries as spec;
ghost use Rattle.sq_grammar.specs.declared.start.Start.TheVariants as start;
ghost use Rattle.sq_parse_expr.specs.Depth.{expressions, queries};
ghost use Rattle.sq_parse_expr.specs.Nests.{Nests};
ghost use Rattle.sq_lexemes.specs.Reads.{Reads};

use crate::brackets::{holds_query, types_text};
use crate::constants::{begins_purpose, column, constant, moment, parameter, purposed, typed_text};
use crate::grammar::{Grammar, Tree, Wanted};
use sq_base::List;
use sq_grammar::Start;
use sq_lexemes::cursor::{Cursor, begins, split};
use sq_lexemes::error::ParseError;
use sq_lexemes::texts::copied;
use sq_lexemes::words::is_free;
use sq_parts::HeldExpression;
use sq_syntax::{Constant, Lexeme, Moment, Parameter, Pool, Reading, Symbol};
use std::alloc::{AllocError, Global};

/// How a primary goes on that begins with this symbol.
fn start_of(symbol: Symbol) -> Start
    ensures { result ≡ spec.start_of symbol }
{
    match symbol {
        Symbol::True => Start::True,
        Symbol::False => Start::False,
        Symbol::Null => Start::Null,
        Symbol::CurrentDate => Start::Moment(Moment::CurrentDate),
        Symbol::CurrentTimestamp => Start::Moment(Moment::CurrentTimestamp),
        Symbol::LocalTimestamp => Start::Moment(Moment::LocalTimestamp),
        Symbol::Open => Start::Brackets,
        Symbol::Exists => Start::Exists,
        Symbol::Array => Start::Array,
        Symbol::Case => Start::Case,
        Symbol::Cast => Start::Cast,
        Symbol::Coalesce => Start::Pooled(Pool::Coalesce),
        Symbol::Greatest => Start::Pooled(Pool::Greatest),
        Symbol::Least => Start::Pooled(Pool::Least),
        Symbol::NullIf => Start::NullIf,
        Symbol::Extract => Start::Extract,
        Symbol::Sqlc => Start::Sqlc,
        Symbol::Left | Symbol::Right => Start::Side,
        _ if is_free(symbol) => Start::Named,
        _ => Start::Nothing,
    }
}

/// A bracket stands behind the first token.
fn calls(tokens: &[Lexeme]) -> bool
    ensures { result ≡ spec.calls tokens.now }
{
    match split(tokens) {
        Some((_, rest)) => begins(Symbol::Open, rest),
        None => false,
    }
}

impl<F: Fn(Global, &mut Cursor<'_>, usize, Wanted) -> Result<Tree, ParseError>> Grammar<F> {
    fn named(&self, tokens: &mut Cursor<'_>) -> Result<HeldExpression, ParseError>
        requires { Nests self.now.depth (F.pre self.now.parse) (F.post self.now.parse) }
        ensures { Reads (spec.named (expressions self.now.depth) (queries self.now.depth) tokens.old) result tokens.new }
    {
        if types_text(tokens) {
            typed_text(self.alloc, tokens)
        } else if calls(tokens.rest()) {
            self.call(tokens)
        } else {
            column(self.alloc, tokens)
        }
    }

    fn pooled_or(&self, tokens: &mut Cursor<'_>, word: Pool) -> Result<HeldExpression, ParseError>
        requires { Nests self.now.depth (F.pre self.now.parse) (F.post self.now.parse) }
        ensures { Reads (spec.called_or (expressions self.now.depth) (queries self.now.depth) (spec.pooled (expressions self.now.depth) (queries self.now.depth) word) tokens.old) result tokens.new }
    {
        if calls(tokens.rest()) {
            self.pooled(tokens, word)
        } else {
            self.named(tokens)
        }
    }

    fn null_if_or(&self, tokens: &mut Cursor<'_>) -> Result<HeldExpression, ParseError>
        requires { Nests self.now.depth (F.pre self.now.parse) (F.post self.now.parse) }
        ensures { Reads (spec.called_or (expressions self.now.depth) (queries self.now.depth) (spec.null_if (expressions self.now.depth) (queries self.now.depth)) tokens.old) result tokens.new }
    {
        if calls(tokens.rest()) {
            self.null_if(tokens)
        } else {
            self.named(tokens)
        }
    }

    fn extract_or(&self, tokens: &mut Cursor<'_>) -> Result<HeldExpression, ParseError>
        requires { Nests self.now.depth (F.pre self.now.parse) (F.post self.now.parse) }
        ensures { Reads (spec.called_or (expressions self.now.depth) (queries self.now.depth) (spec.extract (expressions self.now.depth) (queries self.now.depth)) tokens.old) result tokens.new }
    {
        if calls(tokens.rest()) {
            self.extract(tokens)
        } else {
            self.named(tokens)
        }
    }

    fn purposed_or(&self, tokens: &mut Cursor<'_>) -> Result<HeldExpression, ParseError>
        requires { Nests self.now.depth (F.pre self.now.parse) (F.post self.now.parse) }
        ensures { Reads (spec.by_start (expressions self.now.depth) (queries self.now.depth) start.Sqlc tokens.old) result tokens.new }
    {
        if begins_purpose(tokens.rest()) {
            purposed(self.alloc, tokens)
        } else {
            self.named(tokens)
        }
    }

    fn side(&self, tokens: &mut Cursor<'_>) -> Result<HeldExpression, ParseError>
        requires { Nests self.now.depth (F.pre self.now.parse) (F.post self.now.parse) }
        ensures { Reads (spec.by_start (expressions self.now.depth) (queries self.now.depth) start.Side tokens.old) result tokens.new }
    {
        if calls(tokens.rest()) {
            self.call(tokens)
        } else {
            Err(ParseError::Syntax)
        }
    }

    fn brackets(&self, tokens: &mut Cursor<'_>) -> Result<HeldExpression, ParseError>
        requires { Nests self.now.depth (F.pre self.now.parse) (F.post self.now.parse) }
        ensures { Reads (spec.brackets (expressions self.now.depth) (queries self.now.depth) tokens.old) result tokens.new }
    {
        if holds_query(tokens) {
            self.scalar(tokens)
        } else {
            self.bracketed(tokens)
        }
    }

    fn by_start(&self, tokens: &mut Cursor<'_>, start: Start) -> Result<HeldExpression, ParseError>
        requires { Nests self.now.depth (F.pre self.now.parse) (F.post self.now.parse) }
        ensures { Reads (spec.by_start (expressions self.now.depth) (queries self.now.depth) start tokens.old) result tokens.new }
    {
        match start {
            Start::True => constant(self.alloc, tokens, Constant::True),
            Start::False => constant(self.alloc, tokens, Constant::False),
            Start::Null => constant(self.alloc, tokens, Constant::Null),
            Start::Moment(word) => moment(self.alloc, tokens, word),
            Start::Brackets => self.brackets(tokens),
            Start::Exists => self.exists(tokens),
            Start::Array => self.array(tokens),
            Start::Case => self.case(tokens),
            Start::Cast => self.cast(tokens),
            Start::Pooled(word) => self.pooled_or(tokens, word),
            Start::NullIf => self.null_if_or(tokens),
            Start::Extract => self.extract_or(tokens),
            Start::Sqlc => self.purposed_or(tokens),
            Start::Side => self.side(tokens),
            Start::Named => self.named(tokens),
            Start::Nothing => Err(ParseError::Syntax),
        }
    }

    fn by_reading(
        &self,
        tokens: &mut Cursor<'_>,
        reading: &Reading,
    ) -> Result<HeldExpression, ParseError>
        requires { Nests self.now.depth (F.pre self.now.parse) (F.post self.now.parse) }
        ensures { Reads (spec.by_reading (expressions self.now.depth) (queries self.now.depth) reading.now tokens.old) result tokens.new }
    {
        let alloc = self.alloc;
        match reading {
            Reading::Symbol(symbol) => self.by_start(tokens, start_of(*symbol)),
            Reading::Word(_) | Reading::Quoted(_) => self.named(tokens),
            Reading::Text(bytes) => constant(alloc, tokens, Constant::Text(copied(alloc, bytes)?)),
            Reading::EText(bytes) => constant(
                alloc,
                tokens,
                Constant::EText(copied(alloc, bytes)?),
            ),
            Reading::Dollar(bytes) => constant(
                alloc,
                tokens,
                Constant::Dollar(copied(alloc, bytes)?),
            ),
            Reading::Number(bytes) => constant(
                alloc,
                tokens,
                Constant::Number(copied(alloc, bytes)?),
            ),
            Reading::Parameter(bytes) => {
                parameter(alloc, tokens, Parameter::Numbered(copied(alloc, bytes)?))
            }
            Reading::Named(name) => parameter(
                alloc,
                tokens,
                Parameter::Named(copied(alloc, name)?),
            ),
            Reading::Operator(_) | Reading::Note => Err(ParseError::Syntax),
        }
    }

    #[tactic(auto, unfolding(crate::specs::Words::primary))]
    pub fn primary(&self, tokens: &mut Cursor<'_>) -> Result<HeldExpression, ParseError>
        requires { Nests self.now.depth (F.pre self.now.parse) (F.post self.now.parse) }
        ensures { Reads (spec.primary (expressions self.now.depth) (queries self.now.depth) tokens.old) result tokens.new }
    {
        match split(tokens.rest()) {
            Some((lexeme, _)) => self.by_reading(tokens, &lexeme.reading),
            None => Err(ParseError::Syntax),
        }
    }
}
