//! The tokens that are left to read.

ghost use Rattle.std.specs.Prelude.{◌≡◌, ◌≤◌, ◌<◌, ◌^◌, [], ◌∷◌, ◌+◌, ◌-◌, length, suc, MatchOption, MatchResult};
ghost use Rattle.sq_grammar.specs.Reading as spec;
ghost use Rattle.sq_syntax.specs.declared.symbol.Symbol.TheVariants as s;
ghost use Rattle.sq_lexemes.specs.declared.error.ParseError.TheVariants as errors;
ghost use Rattle.sq_lexemes.specs.Cursor.{Fits, IsText};
ghost use Rattle.sq_lexemes.specs.Reads.{Reads};

use crate::error::ParseError;
use sq_base::Place;
use sq_syntax::{Lexeme, Node, Reading, Symbol};
use std::marker::Model;

/// The tokens from one on, and its number.
#[derive(Drop)]
pub struct Cursor<'a> {
    at: u32,
    rest: &'a [Lexeme],
}

impl<'a> Model for Cursor<'a> {
    ghost use Rattle.sq_syntax.specs.Facts.{Stream};
    ghost use Rattle.sq_lexemes.specs.Cursor.{Fits};

    ghost Value = { Stream };

    ghost view = { λ c. record { at = c.at; tokens = c.rest.now } };

    ghost invariant = { λ c. Fits c.at c.rest.now };
}

/// The first token and the others.
pub fn split(tokens: &[Lexeme]) -> Option<(&Lexeme, &[Lexeme])>
    ensures { MatchOption result (tokens.now ≡ []) (λ p. tokens.now ≡ p.0.now ∷ p.1.now) }
{
    tokens.split_first()
}

fn same(found: Symbol, symbol: Symbol) -> bool
    ensures { result ≡ spec.same found symbol }
{
    found == symbol
}

/// The token is this symbol.
pub fn is(symbol: Symbol, reading: &Reading) -> bool
    ensures { result ≡ spec.is symbol reading.now }
{
    match reading {
        Reading::Symbol(found) => same(*found, symbol),
        _ => false,
    }
}

/// The first token is this symbol.
pub fn begins(symbol: Symbol, tokens: &[Lexeme]) -> bool
    ensures { result ≡ spec.begins symbol tokens.now }
{
    match split(tokens) {
        Some((lexeme, _)) => is(symbol, &lexeme.reading),
        None => false,
    }
}

/// The first two tokens are these symbols.
pub fn begins_both(first: Symbol, second: Symbol, tokens: &[Lexeme]) -> bool
    ensures { result ≡ spec.begins_both first second tokens.now }
{
    match split(tokens) {
        Some((lexeme, rest)) => is(first, &lexeme.reading) && begins(second, rest),
        None => false,
    }
}

impl<'a> Cursor<'a> {
    /// All of these tokens, numbered from 0.
    pub fn new(rest: &'a [Lexeme]) -> Cursor<'a>
        requires { Fits 0 rest.now }
        ensures { result ≡ record { at = 0; tokens = rest.now } }
    {
        Cursor { at: 0, rest }
    }

    /// How many tokens are left.
    pub fn left(&self) -> usize
        ensures { result ≡ length self.now.tokens }
    {
        self.rest.len()
    }

    /// The tokens that are left.
    pub fn rest(&self) -> &'a [Lexeme]
        ensures value { result.now ≡ self.now.tokens }
        ensures few { length result.now < 2 ^ 32 }
    {
        self.rest
    }

    /// The next token is this symbol.
    pub fn sees(&self, symbol: Symbol) -> bool
        ensures { result ≡ spec.sees symbol self.now }
    {
        begins(symbol, self.rest)
    }

    /// The next two tokens are these symbols.
    pub fn sees_both(&self, first: Symbol, second: Symbol) -> bool
        ensures { result ≡ spec.begins_both first second self.now.tokens }
    {
        begins_both(first, second, self.rest)
    }

    /// The place of the next token.
    pub fn here(&self) -> Place
        ensures { result ≡ spec.here self.now }
    {
        match split(self.rest) {
            Some((lexeme, _)) => lexeme.place,
            None => Place {
                file: 0,
                line: 0,
                column: 0,
            },
        }
    }

    /// Takes the next token.
    pub fn take(&mut self) -> Result<&'a Lexeme, ParseError>
        ensures { MatchResult result (λ x. (self.old.tokens ≡ x.now ∷ self.new.tokens) × (self.new ≡ spec.after self.old.at self.new.tokens) × IsText x.now.reading) (λ e. (e ≡ errors.Syntax) × (self.old.tokens ≡ [])) }
    {
        let Some((lexeme, rest)) = split(self.rest) else {
            return Err(ParseError::Syntax);
        };
        self.at += 1;
        self.rest = rest;
        Ok(lexeme)
    }

    /// Takes the symbol. Every other token is a Syntax error.
    #[tactic(auto, unfolding(crate::specs::Words::expect))]
    pub fn expect(&mut self, symbol: Symbol) -> Result<(), ParseError>
        ensures { Reads (spec.expect symbol self.old) result self.new }
    {
        let lexeme = self.take()?;
        if is(symbol, &lexeme.reading) {
            Ok(())
        } else {
            Err(ParseError::Syntax)
        }
    }

    /// Takes the symbol, if it comes next.
    #[tactic(auto, unfolding(crate::specs::Words::optional))]
    pub fn optional(&mut self, symbol: Symbol) -> Result<bool, ParseError>
        ensures { Reads (spec.optional symbol self.old) result self.new }
    {
        if !self.sees(symbol) {
            return Ok(false);
        }
        self.expect(symbol)?;
        Ok(true)
    }

    /// The same tokens, to come back to.
    pub fn copy(&self) -> Cursor<'a>
        ensures { result ≡ self.now }
    {
        Cursor {
            at: self.at,
            rest: self.rest,
        }
    }

    /// What began there, and ends before the next token.
    pub fn node<T>(&self, begun: &Cursor<'_>, place: Place, form: T) -> Node<T>
        ensures { result ≡ record { place = place; first = begun.now.at; last = self.now.at - 1; form = form } }
    {
        Node {
            place,
            first: begun.at,
            last: self.at.saturating_sub(1),
            form,
        }
    }
}
