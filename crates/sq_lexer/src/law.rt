//! What the definition of a file's token list implies.

ghost use Rattle.std.specs.Prelude.{◌≡◌, List, ℕ, Option, Result, Ok, false, take, drop, map};
ghost use Rattle.sq_base.specs.declared.place.Place.{Place};
ghost use Rattle.sq_base.specs.declared.refusal.Fault.{Fault};
ghost use Rattle.sq_syntax.specs.Tokens.{Reads, Stopped, TokensOf, has_mark};
ghost use Rattle.sq_lexer.specs.Printed.{printed, spelling, AreSimple};
ghost use Rattle.sq_lexer.specs.Respelling.{ReadAs, ListedAs};
ghost use Rattle.sq_syntax.specs.declared.token.Token.{Token};
ghost use Rattle.sq_syntax.specs.declared.token.Gap.{Gap};
ghost use Rattle.sq_lexer.specs.TokenList.{token_list, with_memory, AnswersList};

/// Bytes are read in one way at most: as one token list, or up to one refusal.
#[tactic(auto, using(crate::proofs::OneReading::readings_agree))]
pub fn one_token_list()
    ensures { (gap : Gap) (place : Place) (bytes : List ℕ) (tokens others : List Token) (ending other : Option Stopped)
        → Reads gap place bytes tokens ending → Reads gap place bytes others other → (tokens ≡ others) × (ending ≡ other) }
{}

/// The function that gives a file's token list gives the one that the definition means, and each answer that the definition allows is it.
#[tactic(auto, using(crate::proofs::ListLemmas::list_right, crate::proofs::ListLemmas::listed))]
pub fn token_list_is_meant()
    ensures meant { (file : ℕ) (bytes : List ℕ) → TokensOf file bytes (with_memory (token_list file bytes)) }
    ensures alone { (file : ℕ) (bytes : List ℕ) (answer : Result (List Token) Fault) → TokensOf file bytes answer → AnswersList (token_list file bytes) answer }
{}

/// A stretch of a token list, printed, has the same tokens again, where each is a Word, a Quoted, or a Punct of one byte.
#[tactic(auto, using(crate::proofs::Respelled::stretch_again, crate::proofs::Respelled::stretch_listed))]
pub fn printed_tokens_are_read_again()
    ensures read { (gap : Gap) (place : Place) (bytes : List ℕ) (tokens : List Token) (ending : Option Stopped) (skipped count : ℕ) (other : Gap) (start : Place)
        → Reads gap place bytes tokens ending → AreSimple (take count (drop skipped tokens))
        → ReadAs other start (printed (take count (drop skipped tokens))) (map spelling (take count (drop skipped tokens))) }
    ensures list { (file : ℕ) (bytes : List ℕ) (tokens : List Token) (skipped count other : ℕ)
        → token_list file bytes ≡ Ok tokens → AreSimple (take count (drop skipped tokens))
        → has_mark (printed (take count (drop skipped tokens))) ≡ false
        → ListedAs other (printed (take count (drop skipped tokens))) (map spelling (take count (drop skipped tokens))) }
{}
