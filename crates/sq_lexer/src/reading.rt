//! The token list of a file.

ghost use Rattle.std.specs.Prelude.{
  ◌≡◌,
  ◌<◌,
  ◌≤◌,
  ◌+◌,
  ◌^◌,
  List,
  ℕ,
  [],
  length,
  drop,
  take,
  IfOk,
  IfErr,
  OnOk,
  Option,
  Some,
  None,
};
ghost use Rattle.std.specs.List.{starts_with};
ghost use Rattle.sq_base.specs.Refusals.{refused};
ghost use Rattle.sq_base.specs.declared.code.Code.TheVariants as code;
ghost use Rattle.sq_base.specs.declared.refusal.Fault.TheVariants.{Refused};
ghost use Rattle.sq_syntax.specs.Items.{fault_of, stop_at};
ghost use Rattle.sq_syntax.specs.Tokens.{AnswersFrom, TokensOf, after, file_start, has_mark, code_of, begins_line, text_gap, text_of, text_start};
ghost use Rattle.sq_lexer.specs.Machine.{scan, begin};
ghost use Rattle.sq_lexer.specs.TokenList.{token_list, AnswersList};
ghost use Rattle.sq_lexer.specs.Reading.{Advances, Fails, IsLoneOperator, noted};

use crate::item::{fault_of, stop_at, token_kind};
use crate::machine::{Found, scan};
use crate::place::{after, begins_line, file_start, gap_after};
use crate::signs::lone_signs;
use sq_base::{Code, Fault, List, Place, Refusal};
use sq_syntax::{Gap, ItemKind, Stop, Token};
use std::alloc::{AllocError, Global};
use std::str::from_utf8;

/// The tokens so far, the place behind them, and the gap since the last.
#[derive(Drop)]
pub(crate) struct Notes {
    pub tokens: List<Token>,
    pub place: Place,
    pub gap: Gap,
}

/// The kind of the refusal of what stops a reading.
fn code_of(stop: Stop) -> Code
    ensures { result ≡ code_of stop }
{
    match stop {
        Stop::Unterminated => Code::Unterminated,
        Stop::BadByte => Code::BadByte,
    }
}

impl Notes {
    /// Takes an item: a token is kept, and each item moves the place.
    fn note(&mut self, alloc: Global, kind: ItemKind, item: &[u8]) -> Result<(), AllocError>
        requires line { self.old.place.line + length item.now < 2 ^ 32 }
        requires column { self.old.place.column + length item.now < 2 ^ 32 }
        ensures noted { OnOk result (self.new ≡ noted self.old kind item.now) }
        ensures line { OnOk result (self.new.place.line ≤ self.old.place.line + length item.now) }
        ensures column { OnOk result (self.new.place.column ≤ self.old.place.column + length item.now) }
    {
        let place = after(self.place, item);
        match token_kind(kind, item) {
            Some(kind) => {
                let bytes = List::from_slice(alloc, item)?;
                self.tokens.push(Token {
                    kind,
                    bytes,
                    place: self.place,
                    gap: self.gap,
                })?;
                self.gap = Gap::Nothing;
            }
            None => self.gap = gap_after(self.gap, item),
        }
        self.place = place;
        Ok(())
    }

    /// Why the reading stops here.
    fn stopped(&self, alloc: Global, stop: Stop) -> Fault
        ensures { result ≡ Refused (refused (code_of stop) self.now.place) }
    {
        Fault::Refused(Refusal::at(alloc, code_of(stop), self.place))
    }

    /// Takes the item that was found in front of the rest of the text.
    fn take_found(&mut self, alloc: Global, rest: &[u8], found: Found) -> Result<usize, Fault>
        requires exact { scan [] (begin (begins_line self.old.place)) None rest.now ≡ Some found }
        requires line { self.old.place.line + length rest.now < 2 ^ 32 }
        requires column { self.old.place.column + length rest.now < 2 ^ 32 }
        ensures exact { IfOk result (λ size. size ≡ found.size) }
        ensures some { IfOk result (λ size. 0 < size) }
        ensures within { IfOk result (λ size. size ≤ length rest.now) }
        ensures line { IfOk result (λ size. self.new.place.line ≤ self.old.place.line + size) }
        ensures column { IfOk result (λ size. self.new.place.column ≤ self.old.place.column + size) }
        ensures next { IfOk result (λ size. Advances self.old rest.now self.new (drop size rest.now)) }
        ensures refused { IfErr result (λ fault. Fails self.old rest.now fault) }
    {
        let (item, others) = rest.split_at(found.size);
        match fault_of(found.kind, item, others) {
            Some(stop) => Err(self.stopped(alloc, stop)),
            None => match self.note(alloc, found.kind, item) {
                Ok(()) => Ok(found.size),
                Err(_) => Err(Fault::Memory),
            },
        }
    }

    /// Takes so many signs off the front of the rest, each as an operator of its own.
    fn take_signs(&mut self, alloc: Global, rest: &[u8], count: usize) -> Result<usize, Fault>
        requires some { 0 < count }
        requires within { count ≤ length rest.now }
        requires alone { (i : ℕ) → i < count → IsLoneOperator (drop i rest.now) }
        requires line { self.old.place.line + length rest.now < 2 ^ 32 }
        requires column { self.old.place.column + length rest.now < 2 ^ 32 }
        ensures some { IfOk result (λ size. 0 < size) }
        ensures within { IfOk result (λ size. size ≤ length rest.now) }
        ensures line { IfOk result (λ size. self.new.place.line ≤ self.old.place.line + size) }
        ensures column { IfOk result (λ size. self.new.place.column ≤ self.old.place.column + size) }
        ensures next { IfOk result (λ size. Advances self.old rest.now self.new (drop size rest.now)) }
        ensures refused { IfErr result (λ fault. Fails self.old rest.now fault) }
    {
        for index in 0..count {
            let sign = Found {
                kind: ItemKind::Operator,
                size: 1,
            };
            if let Err(fault) = self.take_found(alloc, &rest[index..], sign) {
                return Err(fault);
            }
        }
        Ok(count)
    }

    /// Takes the next items of the rest of the text, and gives the number of their bytes.
    fn take_next(&mut self, alloc: Global, rest: &[u8]) -> Result<usize, Fault>
        requires some { 0 < length rest.now }
        requires line { self.old.place.line + length rest.now < 2 ^ 32 }
        requires column { self.old.place.column + length rest.now < 2 ^ 32 }
        ensures some { IfOk result (λ size. 0 < size) }
        ensures within { IfOk result (λ size. size ≤ length rest.now) }
        ensures line { IfOk result (λ size. self.new.place.line ≤ self.old.place.line + size) }
        ensures column { IfOk result (λ size. self.new.place.column ≤ self.old.place.column + size) }
        ensures next { IfOk result (λ size. Advances self.old rest.now self.new (drop size rest.now)) }
        ensures refused { IfErr result (λ fault. Fails self.old rest.now fault) }
    {
        let alone = lone_signs(rest);
        if alone > 0 {
            return self.take_signs(alloc, rest, alone);
        }
        match scan(rest, begins_line(self.place)) {
            Some(found) => self.take_found(alloc, rest, found),
            None => Err(self.stopped(alloc, stop_at(rest))),
        }
    }
}

/// The tokens of a text that begins at this place, behind this gap.
fn read(alloc: Global, gap: Gap, place: Place, text: &[u8]) -> Result<List<Token>, Fault>
    requires line { place.line + length text.now < 2 ^ 32 }
    requires column { place.column + length text.now < 2 ^ 32 }
    ensures { AnswersFrom gap place text.now result }
{
    let mut notes = Notes {
        tokens: List::new(alloc),
        place,
        gap,
    };
    let mut start = 0;
    while start < text.len() {
        let size = notes.take_next(alloc, &text[start..])?;
        start += size;
    }
    Ok(notes.tokens)
}

fn has_mark(bytes: &[u8]) -> bool
    ensures { result ≡ has_mark bytes.now }
{
    bytes.starts_with(b"\xEF\xBB\xBF".as_slice())
}

/// The tokens of a file that is UTF-8.
fn text_tokens(alloc: Global, file: u32, bytes: &[u8]) -> Result<List<Token>, Fault>
    requires { length bytes.now ≤ 4194304 }
    ensures { AnswersFrom (text_gap bytes.now) (text_start file bytes.now) (text_of bytes.now) result }
{
    let mut place = file_start(file);
    if has_mark(bytes) {
        place.column = 4;
        read(alloc, Gap::Blank, place, &bytes[3..])
    } else {
        read(alloc, Gap::Nothing, place, bytes)
    }
}

/// The refusal of a file that is no UTF-8, the longest part in front that is UTF-8 being given.
fn ill_formed(alloc: Global, file: u32, front: &[u8]) -> Fault
    requires { length front.now ≤ 4194304 }
    ensures { result ≡ Refused (refused code.NotUtf8 (after (file_start file) front.now)) }
{
    Fault::Refused(Refusal::at(alloc, Code::NotUtf8, after(file_start(file), front)))
}

/// The tokens of a file.
pub fn tokens(alloc: Global, file: u32, bytes: &[u8]) -> Result<List<Token>, Fault>
    requires { length bytes.now ≤ 4194304 }
    ensures meant { TokensOf file bytes.now result }
    ensures list { AnswersList (token_list file bytes.now) result }
{
    match from_utf8(bytes) {
        Ok(_) => text_tokens(alloc, file, bytes),
        Err(error) => Err(ill_formed(alloc, file, &bytes[..error.valid_up_to()])),
    }
}
