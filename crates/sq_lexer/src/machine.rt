//! The machine that reads an item byte by byte.

ghost use Rattle.std.specs.Prelude.{◌≡◌, ◌≤◌, ◌<◌, ◌+◌, ◌^◌, [], None, length, take, drop};
ghost use Rattle.sq_syntax.specs.Classes.{
  is_blank,
  is_no_newline,
  is_digit,
  is_sign,
  continues_tag,
  continues_word,
  begins_word,
  in_operator,
  is_special,
  breaks_off,
};
ghost use Rattle.sq_lexer.specs.Machine.{
  accepts,
  after_double,
  after_escaped,
  after_fraction,
  after_single,
  after_whole,
  backslash_line,
  begin,
  blank,
  closed,
  colon,
  comment,
  comment_slash,
  comment_star,
  dollar,
  dollar_sign,
  ended_operator,
  exponent,
  exponent_mark,
  fraction,
  inside_double,
  inside_escaped,
  inside_single,
  later,
  letter_e,
  line_comment,
  line_start,
  lone,
  matched_after,
  named,
  opened,
  operator,
  parameter,
  point,
  reach,
  scan,
  start,
  step,
  tag,
  unless_double,
  unless_single,
  whole,
  word,
};
ghost use Rattle.sq_lexer.specs.declared.machine.State.TheVariants as at;

use sq_syntax::{ByteClass, ItemKind, class_of};

/// What has come of an item.
#[derive(Clone, Copy, PartialEq, Eq)]
pub(crate) enum State {
    Start,
    LineStart,
    /// No item has these bytes in front.
    Dead,
    Blank,
    LineComment,
    /// Inside a block comment, round which this many others are open.
    Comment(usize),
    CommentSlash(usize),
    CommentStar(usize),
    CommentEnd,
    BackslashLine,
    /// `E` or `e` alone.
    LetterE,
    Word,
    InsideDouble,
    AfterDouble,
    InsideSingle,
    AfterSingle,
    InsideEscaped,
    AfterEscaped,
    /// Behind a backslash in an EText.
    Escape,
    DollarSign,
    Tag,
    /// Behind a mark of this many bytes, of which this many have come again.
    Dollar { size: usize, matched: usize },
    Parameter,
    Named,
    Whole,
    WholePoint,
    LeadingPoint,
    Fraction,
    ExponentMark,
    ExponentSign,
    Exponent,
    /// One byte of an operator.
    Lone(ByteClass),
    Operator { special: bool, last: ByteClass },
    Colon,
    Punct,
}

fn is_blank(class: ByteClass) -> bool
    ensures { result ≡ is_blank class }
{
    matches!(class, ByteClass::Blank | ByteClass::Newline)
}

fn is_no_newline(class: ByteClass) -> bool
    ensures { result ≡ is_no_newline class }
{
    !matches!(class, ByteClass::Newline)
}

fn is_digit(class: ByteClass) -> bool
    ensures { result ≡ is_digit class }
{
    matches!(class, ByteClass::Zero | ByteClass::Digit)
}

pub(crate) fn begins_word(class: ByteClass) -> bool
    ensures { result ≡ begins_word class }
{
    matches!(class, ByteClass::Letter | ByteClass::LetterE)
}

pub(crate) fn continues_tag(class: ByteClass) -> bool
    ensures { result ≡ continues_tag class }
{
    matches!(
        class,
        ByteClass::Letter | ByteClass::LetterE | ByteClass::Zero | ByteClass::Digit
    )
}

fn continues_word(class: ByteClass) -> bool
    ensures { result ≡ continues_word class }
{
    match class {
        ByteClass::Dollar => true,
        _ => continues_tag(class),
    }
}

pub(crate) fn is_sign(class: ByteClass) -> bool
    ensures { result ≡ is_sign class }
{
    matches!(class, ByteClass::Plus | ByteClass::Dash)
}

pub(crate) fn in_operator(class: ByteClass) -> bool
    ensures { result ≡ in_operator class }
{
    matches!(
        class,
        ByteClass::Plus
            | ByteClass::Dash
            | ByteClass::Slash
            | ByteClass::Star
            | ByteClass::Plain
            | ByteClass::Special
            | ByteClass::At
    )
}

fn is_special(class: ByteClass) -> bool
    ensures { result ≡ is_special class }
{
    matches!(class, ByteClass::Special | ByteClass::At)
}

pub(crate) fn breaks_off(last: ByteClass, next: Option<ByteClass>) -> bool
    ensures { result ≡ breaks_off last next }
{
    match last {
        ByteClass::Dash => matches!(next, Some(ByteClass::Dash)),
        ByteClass::Slash => matches!(next, Some(ByteClass::Star)),
        ByteClass::At => match next {
            Some(class) => begins_word(class),
            None => false,
        },
        _ => false,
    }
}

fn start(class: ByteClass) -> State
    ensures { result ≡ start class }
{
    match class {
        ByteClass::Blank | ByteClass::Newline => State::Blank,
        ByteClass::LetterE => State::LetterE,
        ByteClass::Letter => State::Word,
        ByteClass::Zero | ByteClass::Digit => State::Whole,
        ByteClass::Point => State::LeadingPoint,
        ByteClass::DoubleQuote => State::InsideDouble,
        ByteClass::SingleQuote => State::InsideSingle,
        ByteClass::Plus
        | ByteClass::Dash
        | ByteClass::Slash
        | ByteClass::Star
        | ByteClass::At
        | ByteClass::Plain
        | ByteClass::Special => State::Lone(class),
        ByteClass::Dollar => State::DollarSign,
        ByteClass::Colon => State::Colon,
        ByteClass::Bracket => State::Punct,
        ByteClass::Backslash | ByteClass::Other => State::Dead,
    }
}

fn line_start(class: ByteClass) -> State
    ensures { result ≡ line_start class }
{
    match class {
        ByteClass::Backslash => State::BackslashLine,
        _ => start(class),
    }
}

fn blank(class: ByteClass) -> State
    ensures { result ≡ blank class }
{
    if is_blank(class) {
        State::Blank
    } else {
        State::Dead
    }
}

fn line_comment(class: ByteClass) -> State
    ensures { result ≡ line_comment class }
{
    if is_no_newline(class) {
        State::LineComment
    } else {
        State::Dead
    }
}

fn backslash_line(class: ByteClass) -> State
    ensures { result ≡ backslash_line class }
{
    if is_no_newline(class) {
        State::BackslashLine
    } else {
        State::Dead
    }
}

fn word(class: ByteClass) -> State
    ensures { result ≡ word class }
{
    if continues_word(class) {
        State::Word
    } else {
        State::Dead
    }
}

fn letter_e(class: ByteClass) -> State
    ensures { result ≡ letter_e class }
{
    match class {
        ByteClass::SingleQuote => State::InsideEscaped,
        _ => word(class),
    }
}

fn named(class: ByteClass) -> State
    ensures { result ≡ named class }
{
    if continues_word(class) {
        State::Named
    } else {
        State::Dead
    }
}

fn parameter(class: ByteClass) -> State
    ensures { result ≡ parameter class }
{
    if is_digit(class) {
        State::Parameter
    } else {
        State::Dead
    }
}

fn inside_double(class: ByteClass) -> State
    ensures { result ≡ inside_double class }
{
    match class {
        ByteClass::DoubleQuote => State::AfterDouble,
        _ => State::InsideDouble,
    }
}

fn after_double(class: ByteClass) -> State
    ensures { result ≡ after_double class }
{
    match class {
        ByteClass::DoubleQuote => State::InsideDouble,
        _ => State::Dead,
    }
}

fn inside_single(class: ByteClass) -> State
    ensures { result ≡ inside_single class }
{
    match class {
        ByteClass::SingleQuote => State::AfterSingle,
        _ => State::InsideSingle,
    }
}

fn after_single(class: ByteClass) -> State
    ensures { result ≡ after_single class }
{
    match class {
        ByteClass::SingleQuote => State::InsideSingle,
        _ => State::Dead,
    }
}

fn inside_escaped(class: ByteClass) -> State
    ensures { result ≡ inside_escaped class }
{
    match class {
        ByteClass::SingleQuote => State::AfterEscaped,
        ByteClass::Backslash => State::Escape,
        _ => State::InsideEscaped,
    }
}

fn after_escaped(class: ByteClass) -> State
    ensures { result ≡ after_escaped class }
{
    match class {
        ByteClass::SingleQuote => State::InsideEscaped,
        _ => State::Dead,
    }
}

fn after_whole(class: ByteClass) -> State
    ensures { result ≡ after_whole class }
{
    match class {
        ByteClass::Point => State::WholePoint,
        ByteClass::LetterE => State::ExponentMark,
        _ => State::Dead,
    }
}

fn whole(class: ByteClass) -> State
    ensures { result ≡ whole class }
{
    if is_digit(class) {
        State::Whole
    } else {
        after_whole(class)
    }
}

fn point(class: ByteClass) -> State
    ensures { result ≡ point class }
{
    if is_digit(class) {
        State::Fraction
    } else {
        State::Dead
    }
}

fn after_fraction(class: ByteClass) -> State
    ensures { result ≡ after_fraction class }
{
    match class {
        ByteClass::LetterE => State::ExponentMark,
        _ => State::Dead,
    }
}

fn fraction(class: ByteClass) -> State
    ensures { result ≡ fraction class }
{
    if is_digit(class) {
        State::Fraction
    } else {
        after_fraction(class)
    }
}

fn exponent(class: ByteClass) -> State
    ensures { result ≡ exponent class }
{
    if is_digit(class) {
        State::Exponent
    } else {
        State::Dead
    }
}

fn exponent_mark(class: ByteClass) -> State
    ensures { result ≡ exponent_mark class }
{
    if is_digit(class) {
        State::Exponent
    } else if is_sign(class) {
        State::ExponentSign
    } else {
        State::Dead
    }
}

fn opened(last: ByteClass) -> State
    ensures { result ≡ opened last }
{
    match last {
        ByteClass::Dash => State::LineComment,
        ByteClass::Slash => State::Comment(0),
        _ => State::Named,
    }
}

fn operator(special: bool, last: ByteClass, class: ByteClass) -> State
    ensures { result ≡ operator special last class }
{
    if in_operator(class) && !breaks_off(last, Some(class)) {
        State::Operator {
            special: special || is_special(class),
            last: class,
        }
    } else {
        State::Dead
    }
}

fn lone(last: ByteClass, class: ByteClass) -> State
    ensures { result ≡ lone last class }
{
    if breaks_off(last, Some(class)) {
        opened(last)
    } else {
        operator(is_special(last), last, class)
    }
}

fn comment(depth: usize, class: ByteClass) -> State
    ensures { result ≡ comment depth class }
{
    match class {
        ByteClass::Slash => State::CommentSlash(depth),
        ByteClass::Star => State::CommentStar(depth),
        _ => State::Comment(depth),
    }
}

fn comment_slash(depth: usize, class: ByteClass) -> State
    requires { depth + 1 < 2 ^ 64 }
    ensures { result ≡ comment_slash depth class }
{
    match class {
        ByteClass::Star => State::Comment(depth + 1),
        _ => comment(depth, class),
    }
}

fn closed(depth: usize) -> State
    ensures { result ≡ closed depth }
{
    if depth == 0 {
        State::CommentEnd
    } else {
        State::Comment(depth - 1)
    }
}

fn comment_star(depth: usize, class: ByteClass) -> State
    ensures { result ≡ comment_star depth class }
{
    match class {
        ByteClass::Slash => closed(depth),
        _ => comment(depth, class),
    }
}

fn colon(class: ByteClass) -> State
    ensures { result ≡ colon class }
{
    match class {
        ByteClass::Colon => State::Punct,
        _ => State::Dead,
    }
}

fn dollar_sign(size: usize, class: ByteClass) -> State
    ensures { result ≡ dollar_sign size class }
{
    match class {
        ByteClass::Dollar => State::Dollar { size, matched: 0 },
        ByteClass::Digit => State::Parameter,
        _ => {
            if begins_word(class) {
                State::Tag
            } else {
                State::Dead
            }
        }
    }
}

fn tag(size: usize, class: ByteClass) -> State
    ensures { result ≡ tag size class }
{
    match class {
        ByteClass::Dollar => State::Dollar { size, matched: 0 },
        _ => {
            if continues_tag(class) {
                State::Tag
            } else {
                State::Dead
            }
        }
    }
}

/// How many bytes of the mark have come after one more byte.
fn matched_after(seen: &[u8], matched: usize, byte: u8) -> usize
    requires { matched < length seen.now }
    ensures { result ≡ matched_after seen.now matched byte }
{
    if byte == seen[matched] {
        matched + 1
    } else if byte == b'$' {
        1
    } else {
        0
    }
}

fn dollar(seen: &[u8], size: usize, matched: usize, byte: u8) -> State
    requires { size ≤ length seen.now }
    ensures { result ≡ dollar seen.now size matched byte }
{
    if matched < size {
        let matched = matched_after(seen, matched, byte);
        State::Dollar { size, matched }
    } else {
        State::Dead
    }
}

/// The state after one more byte, behind those that were seen.
pub(crate) fn step(seen: &[u8], state: State, byte: u8) -> State
    requires { reach state ≤ length seen.now }
    ensures { result ≡ step seen.now state byte }
{
    let class = class_of(byte);
    match state {
        State::Start => start(class),
        State::LineStart => line_start(class),
        State::Dead | State::CommentEnd | State::Punct => State::Dead,
        State::Blank => blank(class),
        State::LineComment => line_comment(class),
        State::Comment(depth) => comment(depth, class),
        State::CommentSlash(depth) => comment_slash(depth, class),
        State::CommentStar(depth) => comment_star(depth, class),
        State::BackslashLine => backslash_line(class),
        State::LetterE => letter_e(class),
        State::Word => word(class),
        State::InsideDouble => inside_double(class),
        State::AfterDouble => after_double(class),
        State::InsideSingle => inside_single(class),
        State::AfterSingle => after_single(class),
        State::InsideEscaped => inside_escaped(class),
        State::AfterEscaped => after_escaped(class),
        State::Escape => State::InsideEscaped,
        State::DollarSign => dollar_sign(seen.len() + 1, class),
        State::Tag => tag(seen.len() + 1, class),
        State::Dollar { size, matched } => dollar(seen, size, matched, byte),
        State::Parameter => parameter(class),
        State::Named => named(class),
        State::Whole => whole(class),
        State::WholePoint | State::LeadingPoint => point(class),
        State::Fraction => fraction(class),
        State::ExponentMark => exponent_mark(class),
        State::ExponentSign | State::Exponent => exponent(class),
        State::Lone(last) => lone(last, class),
        State::Operator { special, last } => operator(special, last, class),
        State::Colon => colon(class),
    }
}

fn unless_double(kind: ItemKind, next: Option<ByteClass>) -> Option<ItemKind>
    ensures { result ≡ unless_double kind next }
{
    match next {
        Some(ByteClass::DoubleQuote) => None,
        _ => Some(kind),
    }
}

fn unless_single(kind: ItemKind, next: Option<ByteClass>) -> Option<ItemKind>
    ensures { result ≡ unless_single kind next }
{
    match next {
        Some(ByteClass::SingleQuote) => None,
        _ => Some(kind),
    }
}

fn ended_operator(may_end: bool, last: ByteClass, next: Option<ByteClass>) -> Option<ItemKind>
    ensures { result ≡ ended_operator may_end last next }
{
    if !breaks_off(last, next) && (may_end || !is_sign(last)) {
        Some(ItemKind::Operator)
    } else {
        None
    }
}

fn whole_dollar(size: usize, matched: usize) -> Option<ItemKind>
    ensures { result ≡ accepts (at.Dollar size matched) None }
{
    if matched == size {
        Some(ItemKind::Dollar)
    } else {
        None
    }
}

/// What the bytes so far are where this byte, or the end, comes next.
pub(crate) fn accepts(state: State, next: Option<ByteClass>) -> Option<ItemKind>
    ensures { result ≡ accepts state next }
{
    match state {
        State::Blank => Some(ItemKind::Blank),
        State::LineComment => Some(ItemKind::LineComment),
        State::CommentEnd => Some(ItemKind::BlockComment),
        State::BackslashLine => Some(ItemKind::BackslashLine),
        State::LetterE => unless_single(ItemKind::Word, next),
        State::Word => Some(ItemKind::Word),
        State::AfterDouble => unless_double(ItemKind::Quoted, next),
        State::AfterSingle => unless_single(ItemKind::Text, next),
        State::AfterEscaped => unless_single(ItemKind::EText, next),
        State::Dollar { size, matched } => whole_dollar(size, matched),
        State::Parameter => Some(ItemKind::Parameter),
        State::Named => Some(ItemKind::Named),
        State::Whole | State::Fraction | State::Exponent => Some(ItemKind::Number),
        State::LeadingPoint | State::Punct => Some(ItemKind::Punct),
        State::Lone(last) => ended_operator(true, last, next),
        State::Operator { special, last } => ended_operator(special, last, next),
        _ => None,
    }
}

/// An item at the front of some bytes: what it is, and how many bytes it has.
#[derive(Clone, Copy, PartialEq, Eq)]
pub(crate) struct Found {
    pub kind: ItemKind,
    pub size: usize,
}

fn later(kind: Option<ItemKind>, size: usize, found: Option<Found>) -> Option<Found>
    ensures { result ≡ later kind size found }
{
    match kind {
        Some(kind) => Some(Found { kind, size }),
        None => found,
    }
}

fn begin(first: bool) -> State
    ensures { result ≡ begin first }
{
    if first {
        State::LineStart
    } else {
        State::Start
    }
}

/// The longest item at the front of the bytes, which begin a line or do not.
pub(crate) fn scan(bytes: &[u8], first: bool) -> Option<Found>
    ensures { result ≡ scan [] (begin first) None bytes.now }
{
    let mut state = begin(first);
    let mut found = None;
    for (index, byte) in bytes.iter().enumerate() {
        found = later(accepts(state, Some(class_of(*byte))), index, found);
        state = step(&bytes[..index], state, *byte);
        if state == State::Dead {
            return found;
        }
    }
    later(accepts(state, None), bytes.len(), found)
}
