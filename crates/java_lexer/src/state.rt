//! The longest piece at the front of a text (JLS 3.2).
ghost use Rattle.std.specs.Prelude.{◌≡◌, ◌≤◌, ◌<◌, IfSome, None, Some, drop, length, min, true};
ghost use Rattle.std.specs.Bool.{OnTrue};
ghost use Rattle.std.specs.Char.Utf16.{is_high_surrogate, is_low_surrogate, surrogate_pair_char};
ghost use Rattle.java_lexer.specs.Machine.{next_state, scan as machine_scan, state_kind};
ghost use Rattle.java_lexer.specs.Machine as machine;
ghost use Rattle.java_lexer.specs.Pieces.{opens_comment as does_open, piece_at as piece_of};

use crate::form::Form;
use crate::kind::Kind;
use java_text::{begins_identifier, continues_identifier};

/// What the units of a piece so far make of it.
#[derive(Clone, Copy)]
pub enum State {
    Start,
    /// The first unit of a pair, of which a word's first character may be made.
    FirstPair(u16),
    /// An identifier or a keyword.
    Word,
    /// A word and the first unit of a pair.
    WordPair(u16),
    Other(Form),
}

impl State {
    /// What the next unit makes of it, if it goes on.
    #[inline]
    fn next(self, unit: u16) -> Option<State>
        ensures { result ≡ next_state self unit }
    {
        match self {
            State::Start => first(unit),
            State::FirstPair(high) => {
                if is_low(unit) && begins_identifier(character(high, unit)) {
                    Some(State::Word)
                } else {
                    None
                }
            }
            State::Word => {
                if is_high(unit) {
                    Some(State::WordPair(unit))
                } else if continues_identifier(unit as u32) {
                    Some(State::Word)
                } else {
                    None
                }
            }
            State::WordPair(high) => {
                if is_low(unit) && continues_identifier(character(high, unit)) {
                    Some(State::Word)
                } else {
                    None
                }
            }
            State::Other(form) => other(form.next(symbol(unit))),
        }
    }

    /// The kind of the piece, if it may end here.
    fn kind(self) -> Option<Kind>
        ensures { result ≡ state_kind self }
    {
        match self {
            State::Word => Some(Kind::Word),
            State::Other(form) => form.kind(),
            _ => None,
        }
    }
}

fn first(unit: u16) -> Option<State>
    ensures { result ≡ next_state State.Start unit }
{
    if is_high(unit) {
        Some(State::FirstPair(unit))
    } else if begins_identifier(unit as u32) {
        Some(State::Word)
    } else {
        other(Form::first(symbol(unit)))
    }
}

fn other(form: Option<Form>) -> Option<State>
    ensures { result ≡ machine.other form }
{
    match form {
        Some(form) => Some(State::Other(form)),
        None => None,
    }
}

/// The unit, or 128 for any that is not ASCII.
fn symbol(unit: u16) -> u8
    ensures { result ≡ min unit 128 }
{
    unit.min(128) as u8
}

fn is_high(unit: u16) -> bool
    ensures { result ≡ is_high_surrogate unit }
{
    unit >= 0xD800 && unit < 0xDC00
}

fn is_low(unit: u16) -> bool
    ensures { result ≡ is_low_surrogate unit }
{
    unit >= 0xDC00 && unit < 0xE000
}

/// The character of a pair. Where `high` is no first unit of a pair, it takes its bits as if it
/// were.
fn character(high: u16, low: u16) -> u32
    requires { is_low_surrogate low ≡ true }
    ensures { result ≡ surrogate_pair_char high low }
{
    0x1_0000 + (high as u32).saturating_sub(0xD800) * 0x400 + (low as u32 - 0xDC00)
}

/// How far the longest piece reaches that the units from a place on complete from this state, and
/// its kind; or else the piece before them.
fn scan(
    start: State,
    from: usize,
    before: Option<(usize, Kind)>,
    units: &[u16],
) -> Option<(usize, Kind)>
    requires from { from ≤ length units.now }
    requires before { IfSome before (λ found. found.0 ≤ from) }
    ensures value { result ≡ machine_scan start from before (drop from units.now) }
    ensures within { IfSome result (λ found. found.0 ≤ length units.now) }
{
    let mut state = start;
    let mut best = before;
    for index in from..units.len() {
        match state.next(units[index]) {
            None => return best,
            Some(next) => {
                state = next;
                match next.kind() {
                    Some(kind) => best = Some((index + 1, kind)),
                    None => {}
                }
            }
        }
    }
    best
}

/// The longest piece at the front, its length and its kind.
pub fn piece_at(units: &[u16]) -> Option<(usize, Kind)>
    ensures value { result ≡ piece_of units.now }
    ensures within { IfSome result (λ found. found.0 ≤ length units.now) }
    ensures progress { IfSome result (λ found. 0 < found.0) }
{
    if opens_comment(units) {
        return comment_at(units);
    }
    if begins_blank(units) {
        return Some((1, Kind::Blank));
    }
    let word = ascii_word(units);
    if word > 0 {
        scan(State::Word, word, Some((word, Kind::Word)), units)
    } else {
        scan(State::Start, 0, None, units)
    }
}

/// Whether a blank or a line feed stands at the front.
fn begins_blank(units: &[u16]) -> bool
    ensures piece { OnTrue result (machine_scan State.Start 0 None units.now
        ≡ Some (1, Kind.Blank)) }
    ensures room { OnTrue result (0 < length units.now) }
{
    !units.is_empty() && is_blank(units[0])
}

fn is_blank(unit: u16) -> bool
    ensures { OnTrue result (next_state State.Start unit
        ≡ Some (State.Other (Form.Closed Kind.Blank))) }
{
    unit == b' ' as u16 || unit == b'\n' as u16
}

/// How many ASCII units the word at the front begins with, if there is one.
fn ascii_word(units: &[u16]) -> usize
    ensures value { 0 < result
        → machine_scan State.Word result (Some (result, Kind.Word)) (drop result units.now)
        ≡ machine_scan State.Start 0 None units.now }
    ensures within { result ≤ length units.now }
{
    if units.is_empty() || !begins_ascii_word(units[0]) {
        return 0;
    }
    let mut end = 1;
    while end < units.len() && continues_ascii_word(units[end]) {
        end += 1;
    }
    end
}

fn begins_ascii_word(unit: u16) -> bool
    ensures { OnTrue result (next_state State.Start unit ≡ Some State.Word) }
{
    unit < 0x80 && begins_identifier(unit as u32)
}

fn continues_ascii_word(unit: u16) -> bool
    ensures { OnTrue result (next_state State.Word unit ≡ Some State.Word) }
{
    unit < 0x80 && continues_identifier(unit as u32)
}

/// Whether `/*` stands at the front.
fn opens_comment(units: &[u16]) -> bool
    ensures value { result ≡ does_open units.now }
    ensures room { OnTrue result (2 ≤ length units.now) }
{
    units.len() >= 2 && units[0] == b'/' as u16 && units[1] == b'*' as u16
}

fn comment_at(units: &[u16]) -> Option<(usize, Kind)>
    requires room { 2 ≤ length units.now }
    requires opens { does_open units.now ≡ true }
    ensures value { result ≡ piece_of units.now }
    ensures within { IfSome result (λ found. found.0 ≤ length units.now) }
{
    match scan(
        State::Other(Form::Comment { star: false }),
        0,
        None,
        &units[2..],
    ) {
        Some((length, kind)) => Some((length + 2, kind)),
        None => None,
    }
}
