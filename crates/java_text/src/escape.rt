//! Unicode escapes (JLS 3.3).
ghost use Rattle.std.specs.Prelude.{◌≡◌, ◌≤◌, ◌<◌, ◌^◌, ◌++◌, ◌∷◌, [], IfOk, List, length, drop};
ghost use Rattle.std.specs.Prelude.{map, IfSome, MatchOption, OnSome, None, Some, true, false};
ghost use Rattle.java_text.specs.declared.escape.Input.{Input};
ghost use Rattle.java_text.specs.Ending.{EndsSo};
ghost use Rattle.java_text.specs.Source as spec;
ghost use Rattle.java_text.specs.Source.{unicode_escape_length, unicode_escape_value};
ghost use Rattle.java_text.specs.Source.{first_input, is_eligible, translated};

use crate::character::{BACKSLASH, LETTER_U};
use hdr_core::Memory;
use std::alloc::Global;

/// A unit of the translated text.
#[derive(Clone, Copy)]
pub struct Input {
    pub unit: u16,
    /// Whether an escape was translated to it.
    pub is_escaped: bool,
}

/// How the units so far end.
#[derive(Clone, Copy)]
struct Ending {
    /// The last one was translated from an escape.
    is_escaped: bool,
    /// The backslashes at the end are odd in number.
    is_odd: bool,
}

/// The units with each Unicode escape replaced by what it indicates.
pub fn translate(alloc: Global, raw: &[u16]) -> Result<Vec<u16>, Memory>
    ensures { IfOk result (λ units. units.items ≡ translated raw.now) }
{
    let mut units = Vec::with_capacity(alloc, raw.len())?;
    let mut ending = Ending {
        is_escaped: false,
        is_odd: false,
    };
    let mut at = 0;
    while at < raw.len() {
        let (input, taken) = ending.next(raw[at], &raw[at + 1..]);
        units.push(input.unit)?;
        ending = ending.behind(input);
        at += 1 + taken;
    }
    Ok(units)
}

impl Ending {
    /// What a unit gives behind this, and how many of the units after it belong to it.
    #[inline]
    fn next(self, unit: u16, after: &[u16]) -> (Input, usize)
        ensures value { (recent : List Input) → EndsSo recent self
            → first_input recent unit after.now ≡ (result.0, drop result.1 after.now) }
        ensures within { result.1 ≤ length after.now }
    {
        if unit == BACKSLASH && self.is_eligible() {
            if let Some((value, length)) = escape(after) {
                return (
                    Input {
                        unit: value,
                        is_escaped: true,
                    },
                    length,
                );
            }
        }
        (
            Input {
                unit,
                is_escaped: false,
            },
            0,
        )
    }

    fn is_eligible(self) -> bool
        ensures { (recent : List Input) → EndsSo recent self → result ≡ is_eligible recent }
    {
        self.is_escaped || !self.is_odd
    }

    /// The end behind one more unit.
    #[inline]
    fn behind(self, input: Input) -> Ending
        ensures { (recent : List Input) → EndsSo recent self → EndsSo (input ∷ recent) result }
    {
        Ending {
            is_escaped: input.is_escaped,
            is_odd: input.unit == BACKSLASH && !self.is_odd,
        }
    }
}

/// What the escape indicates that a backslash before these units begins, and how many of them
/// belong to it.
fn escape(after: &[u16]) -> Option<(u16, usize)>
    ensures value { MatchOption result (unicode_escape_value after.now ≡ None)
        (λ found. (unicode_escape_value after.now ≡ Some found.0)
        × (found.1 ≡ unicode_escape_length after.now)) }
    ensures within { OnSome result (unicode_escape_length after.now ≤ length after.now) }
{
    let marker = marker_length(after);
    if marker == 0 {
        return None;
    }
    match four_digits(&after[marker..]) {
        Some(value) => Some((value, marker + 4)),
        None => None,
    }
}

fn marker_length(units: &[u16]) -> usize
    ensures value { result ≡ spec.marker_length units.now }
    ensures within { result ≤ length units.now }
{
    units.iter().take_while(|unit| **unit == LETTER_U).count()
}

fn four_digits(units: &[u16]) -> Option<u16>
    ensures value { result ≡ spec.four_digits units.now }
    ensures within { OnSome result (4 ≤ length units.now) }
{
    let [a, b, c, d, ..] = units else {
        return None;
    };
    let high = hex_digit_value(*a)? * 16 + hex_digit_value(*b)?;
    let low = hex_digit_value(*c)? * 16 + hex_digit_value(*d)?;
    Some(high * 256 + low)
}

/// What a hexadecimal digit stands for.
#[inline]
pub fn hex_digit_value(unit: u16) -> Option<u16>
    ensures value { result ≡ spec.hex_digit_value unit }
    ensures bound { IfSome result (λ digit. digit < 16) }
{
    let digit = char::from_u32(unit as u32)?.to_digit(16)?;
    Some(digit as u16)
}
