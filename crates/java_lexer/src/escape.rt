//! The characters of literals, and their escapes (JLS 3.10.7).
ghost use Rattle.std.specs.Prelude.{◌≡◌, ◌≤◌, ◌++◌, IfOk, drop, slice_index, true};
ghost use Rattle.java_lexer.specs.Escapes as spec;
ghost use Rattle.java_lexer.specs.Escapes.{first_item};

use crate::units::at;
use hdr_core::Memory;
use java_text::{
    APOSTROPHE, BACKSLASH, CARRIAGE_RETURN, FORM_FEED, LINE_FEED, QUOTATION_MARK, SPACE, TAB,
};
use std::alloc::Global;

/// The escapes of one letter or sign, and the unit that each stands for.
pub const SIMPLE_ESCAPES: [(u16, u16); 9] = [
    (b'b' as u16, 0x08),
    (b's' as u16, SPACE),
    (b't' as u16, TAB),
    (b'n' as u16, LINE_FEED),
    (b'f' as u16, FORM_FEED),
    (b'r' as u16, CARRIAGE_RETURN),
    (QUOTATION_MARK, QUOTATION_MARK),
    (APOSTROPHE, APOSTROPHE),
    (BACKSLASH, BACKSLASH),
];

/// The units with each escape replaced by what it stands for.
pub fn unescape(alloc: Global, units: &[u16]) -> Result<Vec<u16>, Memory>
    ensures { IfOk result (λ plain. plain.items ≡ spec.unescaped units.now) }
{
    let mut plain = Vec::with_capacity(alloc, units.len())?;
    let mut at = 0;
    while at < units.len() {
        let taken = push_item(&mut plain, units[at], &units[at + 1..])?;
        at += 1 + taken;
    }
    Ok(plain)
}

/// The units between the quotation marks.
pub fn between_quotes(units: &[u16]) -> &[u16]
    ensures { result.now ≡ spec.between_quotes units.now }
{
    if units.len() < 2 {
        &units[..0]
    } else {
        &units[1..units.len() - 1]
    }
}

/// The unit that a character literal stands for (JLS 3.10.4).
pub fn character(units: &[u16]) -> u16
    ensures { result ≡ spec.character_unit units.now }
{
    let first = at(units, 1);
    if first == BACKSLASH && units.len() >= 2 {
        escape_value(&units[2..])
    } else {
        first
    }
}

/// Pushes what the unit stands for, or the escape that it begins, and says how many of the units
/// after it belong to it.
fn push_item(plain: &mut Vec<u16>, unit: u16, after: &[u16]) -> Result<usize, Memory>
    ensures item { IfOk result
        (λ taken. (plain.new.items ≡ plain.old.items ++ (first_item unit after.now).0)
        × (drop taken after.now ≡ (first_item unit after.now).1)) }
    ensures few { IfOk result (λ taken. taken ≤ 3) }
{
    if unit != BACKSLASH {
        plain.push(unit)?;
        return Ok(0);
    }
    if at(after, 0) != LINE_FEED {
        plain.push(escape_value(after))?;
    }
    Ok(escape_length(after))
}

fn is_octal(unit: u16) -> bool
    ensures { result ≡ spec.is_octal_digit unit }
{
    matches!(unit, 0x30..=0x37)
}

fn is_zero_to_three(unit: u16) -> bool
    ensures { result ≡ spec.is_zero_to_three unit }
{
    matches!(unit, 0x30..=0x33)
}

fn escape_length(units: &[u16]) -> usize
    ensures value { result ≡ spec.escape_length units.now }
    ensures few { result ≤ 3 }
{
    if is_octal(at(units, 0)) {
        octal_length(units)
    } else {
        1
    }
}

fn octal_length(units: &[u16]) -> usize
    ensures value { result ≡ spec.octal_length units.now }
    ensures few { result ≤ 3 }
{
    if !is_octal(at(units, 1)) {
        1
    } else if is_zero_to_three(at(units, 0)) && is_octal(at(units, 2)) {
        3
    } else {
        2
    }
}

fn escape_value(units: &[u16]) -> u16
    ensures { result ≡ spec.escape_value units.now }
{
    let first = at(units, 0);
    if is_octal(first) {
        octal_value(units)
    } else {
        look_up(&SIMPLE_ESCAPES, first)
    }
}

fn octal_value(units: &[u16]) -> u16
    requires { spec.is_octal_digit (slice_index units.now 0) ≡ true }
    ensures { result ≡ spec.octal_value units.now }
{
    let length = octal_length(units);
    let first = octal_digit_value(units, 0);
    if length == 3 {
        (first * 8 + octal_digit_value(units, 1)) * 8 + octal_digit_value(units, 2)
    } else if length == 2 {
        first * 8 + octal_digit_value(units, 1)
    } else {
        first
    }
}

fn octal_digit_value(units: &[u16], place: usize) -> u16
    requires { spec.is_octal_digit (slice_index units.now place) ≡ true }
    ensures value { result ≡ spec.octal_digit_value units.now place }
    ensures bound { result ≤ 7 }
{
    at(units, place) - 0x30
}

/// What the table has for a unit: without an entry it stands for itself.
fn look_up(entries: &[(u16, u16)], unit: u16) -> u16
    ensures { result ≡ spec.look_up entries.now unit }
{
    for (sign, value) in entries {
        if unit == *sign {
            return *value;
        }
    }
    unit
}
