//! What numbers stand for.
ghost use Rattle.std.specs.Prelude.{◌≡◌, ◌≤◌, ◌<◌, ◌^◌};
ghost use Rattle.std.specs.Option.{SomeIff};
ghost use Rattle.java_lexer.specs.Numbers as spec;
ghost use Rattle.java_lexer.specs.Digits.{with_unit as number_with_unit};

use crate::units::at;
use java_text::hex_digit_value;
use java_token::LexLit;

/// The integer literal of these units (JLS 3.10.1).
pub fn integer(units: &[u16]) -> LexLit
    ensures { result ≡ spec.integer_of units.now }
{
    let radix = radix(units);
    LexLit::Int {
        value: number(radix, digit_part(units, radix)),
        decimal: radix == 10,
        long: is_long(units),
    }
}

/// The floating-point literal of these units (JLS 3.10.2).
pub fn real(units: &[u16]) -> LexLit
    ensures { result ≡ spec.real_of units.now }
{
    let last = last(units);
    LexLit::Real {
        double: !(last == b'F' as u16 || last == b'f' as u16),
    }
}

fn is_long(units: &[u16]) -> bool
    ensures { result ≡ spec.is_long units.now }
{
    let last = last(units);
    last == b'L' as u16 || last == b'l' as u16
}

/// The last unit, or 0 where there is none.
fn last(units: &[u16]) -> u16
    ensures { result ≡ spec.last units.now }
{
    at(units, units.len().saturating_sub(1))
}

fn radix(units: &[u16]) -> u64
    ensures value { result ≡ spec.radix units.now }
    ensures bound { result ≤ 16 }
{
    if at(units, 0) != b'0' as u16 {
        return 10;
    }
    let second = at(units, 1);
    if second == b'x' as u16 || second == b'X' as u16 {
        16
    } else if second == b'b' as u16 || second == b'B' as u16 {
        2
    } else if (second >= b'0' as u16 && second <= b'9' as u16) || second == b'_' as u16 {
        8
    } else {
        10
    }
}

fn digit_part(units: &[u16], radix: u64) -> &[u16]
    requires { radix ≡ spec.radix units.now }
    ensures { result.now ≡ spec.digit_part units.now }
{
    if (radix == 16 || radix == 2) && units.len() >= 2 {
        &units[2..]
    } else {
        units
    }
}

/// The number that the digits among the units spell, if 64 bits hold it.
fn number(radix: u64, units: &[u16]) -> Option<u64>
    requires { 0 < radix }
    ensures { result ≡ spec.number_of radix units.now }
{
    let mut number: u64 = 0;
    for unit in units {
        match with_unit(number, radix, *unit) {
            Some(longer) => number = longer,
            None => return None,
        }
    }
    Some(number)
}

/// The number with the digit that a unit is, if it is one, and if 64 bits hold it.
fn with_unit(number: u64, radix: u64, unit: u16) -> Option<u64>
    ensures { SomeIff result (number_with_unit radix number unit < 2 ^ 64)
        (number_with_unit radix number unit) }
{
    match hex_digit_value(unit) {
        Some(digit) => number.checked_mul(radix)?.checked_add(digit as u64),
        None => Some(number),
    }
}
