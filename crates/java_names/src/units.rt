ghost use Rattle.std.specs.Prelude.{◌≡◌, true, false, MatchOption, IfOk, Option, option_map};
ghost use Rattle.java_names.specs.ModifiedUtf8.{IsModifiedUtf8};
ghost use Rattle.java_names.specs.Units.{is_next_byte, is_single_byte, is_byte_pair};
ghost use Rattle.java_names.specs.Units.{is_byte_triple, pair_unit, triple_unit};
ghost use Rattle.java_names.specs.Units.{IsFirstUnit, HasNoUnit, units_of as units_of_text};
ghost use Rattle.java_names.specs.Units.{is_modified_utf8 as is_modified_utf8_text};

use hdr_core::Memory;
use std::alloc::Global;

/// Whether the bytes are modified UTF-8 (JVMS 4.4.7). Surrogates needn't be paired.
pub fn is_modified_utf8(bytes: &[u8]) -> bool
    ensures exact { result ≡ is_modified_utf8_text bytes.now }
    ensures accepted { result ≡ true → IsModifiedUtf8 bytes.now }
    ensures refused { result ≡ false → IsModifiedUtf8 bytes.now → ⊥ }
{
    let mut rest = bytes;
    while !rest.is_empty() {
        let Some((_, behind)) = first_unit(rest) else {
            return false;
        };
        rest = behind;
    }
    true
}

/// The UTF-16 units of a text in modified UTF-8 (JVMS 4.4.7), paired or not. None where the bytes
/// are no such text.
pub fn units_of(alloc: Global, bytes: &[u8]) -> Result<Option<Vec<u16>>, Memory>
    ensures { IfOk result (λ units. option_map (λ v. v.items) units ≡ units_of_text bytes.now) }
{
    let mut units = Vec::with_capacity(alloc, bytes.len())?;
    let mut rest = bytes;
    while !rest.is_empty() {
        let Some((unit, behind)) = first_unit(rest) else {
            return Ok(None);
        };
        units.push(unit)?;
        rest = behind;
    }
    Ok(Some(units))
}

/// The first unit and what follows it. None where the bytes begin with none.
fn first_unit(bytes: &[u8]) -> Option<(u16, &[u8])>
    ensures { MatchOption result (HasNoUnit bytes.now)
        (λ found. IsFirstUnit bytes.now found.0 found.1.now) }
{
    match bytes {
        [a, behind @ ..] if is_single(*a) => Some((*a as u16, behind)),
        [a, b, behind @ ..] if is_pair(*a, *b) => Some((unit_of_pair(*a, *b), behind)),
        [a, b, c, behind @ ..] if is_triple(*a, *b, *c) => {
            Some((unit_of_triple(*a, *b, *c), behind))
        }
        _ => None,
    }
}

/// The units U+0001 to U+007F.
fn is_single(a: u8) -> bool
    ensures { result ≡ is_single_byte a }
{
    matches!(a, 0x01..=0x7f)
}

/// The unit U+0000 and those of U+0080 to U+07FF.
fn is_pair(a: u8, b: u8) -> bool
    ensures { result ≡ is_byte_pair a b }
{
    (a == 0xc0 && b == 0x80) || (matches!(a, 0xc2..=0xdf) && is_next(b))
}

/// The units U+0800 to U+FFFF.
fn is_triple(a: u8, b: u8, c: u8) -> bool
    ensures { result ≡ is_byte_triple a b c }
{
    ((a == 0xe0 && 0xa0 <= b) || matches!(a, 0xe1..=0xef)) && is_next(b) && is_next(c)
}

/// A byte behind the first of a unit.
fn is_next(b: u8) -> bool
    ensures { result ≡ is_next_byte b }
{
    matches!(b, 0x80..=0xbf)
}

fn unit_of_pair(a: u8, b: u8) -> u16
    requires { is_byte_pair a b ≡ true }
    ensures { result ≡ pair_unit a b }
{
    (a as u16 - 0xc0) * 64 + (b as u16 - 0x80)
}

fn unit_of_triple(a: u8, b: u8, c: u8) -> u16
    requires { is_byte_triple a b c ≡ true }
    ensures { result ≡ triple_unit a b c }
{
    (a as u16 - 0xe0) * 4096 + (b as u16 - 0x80) * 64 + (c as u16 - 0x80)
}
