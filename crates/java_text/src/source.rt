//! From the bytes of a source to its text.
ghost use Rattle.std.specs.Prelude.{◌≡◌, ◌++◌, ◌≤◌, ◌+◌, IfOk, OnOk, length, take, if◌then◌else◌};
ghost use Rattle.std.specs.List.{flat_map};
ghost use Rattle.std.specs.Str.{chars};
ghost use Rattle.std.specs.Str.Lossy.{utf8_valid_len};
ghost use Rattle.std.specs.Char.Escape.{encode_utf16};
ghost use Rattle.java_text.specs.Source.{is_all_utf8, raw_units, text_of, without_last_substitute};

use crate::character::SUBSTITUTE;
use crate::escape::translate;
use hdr_core::Memory;
use std::alloc::Global;
use std::str;

/// The text of a source.
#[derive(Drop)]
pub struct SourceText {
    /// Its UTF-16 units, with Unicode escapes translated, up to the first byte that is no UTF-8.
    pub units: Vec<u16>,
    /// Whether all its bytes are UTF-8.
    pub whole: bool,
}

/// The text of the bytes (JLS 3.1, 3.2, 3.3, 3.5).
pub fn source_text(alloc: Global, bytes: &[u8]) -> Result<SourceText, Memory>
    ensures text { IfOk result (λ source. source.units.items ≡ text_of bytes.now) }
    ensures whole { IfOk result (λ source. source.whole ≡ is_all_utf8 bytes.now) }
    // There are no more units than bytes, and fewer where a byte is no UTF-8.
    ensures room { IfOk result
        (λ text. length text.units.items + (if text.whole then 0 else 1) ≤ length bytes.now) }
{
    let text = longest_utf8(bytes);
    let whole = text.len() == bytes.len();
    let mut units = translate(alloc, raw(alloc, text)?.as_slice())?;
    drop_last_substitute(&mut units);
    Ok(SourceText { units, whole })
}

/// The longest front that is UTF-8.
fn longest_utf8(bytes: &[u8]) -> &str
    ensures { result.now ≡ take (utf8_valid_len bytes.now) bytes.now }
{
    match str::from_utf8(bytes) {
        Ok(text) => text,
        Err(error) => match str::from_utf8(&bytes[..error.valid_up_to()]) {
            Ok(text) => text,
            Err(_) => unreachable!(),
        },
    }
}

fn raw(alloc: Global, text: &str) -> Result<Vec<u16>, Memory>
    ensures { IfOk result (λ units. units.items ≡ flat_map encode_utf16 (chars text.now)) }
{
    let mut units = Vec::with_capacity(alloc, text.len())?;
    for character in text.chars() {
        push_character(&mut units, character)?;
    }
    Ok(units)
}

#[inline]
fn push_character(units: &mut Vec<u16>, character: char) -> Result<(), Memory>
    ensures { OnOk result (units.new.items ≡ units.old.items ++ encode_utf16 character) }
{
    if let Ok(unit) = u16::try_from(character as u32) {
        units.push(unit)?;
    } else {
        units.extend_from_slice(character.encode_utf16(&mut [0; 2]))?;
    }
    Ok(())
}

fn drop_last_substitute(units: &mut Vec<u16>)
    ensures { units.new.items ≡ without_last_substitute units.old.items }
{
    if units.last() == Some(&SUBSTITUTE) {
        units.pop();
    }
}
