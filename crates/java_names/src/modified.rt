//! Modified UTF-8.
ghost use Rattle.std.specs.Prelude.{◌≡◌, ◌<◌, ◌+◌, ◌/◌, ◌%◌, [], ◌∷◌, ◌++◌, IfOk, OnOk};
ghost use Rattle.java_names.specs.ModifiedUtf8 as spec;

use hdr_core::{Memory, Text};
use std::alloc::Global;

/// The text of these units, each of which stands for itself, paired or not (JVMS 4.4.7).
pub fn modified_utf8(alloc: Global, units: &[u16]) -> Result<Text, Memory>
    ensures { IfOk result (λ text. text ≡ spec.modified_utf8 units.now) }
{
    let mut bytes = Vec::with_capacity(alloc, units.len())?;
    for unit in units {
        push_unit(&mut bytes, *unit)?;
    }
    Ok(Text::from(bytes))
}

#[inline]
fn push_unit(bytes: &mut Vec<u8>, unit: u16) -> Result<(), Memory>
    ensures { OnOk result (bytes.new.items ≡ bytes.old.items ++ spec.unit_bytes unit) }
{
    if 0 < unit && unit < 0x80 {
        bytes.push(unit as u8)?;
    } else if unit < 0x800 {
        bytes.extend_from_slice(&two_bytes(unit))?;
    } else {
        bytes.extend_from_slice(&three_bytes(unit))?;
    }
    Ok(())
}

fn two_bytes(unit: u16) -> [u8; 2]
    requires { unit < 0x800 }
    ensures { result ≡ (0xC0 + unit / 64) ∷ (0x80 + unit % 64) ∷ [] }
{
    [(0xC0 + unit / 64) as u8, (0x80 + unit % 64) as u8]
}

fn three_bytes(unit: u16) -> [u8; 3]
    ensures { result ≡ (0xE0 + unit / 4096) ∷ (0x80 + unit / 64 % 64) ∷ (0x80 + unit % 64) ∷ [] }
{
    [
        (0xE0 + unit / 4096) as u8,
        (0x80 + unit / 64 % 64) as u8,
        (0x80 + unit % 64) as u8,
    ]
}
