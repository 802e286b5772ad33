//! Names as paths, and paths as names.
ghost use Rattle.std.specs.Prelude.{◌≡◌, ◌++◌, IfOk, OnOk, Option, option_map, string_bytes};
ghost use Rattle.std.specs.Char.Escape.{encode_utf16};
ghost use Rattle.java_names.specs.Paths.{utf16_units as utf16_units_of};
ghost use Rattle.java_names.specs.Paths.{name_of_path as name_of, path_of_name as path_of};

use crate::modified::modified_utf8;
use crate::units::units_of;
use hdr_core::{Memory, Text};
use std::alloc::Global;

/// The UTF-16 units of a text.
pub fn utf16_units(alloc: Global, text: &str) -> Result<Vec<u16>, Memory>
    ensures { IfOk result (λ units. units.items ≡ utf16_units_of text.now) }
{
    let mut units = Vec::with_capacity(alloc, text.len())?;
    for character in text.chars() {
        push_character(&mut units, character)?;
    }
    Ok(units)
}

fn push_character(units: &mut Vec<u16>, character: char) -> Result<(), Memory>
    ensures { OnOk result (units.new.items ≡ units.old.items ++ encode_utf16 character) }
{
    let mut pair = [0; 2];
    units.extend_from_slice(character.encode_utf16(&mut pair))?;
    Ok(())
}

/// The name that a path spells, as modified UTF-8 (JVMS 4.4.7).
pub fn name_of_path(alloc: Global, path: &str) -> Result<Text, Memory>
    ensures { IfOk result (λ name. name ≡ name_of path.now) }
{
    let units = utf16_units(alloc, path)?;
    modified_utf8(alloc, &units)
}

/// The path that a name spells, as UTF-8. None where the name has a surrogate without its partner,
/// or is no modified UTF-8.
pub fn path_of_name(alloc: Global, name: &[u8]) -> Result<Option<String>, Memory>
    ensures { IfOk result (λ path. option_map string_bytes path ≡ path_of name.now) }
{
    let Some(units) = units_of(alloc, name)? else {
        return Ok(None);
    };
    Ok(String::from_utf16(alloc, &units)?.ok())
}
