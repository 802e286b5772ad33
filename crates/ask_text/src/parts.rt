//! The parts of a line, each put behind what is there.
ghost use Rattle.std.specs.Prelude.{◌≡◌, ◌++◌, OnOk, map, option_map};
ghost use Rattle.hex.specs.Hex.{encode_lower};
ghost use Rattle.class_desc.specs.declared.attribute.Attr.{out-Attr};
ghost use Rattle.class_views.specs.View.{annotations_of, listed, visible_in, invisible_in};
ghost use Rattle.ask_text.specs.Texts.{behind_blank, blanked, flags_text, constant_text};
ghost use Rattle.ask_text.specs.Texts.{annotation_texts, superclass_text, signed_texts};

use class_desc::{AnnDesc, Attr, Value};
use hdr_core::{Memory, Text};
use itoa::Buffer;

/// Puts a text behind a blank.
pub fn append_word(line: &mut Vec<u8>, word: &[u8]) -> Result<(), Memory>
    ensures { OnOk result (line.new.items ≡ line.old.items ++ behind_blank word.now) }
{
    line.extend_from_slice(b" ")?;
    line.extend_from_slice(word)?;
    Ok(())
}

/// Puts each name behind a blank.
pub fn append_names(line: &mut Vec<u8>, names: &[Text]) -> Result<(), Memory>
    ensures { OnOk result (line.new.items ≡ line.old.items ++ blanked names.now) }
{
    for name in names {
        append_word(line, name.bytes())?;
    }
    Ok(())
}

/// The bytes in lower-case hexadecimal digits, two each.
fn append_hex(line: &mut Vec<u8>, bytes: &[u8]) -> Result<(), Memory>
    ensures { OnOk result (line.new.items ≡ line.old.items ++ encode_lower bytes.now) }
{
    let digits = hex::encode(*line.allocator(), bytes)?;
    line.extend_from_slice(digits.as_bytes())?;
    Ok(())
}

/// Puts flags behind a blank, as four digits.
pub fn append_flags(line: &mut Vec<u8>, flags: u16) -> Result<(), Memory>
    ensures { OnOk result (line.new.items ≡ line.old.items ++ behind_blank (flags_text flags)) }
{
    line.extend_from_slice(b" ")?;
    append_hex(line, &flags.to_be_bytes())
}

/// The superclass behind a blank, or `-` where there is none.
pub fn append_superclass(line: &mut Vec<u8>, super_name: &Option<Text>) -> Result<(), Memory>
    ensures { OnOk result (line.new.items ≡ line.old.items ++ superclass_text super_name.now) }
{
    match super_name {
        Some(name) => append_word(line, name.bytes()),
        None => append_word(line, b"-"),
    }
}

/// Puts a constant's type and value behind blanks.
pub fn append_constant(line: &mut Vec<u8>, value: &Value) -> Result<(), Memory>
    ensures { OnOk result (line.new.items ≡ line.old.items ++ constant_text value.now) }
{
    match value {
        Value::Integer(number) => {
            line.extend_from_slice(b" int ")?;
            line.extend_from_slice(Buffer::new().format(*number).as_bytes())?;
            Ok(())
        }
        Value::Long(number) => {
            line.extend_from_slice(b" long ")?;
            line.extend_from_slice(Buffer::new().format(*number).as_bytes())?;
            Ok(())
        }
        Value::Raw32(bits) => {
            line.extend_from_slice(b" float ")?;
            append_hex(line, &bits.to_be_bytes())
        }
        Value::Raw64(bits) => {
            line.extend_from_slice(b" double ")?;
            append_hex(line, &bits.to_be_bytes())
        }
        Value::Str(text) => {
            line.extend_from_slice(b" text ")?;
            append_hex(line, text.bytes())
        }
    }
}

/// Puts the descriptor of each annotation behind a blank and a sign.
fn append_signed(line: &mut Vec<u8>, sign: &[u8], annotations: &[AnnDesc]) -> Result<(), Memory>
    ensures { OnOk result (line.new.items
        ≡ line.old.items ++ signed_texts sign.now annotations.now) }
{
    for annotation in annotations {
        append_word(line, sign)?;
        line.extend_from_slice(annotation.descriptor.bytes())?;
    }
    Ok(())
}

fn visible_in_one(attribute: &Attr) -> Option<&[AnnDesc]>
    ensures { option_map (λ found. found.now) result ≡ visible_in (out-Attr attribute.now) }
{
    match attribute {
        Attr::VisibleAnns(annotations) => Some(annotations.items()),
        _ => None,
    }
}

fn invisible_in_one(attribute: &Attr) -> Option<&[AnnDesc]>
    ensures { option_map (λ found. found.now) result ≡ invisible_in (out-Attr attribute.now) }
{
    match attribute {
        Attr::InvisibleAnns(annotations) => Some(annotations.items()),
        _ => None,
    }
}

/// The visible annotations of a place (JVMS 4.7.16).
fn visible(attributes: &[Attr]) -> &[AnnDesc]
    ensures { result.now ≡ listed visible_in (map out-Attr attributes.now) }
{
    for attribute in attributes {
        if let Some(annotations) = visible_in_one(attribute) {
            return annotations;
        }
    }
    &[]
}

/// The invisible annotations of a place (JVMS 4.7.17).
fn invisible(attributes: &[Attr]) -> &[AnnDesc]
    ensures { result.now ≡ listed invisible_in (map out-Attr attributes.now) }
{
    for attribute in attributes {
        if let Some(annotations) = invisible_in_one(attribute) {
            return annotations;
        }
    }
    &[]
}

/// Puts the annotations of a place, the visible ones first.
pub fn append_annotations(line: &mut Vec<u8>, attributes: &[Attr]) -> Result<(), Memory>
    ensures { OnOk result (line.new.items
        ≡ line.old.items ++ annotation_texts (annotations_of (map out-Attr attributes.now))) }
{
    append_signed(line, b"+", visible(attributes))?;
    append_signed(line, b"-", invisible(attributes))
}
