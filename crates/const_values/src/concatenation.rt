//! `+` with a text on one side (JLS 15.18.1).
ghost use Rattle.std.specs.Prelude.{◌≡◌, ◌++◌, IfOk, OnOk};
ghost use Rattle.const_values.specs.Concatenation as spec;

use crate::constant::{Constant, Outcome, of_text};
use hdr_core::{Memory, Text};
use itoa::Buffer;
use java_names::modified_utf8;
use std::alloc::Global;

/// A text on the left takes the right one's bytes where it lies.
pub(crate) fn concatenation(
    alloc: Global,
    left: Constant,
    right: &Constant,
) -> Result<Outcome, Memory>
    ensures { IfOk result (λ outcome. outcome ≡ spec.concatenation left right.now) }
{
    let mut text = into_text(alloc, left)?;
    append(alloc, &mut text, right)?;
    Ok(of_text(text))
}

/// The text of the constant (JLS 5.1.11).
fn into_text(alloc: Global, constant: Constant) -> Result<Text, Memory>
    ensures { IfOk result (λ text. text ≡ spec.text_of constant) }
{
    match constant {
        Constant::Str(text) => Ok(text),
        other => {
            let mut text = Text::from(Vec::new(alloc));
            append(alloc, &mut text, &other)?;
            Ok(text)
        }
    }
}

fn append(alloc: Global, text: &mut Text, constant: &Constant) -> Result<(), Memory>
    ensures { OnOk result (text.new ≡ text.old ++ spec.text_of constant.now) }
{
    match constant {
        Constant::Boolean(true) => text.append(b"true"),
        Constant::Boolean(false) => text.append(b"false"),
        Constant::Byte(number) => append_number(text, i64::from(*number)),
        Constant::Short(number) => append_number(text, i64::from(*number)),
        Constant::Int(number) => append_number(text, i64::from(*number)),
        Constant::Long(number) => append_number(text, *number),
        Constant::Char(unit) => text.append(modified_utf8(alloc, &[*unit])?.bytes()),
        Constant::Str(more) => text.append(more.bytes()),
    }
}

fn append_number(text: &mut Text, number: i64) -> Result<(), Memory>
    ensures { OnOk result (text.new ≡ text.old ++ spec.decimal_text number) }
{
    text.append(Buffer::new().format(number).as_bytes())
}
