//! White space in text blocks.
ghost use Rattle.std.specs.Prelude.{◌≡◌};
ghost use Rattle.java_text.specs.Ascii.{is_ascii_white};
ghost use Rattle.java_text.specs.Letters as spec;

use unicode::properties::GeneralCategory;

/// Whether the unit is white space where a text block is stripped (JLS 3.10.6).
#[inline]
#[tactic(auto, using(crate::proofs::LetterLemmas::ascii_white))]
pub fn is_white(unit: u16) -> bool
    ensures { result ≡ spec.is_white unit }
{
    if unit < 0x80 {
        is_ascii_white(unit)
    } else {
        is_wide_white(unit)
    }
}

#[inline]
fn is_ascii_white(unit: u16) -> bool
    ensures { result ≡ is_ascii_white unit }
{
    unit == 0x20 || is_control_white(unit)
}

#[inline]
fn is_control_white(unit: u16) -> bool
    ensures { result ≡ spec.is_control_white unit }
{
    matches!(unit, 0x09..=0x0D | 0x1C..=0x1F)
}

#[tactic(auto, unfolding(crate::specs::Letters::is_white))]
fn is_wide_white(unit: u16) -> bool
    ensures { result ≡ spec.is_white unit }
{
    match char::from_u32(unit as u32) {
        Some(character) => {
            (separates(GeneralCategory::for_char(character)) && !is_no_break(unit))
                || is_control_white(unit)
        }
        None => false,
    }
}

fn separates(category: GeneralCategory) -> bool
    ensures { result ≡ spec.separates category }
{
    matches!(
        category,
        GeneralCategory::SpaceSeparator
            | GeneralCategory::LineSeparator
            | GeneralCategory::ParagraphSeparator
    )
}

fn is_no_break(unit: u16) -> bool
    ensures { result ≡ spec.is_no_break unit }
{
    matches!(unit, 0xA0 | 0x2007 | 0x202F)
}
