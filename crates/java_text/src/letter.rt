//! The characters of identifiers.
ghost use Rattle.std.specs.Prelude.{◌≡◌, ◌<◌};
ghost use Rattle.java_text.specs.Ascii.{is_ascii_part, is_ascii_start};
ghost use Rattle.java_text.specs.Letters.{begins_name, goes_on, is_ignorable, is_part, is_start};

use unicode::properties::GeneralCategory;

/// Whether the code point begins an identifier (JLS 3.8).
#[inline]
#[tactic(auto, using(crate::proofs::LetterLemmas::ascii_start))]
pub fn begins_identifier(code_point: u32) -> bool
    ensures { result ≡ is_start code_point }
{
    if code_point < 0x80 {
        is_ascii_letter(code_point)
    } else {
        is_letter(code_point)
    }
}

/// Whether the code point may stand in an identifier behind its first character (JLS 3.8).
#[inline]
#[tactic(auto, using(crate::proofs::LetterLemmas::ascii_part))]
pub fn continues_identifier(code_point: u32) -> bool
    ensures { result ≡ is_part code_point }
{
    if code_point < 0x80 {
        is_ascii_letter_or_digit(code_point)
    } else {
        is_letter_or_digit(code_point)
    }
}

#[inline]
fn is_ascii_letter(code_point: u32) -> bool
    ensures { result ≡ is_ascii_start code_point }
{
    matches!(code_point, 0x41..=0x5A | 0x61..=0x7A | 0x24 | 0x5F)
}

#[inline]
fn is_ascii_letter_or_digit(code_point: u32) -> bool
    ensures { result ≡ is_ascii_part code_point }
{
    is_ascii_letter(code_point) || matches!(code_point, 0..=8 | 0x0E..=0x1B | 0x30..=0x39 | 0x7F)
}

#[tactic(auto, unfolding(crate::specs::Letters::is_start))]
fn is_letter(code_point: u32) -> bool
    ensures { result ≡ is_start code_point }
{
    match char::from_u32(code_point) {
        Some(character) => is_letter_category(GeneralCategory::for_char(character)),
        None => false,
    }
}

#[tactic(auto, unfolding(crate::specs::Letters::is_part))]
fn is_letter_or_digit(code_point: u32) -> bool
    ensures { result ≡ is_part code_point }
{
    match char::from_u32(code_point) {
        Some(character) => {
            is_ignorable_control(code_point)
                || is_part_category(GeneralCategory::for_char(character))
        }
        None => false,
    }
}

fn is_ignorable_control(code_point: u32) -> bool
    ensures { result ≡ is_ignorable code_point }
{
    matches!(code_point, 0..=0x08 | 0x0E..=0x1B | 0x7F..=0x9F)
}

fn is_letter_category(category: GeneralCategory) -> bool
    ensures { result ≡ begins_name category }
{
    matches!(
        category,
        GeneralCategory::UppercaseLetter
            | GeneralCategory::LowercaseLetter
            | GeneralCategory::TitlecaseLetter
            | GeneralCategory::ModifierLetter
            | GeneralCategory::OtherLetter
            | GeneralCategory::LetterNumber
            | GeneralCategory::CurrencySymbol
            | GeneralCategory::ConnectorPunctuation
    )
}

fn is_part_category(category: GeneralCategory) -> bool
    ensures { result ≡ goes_on category }
{
    matches!(
        category,
        GeneralCategory::DecimalNumber
            | GeneralCategory::NonspacingMark
            | GeneralCategory::SpacingMark
            | GeneralCategory::Format
    ) || is_letter_category(category)
}
