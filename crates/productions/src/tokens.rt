//! Single tokens and ends.
ghost use Rattle.std.specs.Prelude.{◌≡◌};
ghost use Rattle.java_grammar.specs.Signs.{sign_part};
ghost use Rattle.type_expr_parser.specs.Reading.{Gives};
ghost use Rattle.productions.specs.Leaves.{a_sign_on, name_on, the_word as the_word_line};
ghost use Rattle.productions.specs.Leaves.{angle as angle_line, skipped_group as group_line};
ghost use Rattle.productions.specs.Leaves.{semicolon as semicolon_line};

use hdr_core::Text;
use java_grammar::{Reader, Sign};
use java_token::TokenKind;
use std::alloc::Global;
use type_expr_parser::{Unread, front_line, sign, token, word};

/// This token; the line on which it stands.
pub fn sign_on_line(reader: &mut Reader<'_>, of: Sign) -> Result<u32, Unread>
    ensures { Gives (λ line. line) result reader.new ((a_sign_on of).read 0 reader.old) }
{
    let line = front_line(reader);
    sign(reader, of)?;
    Ok(line)
}

/// A word, with the line on which it stands.
pub fn word_on_line(alloc: Global, reader: &mut Reader<'_>) -> Result<(u32, Text), Unread>
    ensures { Gives (λ x. x) result reader.new (name_on.read 0 reader.old) }
{
    let line = front_line(reader);
    let name = word(alloc, reader)?;
    Ok((line, name))
}

/// This word.
#[tactic(auto, unfolding(type_expr_parser::specs::Reading::word_at))]
pub fn the_word(reader: &mut Reader<'_>, word: &[u8]) -> Result<(), Unread>
    ensures { Gives (λ none. none) result reader.new ((the_word_line word.now).read 0 reader.old) }
{
    let token = token(reader)?;
    match &token.kind {
        TokenKind::Word(name) => {
            if name.bytes() == word {
                Ok(())
            } else {
                Err(Unread::NotSpelled)
            }
        }
        _ => Err(Unread::NotSpelled),
    }
}

/// A closing angle.
pub fn angle(reader: &mut Reader<'_>) -> Result<(), Unread>
    ensures { Gives (λ none. none) result reader.new (angle_line.read 0 reader.old) }
{
    if reader.angle() {
        Ok(())
    } else {
        Err(Unread::NotSpelled)
    }
}

/// A group in braces that is skipped.
pub fn skipped_group(reader: &mut Reader<'_>) -> Result<(), Unread>
    ensures { Gives (λ none. none) result reader.new (group_line.read 0 reader.old) }
{
    if reader.group() {
        Ok(())
    } else {
        Err(Unread::NotSpelled)
    }
}

/// The `;` that ends a segment.
pub fn semicolon(reader: &mut Reader<'_>) -> Result<(), Unread>
    ensures { Gives (λ none. none) result reader.new (semicolon_line.read 0 reader.old) }
{
    if reader.semicolon() {
        Ok(())
    } else {
        Err(Unread::NotSpelled)
    }
}
