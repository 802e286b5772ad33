//! What comes next, by more than the part of a token.
ghost use Rattle.std.specs.Prelude.{◌≡◌};
ghost use Rattle.productions.specs.Keys.{here, Spelled, Keyword, Annotated, Sealing, NonSealing};
ghost use Rattle.productions.specs.Keys.{follows_by};

use java_grammar::{Part, Reader, Sign};
use java_token::TokenKind;
use type_expr_parser::{comes, passes};

/// The word `non`, which stands before `-` and `sealed` (JLS 3.9).
const NON: &[u8] = b"non";

/// This word comes next.
pub fn word_comes(reader: &Reader<'_>, word: &[u8]) -> bool
    ensures { result ≡ here (Spelled word.now) reader.now }
{
    let mut ahead = reader.fork();
    match ahead.token() {
        Some(token) => match &token.kind {
            TokenKind::Word(name) => name.bytes() == word,
            _ => false,
        },
        None => false,
    }
}

/// A keyword that is a modifier comes next.
pub fn keyword_comes(reader: &Reader<'_>) -> bool
    ensures { result ≡ here Keyword reader.now }
{
    match reader.part() {
        Some(Part::Modifier(_)) => true,
        _ => false,
    }
}

/// `@` comes next, but not that of `@interface`.
pub fn annotation_comes(reader: &Reader<'_>) -> bool
    ensures { result ≡ here Annotated reader.now }
{
    let mut ahead = reader.fork();
    if !passes(&mut ahead, Sign::At) {
        return false;
    }
    !comes(&ahead, Sign::Interface)
}

/// This may stand behind the modifier `sealed`.
fn may_follow(part: Option<Part>) -> bool
    ensures { result ≡ follows_by part }
{
    match part {
        Some(part) => !Sign::Dot.is(part) && !Sign::LeftParenthesis.is(part),
        None => false,
    }
}

/// `sealed` comes next as a modifier: behind it is a token that is neither `.` nor `(`.
pub fn sealed_comes(reader: &Reader<'_>) -> bool
    ensures { result ≡ here Sealing reader.now }
{
    let mut ahead = reader.fork();
    match ahead.part() {
        Some(Part::Sealed) => {
            ahead.token();
            may_follow(ahead.part())
        }
        _ => false,
    }
}

/// `non` and `-` come next.
pub fn non_sealed_comes(reader: &Reader<'_>) -> bool
    ensures { result ≡ here NonSealing reader.now }
{
    if !word_comes(reader, NON) {
        return false;
    }
    let mut ahead = reader.fork();
    ahead.token();
    comes(&ahead, Sign::Minus)
}
