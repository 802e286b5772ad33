//! Where a front of a list of tokens ends, and up to where their brackets pair.
ghost use Rattle.std.specs.Prelude.{◌≡◌, ◌≤◌, ◌<◌, ◌^◌, ◌*◌, ◌-◌, List, ◌++◌, length, drop, take};
ghost use Rattle.std.specs.Prelude.{if◌then◌else◌};
ghost use Rattle.java_grammar.specs.Parts.{parts};
ghost use Rattle.java_grammar.specs.Marks.{Mark, token_marks, marks};
ghost use Rattle.java_grammar.specs.Reading.{first_angles};
ghost use Rattle.type_expr_parser.specs.Calls.{behind_front};
ghost use Rattle.type_expr_parser.specs.Pairing.{more_closing, is_unclosed, HasBalanced};

use java_grammar::{Part, Reader};
use java_token::Token;

/// How many closing brackets are left behind a part that stands before so many.
fn closing_with(closing: usize, part: Part) -> usize
    requires { closing < 2 ^ 63 }
    ensures { result ≡ more_closing part closing }
{
    match part {
        Part::Opening(_) => closing.saturating_sub(1),
        Part::Closing(_) => closing + 1,
        _ => closing,
    }
}

fn is_unclosed(closing: usize, part: Part) -> bool
    ensures { result ≡ is_unclosed closing part }
{
    part.is_opening() && closing == 0
}

fn cut_at(unclosed: bool, at: usize, cut: usize) -> usize
    ensures { result ≡ (if unclosed then at else cut) }
{
    if unclosed { at } else { cut }
}

/// How many tokens stand before an opening bracket that has no partner: nothing is read through
/// it.
pub fn paired(tokens: &[Token]) -> usize
    ensures within { result ≤ length tokens.now }
    ensures held { HasBalanced (marks tokens.now) (marks (take result tokens.now)) }
{
    let mut cut = tokens.len();
    let mut closing: usize = 0;
    for seen in 0..tokens.len() {
        let at = tokens.len() - 1 - seen;
        let part = Part::of(&tokens[at]);
        cut = cut_at(is_unclosed(closing, part), at, cut);
        closing = closing_with(closing, part);
    }
    cut
}

/// How many marks a token is: each closing angle is one.
fn marks_in(token: &Token) -> usize
    ensures counted { result ≡ length (token_marks token.now) }
    ensures few { result ≤ 3 }
{
    let angles = Part::of(token).angles();
    if angles == 0 { 1 } else { angles }
}

fn marks_of(tokens: &[Token]) -> usize
    requires { length tokens.now < 2 ^ 40 }
    ensures counted { result ≡ length (marks tokens.now) }
    ensures few { result ≤ 3 * length tokens.now }
{
    let mut count: usize = 0;
    for at in 0..tokens.len() {
        count += marks_in(&tokens[at]);
    }
    count
}

/// The whole tokens, and the angles of the next, that so many marks are.
fn place_behind(tokens: &[Token], count: usize) -> (u32, u32)
    requires few { length tokens.now < 2 ^ 30 }
    requires within { count ≤ length (marks tokens.now) }
    ensures behind { behind_front tokens.now result.0 result.1 ≡ drop count (marks tokens.now) }
    ensures counted { result.0 ≤ length tokens.now }
    ensures angles { result.1 ≤ first_angles (parts (drop result.0 tokens.now)) - 1 }
{
    let mut left = count;
    for at in 0..tokens.len() {
        let size = marks_in(&tokens[at]);
        if left < size {
            return (at as u32, left as u32);
        }
        left -= size;
    }
    (tokens.len() as u32, 0)
}

/// Where a reader stands that began with the first `cut` of the tokens.
pub fn place(tokens: &[Token], cut: usize, reader: &Reader<'_>) -> (u32, u32)
    requires few { length tokens.now < 2 ^ 30 }
    requires cut { cut ≤ length tokens.now }
    ensures whole { (front : List Mark) → marks (take cut tokens.now) ≡ front ++ reader.now
        → marks tokens.now ≡ front ++ behind_front tokens.now result.0 result.1 }
    ensures counted { result.0 ≤ length tokens.now }
    ensures angles { result.1 ≤ first_angles (parts (drop result.0 tokens.now)) - 1 }
{
    let (rest, taken, end) = reader.rest();
    if rest.len() > 3 * tokens.len() + 2 {
        return place_behind(tokens, 0);
    }
    let left = marks_of(rest).saturating_sub(taken) + end.marks();
    let after = left + marks_of(&tokens[cut..]);
    place_behind(tokens, marks_of(tokens).saturating_sub(after))
}
