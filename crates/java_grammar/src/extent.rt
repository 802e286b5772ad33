//! The extent of an initialiser (JLS 8.3.2).
ghost use Rattle.std.specs.Prelude.{◌≡◌, ◌≤◌, ◌<◌, ◌^◌, length};
ghost use Rattle.java_grammar.specs.Parts.{parts};
ghost use Rattle.java_grammar.specs.Extents.{final_at, modifiers_from, pattern_modifiers_from};
ghost use Rattle.java_grammar.specs.Extents.{typed_from, behind_from, pattern_from};
ghost use Rattle.java_grammar.specs.Extents.{begins_with_double_colon, referred_from, piece_at};
ghost use Rattle.java_grammar.specs.Extents.{extent_of};

use crate::brackets::{annotation_length, annotations_length, group_length};
use crate::part::Part;
use crate::type_arguments::{Angled, arguments};
use crate::types::{annotated_type_length, type_length};
use java_token::Token;

/// Type arguments, annotations and a type, each if it is there.
#[tactic(auto, unfolding(crate::specs::Extents::typed_from))]
fn typed_length(tokens: &[Token]) -> usize
    ensures counted { result ≡ typed_from (parts tokens.now) }
    ensures within { result ≤ length tokens.now }
{
    match arguments(tokens) {
        None => annotated_type_length(tokens),
        Some(Angled { count, left }) => {
            if left == 0 {
                count + annotated_type_length(&tokens[count..])
            } else {
                count
            }
        }
    }
}

fn final_length(tokens: &[Token]) -> usize
    ensures counted { result ≡ final_at (parts tokens.now) }
    ensures within { result ≤ length tokens.now }
{
    match tokens {
        [first, ..] if Part::of(first).is_final() => 1,
        _ => 0,
    }
}

fn modifiers_length(tokens: &[Token]) -> usize
    ensures counted { result ≡ modifiers_from (parts tokens.now) }
    ensures within { result ≤ length tokens.now }
{
    let first = final_length(tokens);
    first + annotations_length(&tokens[first..])
}

/// The modifiers of a pattern, in any order (JLS 14.30.1).
fn pattern_modifiers_length(tokens: &[Token]) -> usize
    ensures counted { result ≡ pattern_modifiers_from (parts tokens.now) }
    ensures within { result ≤ length tokens.now }
{
    let annotations = annotations_length(tokens);
    annotations + modifiers_length(&tokens[annotations..])
}

/// What is passed behind `new`, `.` and `::`.
#[tactic(auto, unfolding(crate::specs::Extents::behind_from))]
fn behind_length(tokens: &[Token]) -> usize
    ensures counted { result ≡ behind_from (parts tokens.now) }
    ensures within { result ≤ length tokens.now }
{
    let modifiers = modifiers_length(tokens);
    modifiers + typed_length(&tokens[modifiers..])
}

/// What is passed behind `instanceof`.
#[tactic(auto, unfolding(crate::specs::Extents::pattern_from))]
fn pattern_length(tokens: &[Token]) -> usize
    ensures counted { result ≡ pattern_from (parts tokens.now) }
    ensures within { result ≤ length tokens.now }
{
    let modifiers = pattern_modifiers_length(tokens);
    modifiers + typed_length(&tokens[modifiers..])
}

fn begins_with_double_colon(tokens: &[Token]) -> bool
    ensures { result ≡ begins_with_double_colon (parts tokens.now) }
{
    match tokens {
        [first, ..] => Part::of(first).is_double_colon(),
        _ => false,
    }
}

/// A type before `::` (JLS 15.13), else one token.
fn referred_length(tokens: &[Token]) -> usize
    requires { 0 < length tokens.now }
    ensures counted { result ≡ referred_from (parts tokens.now) }
    ensures within { result ≤ length tokens.now }
{
    let whole = type_length(tokens);
    if begins_with_double_colon(&tokens[whole..]) {
        whole
    } else {
        1
    }
}

/// How many tokens are passed together with the first one; none where that is a comma.
#[tactic(auto, unfolding(crate::specs::Extents::piece_at))]
fn piece_length(tokens: &[Token]) -> usize
    ensures counted { result ≡ piece_at (parts tokens.now) }
    ensures within { result ≤ length tokens.now }
{
    let [first, behind @ ..] = tokens else {
        return 0;
    };
    let part = Part::of(first);
    if part.is_comma() {
        0
    } else if part.is_opening() {
        1 + group_length(behind)
    } else if part.is_at() {
        1 + annotation_length(behind)
    } else if part.is_instanceof() {
        1 + pattern_length(behind)
    } else if part.begins_type_behind() {
        1 + behind_length(behind)
    } else if part.is_word() {
        referred_length(tokens)
    } else {
        1
    }
}

/// How many tokens the initialiser at the front has.
pub fn extent_length(tokens: &[Token]) -> usize
    ensures counted { result ≡ extent_of (parts tokens.now) }
    ensures within { result ≤ length tokens.now }
{
    let mut at: usize = 0;
    while at < tokens.len() {
        let more = piece_length(&tokens[at..]);
        if more == 0 {
            return at;
        }
        at += more;
    }
    at
}

/// How many tokens the initialiser at the front has (JLS 8.3.2). The tokens are those behind its
/// `=`, any at all. It takes no memory.
pub fn initialiser_extent(tokens: &[Token]) -> u32
    requires { length tokens.now < 2 ^ 32 }
    ensures { result ≡ extent_of (parts tokens.now) }
{
    extent_length(tokens) as u32
}
