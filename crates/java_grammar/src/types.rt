//! Types in an initialiser, their type arguments and annotations unread (JLS 4.3, 10.1).
ghost use Rattle.std.specs.Prelude.{◌≡◌, ◌≤◌, ◌-◌, length};
ghost use Rattle.java_grammar.specs.Parts.{parts};
ghost use Rattle.java_grammar.specs.Extents.{row_of, annotated_from, word_from, further_at};
ghost use Rattle.java_grammar.specs.Extents.{sealed_from, first_from, named_from, brackets_at};
ghost use Rattle.java_grammar.specs.Extents.{dimension_at, base_from, type_from};
ghost use Rattle.java_grammar.specs.Extents.{split_behind, split_named_from, longest_from};

use crate::brackets::{annotations_length, before};
use crate::part::Part;
use crate::type_arguments::{split_arguments_length, whole_arguments_length};
use java_token::Token;

/// A word with its type arguments.
#[tactic(auto, unfolding(crate::specs::Extents::word_from))]
fn word_length(tokens: &[Token]) -> usize
    ensures counted { result ≡ word_from (parts tokens.now) }
    ensures within { result ≤ length tokens.now }
{
    match tokens {
        [first, behind @ ..] if Part::of(first).is_word() => 1 + whole_arguments_length(behind),
        _ => 0,
    }
}

fn annotated_word_length(tokens: &[Token]) -> usize
    ensures counted { result ≡ annotated_from word_from (parts tokens.now) }
    ensures within { result ≤ length tokens.now }
{
    let annotations = annotations_length(tokens);
    before(annotations, word_length(&tokens[annotations..]))
}

/// A dot, annotations and a further word.
#[tactic(auto, unfolding(crate::specs::Extents::further_at))]
fn further_length(tokens: &[Token]) -> usize
    ensures counted { result ≡ further_at (parts tokens.now) }
    ensures within { result ≤ length tokens.now }
{
    match tokens {
        [first, behind @ ..] if Part::of(first).is_dot() => before(
            1,
            annotated_word_length(behind),
        ),
        _ => 0,
    }
}

fn further_words_length(tokens: &[Token]) -> usize
    ensures counted { result ≡ row_of further_at (parts tokens.now) }
    ensures within { result ≤ length tokens.now }
{
    let mut at: usize = 0;
    while at < tokens.len() {
        let more = further_length(&tokens[at..]);
        if more == 0 {
            return at;
        }
        at += more;
    }
    at
}

/// Behind `sealed`.
fn sealed_length(behind: &[Token]) -> usize
    ensures counted { result ≡ sealed_from (further_at (parts behind.now)) }
    ensures one { result ≤ 1 }
{
    if further_length(behind) == 0 { 0 } else { 1 }
}

#[tactic(auto, unfolding(crate::specs::Extents::first_from))]
fn first_length(tokens: &[Token]) -> usize
    ensures counted { result ≡ first_from (parts tokens.now) }
    ensures within { result ≤ length tokens.now }
{
    match tokens {
        [first, behind @ ..] if Part::of(first).is_sealed() => sealed_length(behind),
        _ => word_length(tokens),
    }
}

/// A name with type arguments.
fn named_length(tokens: &[Token]) -> usize
    ensures counted { result ≡ named_from (parts tokens.now) }
    ensures within { result ≤ length tokens.now }
{
    let first = first_length(tokens);
    if first == 0 {
        return 0;
    }
    first + further_words_length(&tokens[first..])
}

/// `[` and `]`.
fn brackets_length(tokens: &[Token]) -> usize
    ensures counted { result ≡ brackets_at (parts tokens.now) }
    ensures within { result ≤ length tokens.now }
{
    match tokens {
        [first, second, ..]
            if Part::of(first).is_bracket_start() && Part::of(second).is_bracket_end() => { 2 }
        _ => 0,
    }
}

#[tactic(auto, unfolding(crate::specs::Extents::dimension_at))]
fn dimension_length(tokens: &[Token]) -> usize
    ensures counted { result ≡ dimension_at (parts tokens.now) }
    ensures within { result ≤ length tokens.now }
{
    let annotations = annotations_length(tokens);
    before(annotations, brackets_length(&tokens[annotations..]))
}

fn dimensions_length(tokens: &[Token]) -> usize
    ensures counted { result ≡ row_of dimension_at (parts tokens.now) }
    ensures within { result ≤ length tokens.now }
{
    let mut at: usize = 0;
    while at < tokens.len() {
        let more = dimension_length(&tokens[at..]);
        if more == 0 {
            return at;
        }
        at += more;
    }
    at
}

#[tactic(auto, unfolding(crate::specs::Extents::base_from))]
fn base_length(tokens: &[Token]) -> usize
    ensures counted { result ≡ base_from (parts tokens.now) }
    ensures within { result ≤ length tokens.now }
{
    match tokens {
        [] => 0,
        [first, ..] if Part::of(first).is_primitive() => 1,
        _ => named_length(tokens),
    }
}

/// How many tokens the type at the front has, whose type arguments end with a token; 0 where
/// there is none.
pub fn type_length(tokens: &[Token]) -> usize
    ensures counted { result ≡ type_from (parts tokens.now) }
    ensures within { result ≤ length tokens.now }
{
    let base = base_length(tokens);
    if base == 0 {
        return 0;
    }
    base + dimensions_length(&tokens[base..])
}

/// What stands behind the last token of a name: where that is a word, type arguments that end
/// inside a token.
fn split_length(last: &[Token]) -> usize
    ensures counted { result ≡ split_behind (parts last.now) }
    ensures within { result ≤ length last.now - 1 }
{
    match last {
        [word, behind @ ..] if Part::of(word).is_word() => split_arguments_length(behind),
        _ => 0,
    }
}

fn split_named_length(tokens: &[Token]) -> usize
    ensures counted { result ≡ split_named_from (parts tokens.now) }
    ensures within { result ≤ length tokens.now }
{
    let named = named_length(tokens);
    if named == 0 {
        return 0;
    }
    named + split_length(&tokens[named - 1..])
}

/// How many tokens the longest type at the front has, but for its dimensions; its last type
/// arguments may end inside a token.
#[tactic(auto, unfolding(crate::specs::Extents::longest_from))]
fn longest_length(tokens: &[Token]) -> usize
    ensures counted { result ≡ longest_from (parts tokens.now) }
    ensures within { result ≤ length tokens.now }
{
    match tokens {
        [] => 0,
        [first, ..] if Part::of(first).is_primitive() => 1,
        _ => split_named_length(tokens),
    }
}

/// The same with annotations before it.
pub fn annotated_type_length(tokens: &[Token]) -> usize
    ensures counted { result ≡ annotated_from longest_from (parts tokens.now) }
    ensures within { result ≤ length tokens.now }
{
    let annotations = annotations_length(tokens);
    before(annotations, longest_length(&tokens[annotations..]))
}
