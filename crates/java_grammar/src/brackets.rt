//! Groups in brackets, names and annotations, passed unread.
ghost use Rattle.std.specs.Prelude.{◌≡◌, ◌≤◌, ◌<◌, ◌+◌, ◌^◌, length, IfSome};
ghost use Rattle.java_grammar.specs.Parts.{parts};
ghost use Rattle.java_grammar.specs.Running.{partner_from};
ghost use Rattle.java_grammar.specs.Extents.{partner_of, group_from, is_further_word};
ghost use Rattle.java_grammar.specs.Extents.{name_from, elements_from, name_and_elements_from};
ghost use Rattle.java_grammar.specs.Extents.{annotation_from, before, annotation_at};
ghost use Rattle.java_grammar.specs.Extents.{annotations_from};

use crate::part::Part;
use java_token::Token;

/// The place of the partner of the bracket before these tokens, found by how many are open.
fn counted_partner(tokens: &[Token]) -> Option<usize>
    ensures counted { result ≡ partner_from 0 (parts tokens.now) }
    ensures within { IfSome result (λ count. count ≤ length tokens.now) }
{
    let mut inside: usize = 0;
    for at in 0..tokens.len() {
        let part = Part::of(&tokens[at]);
        if part.is_opening() {
            inside += 1;
        } else if part.is_closing() {
            if inside == 0 {
                return Some(at + 1);
            }
            inside -= 1;
        }
    }
    None
}

/// How many tokens stand up to the partner of the bracket that stands before these, the partner
/// counted.
#[tactic(auto, using(crate::proofs::Partners::partner_is_counted))]
pub fn partner(tokens: &[Token]) -> Option<usize>
    ensures counted { result ≡ partner_of (parts tokens.now) }
    ensures within { IfSome result (λ count. count ≤ length tokens.now) }
{
    counted_partner(tokens)
}

/// How many of these tokens are passed with the opening bracket before them.
#[tactic(auto, unfolding(crate::specs::Extents::group_from))]
pub fn group_length(tokens: &[Token]) -> usize
    ensures counted { result ≡ group_from (parts tokens.now) }
    ensures within { result ≤ length tokens.now }
{
    match partner(tokens) {
        Some(length) => length,
        None => 0,
    }
}

/// These tokens go on a name by a dot and a word.
fn is_further_word(tokens: &[Token]) -> bool
    ensures { result ≡ is_further_word (parts tokens.now) }
{
    match tokens {
        [dot, word, ..] => Part::of(dot).is_dot() && Part::of(word).is_word(),
        _ => false,
    }
}

/// How many tokens the further words of a name have, with their dots, behind its first word.
pub fn name_length(tokens: &[Token]) -> usize
    ensures counted { result ≡ name_from (parts tokens.now) }
    ensures within { result ≤ length tokens.now }
{
    let mut at: usize = 0;
    while is_further_word(&tokens[at..]) {
        at += 2;
    }
    at
}

/// How many tokens the group of an annotation's elements has, behind its name.
fn elements_length(tokens: &[Token]) -> usize
    ensures counted { result ≡ elements_from (parts tokens.now) }
    ensures within { result ≤ length tokens.now }
{
    match tokens {
        [first, behind @ ..] if Part::of(first).is_group_start() => match partner(behind) {
            Some(length) => length + 1,
            None => 0,
        },
        _ => 0,
    }
}

fn name_and_elements_length(tokens: &[Token]) -> usize
    ensures counted { result ≡ name_and_elements_from (parts tokens.now) }
    ensures within { result ≤ length tokens.now }
{
    let name = name_length(tokens);
    name + elements_length(&tokens[name..])
}

/// How many tokens an annotation has behind its `@`; 0 where there is none.
#[tactic(auto, unfolding(crate::specs::Extents::annotation_from))]
pub fn annotation_length(tokens: &[Token]) -> usize
    ensures counted { result ≡ annotation_from (parts tokens.now) }
    ensures within { result ≤ length tokens.now }
{
    match tokens {
        [first, behind @ ..] if Part::of(first).is_word() => 1 + name_and_elements_length(behind),
        _ => 0,
    }
}

/// So many more before something, where that is there.
pub fn before(count: usize, more: usize) -> usize
    requires { count + more < 2 ^ 64 }
    ensures { result ≡ before count more }
{
    if more == 0 { 0 } else { count + more }
}

/// How many tokens the annotation at the front has; 0 where there is none.
#[tactic(auto, unfolding(crate::specs::Extents::annotation_at))]
fn whole_annotation_length(tokens: &[Token]) -> usize
    ensures counted { result ≡ annotation_at (parts tokens.now) }
    ensures within { result ≤ length tokens.now }
{
    match tokens {
        [first, behind @ ..] if Part::of(first).is_at() => before(1, annotation_length(behind)),
        _ => 0,
    }
}

/// How many tokens the annotations at the front have.
pub fn annotations_length(tokens: &[Token]) -> usize
    ensures counted { result ≡ annotations_from (parts tokens.now) }
    ensures within { result ≤ length tokens.now }
{
    let mut at: usize = 0;
    while at < tokens.len() {
        let more = whole_annotation_length(&tokens[at..]);
        if more == 0 {
            return at;
        }
        at += more;
    }
    at
}
