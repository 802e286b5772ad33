//! The counts that bound how deep a declaration nests.
ghost use Rattle.std.specs.Prelude.{◌≡◌, ◌≤◌, ◌<◌, ◌+◌, ◌^◌, ◌||◌, not, length, map, true, false};
ghost use Rattle.std.specs.List.{list_all};
ghost use Rattle.java_grammar.specs.Tests.{is_group_start};
ghost use Rattle.java_grammar.specs.Parts.{part_of, parts};
ghost use Rattle.java_grammar.specs.Counts.{angle_depth, angles_nest, bracket_depth};
ghost use Rattle.java_grammar.specs.Counts.{extent_behind, unread_behind, outside, bare};
ghost use Rattle.java_grammar.specs.Counts.{brackets_nest, is_call, calls_nothing, is_plain_part};
ghost use Rattle.java_grammar.specs.Counts.{is_plain, is_counted, count_of, is_short};
ghost use Rattle.java_grammar.specs.Counts.{extent_fits, extents_fit, ends_run, takes_prefix};
ghost use Rattle.java_grammar.specs.Counts.{values_fit, inside_group, group_behind_name};
ghost use Rattle.java_grammar.specs.Counts.{elements_inside, elements_behind, annotations_fit};
ghost use Rattle.java_grammar.specs.Counts.{default_value, default_fits};
ghost use Rattle.java_grammar.specs.Counts.{head_fits, tokens_fit, expression_fits};
ghost use Rattle.java_grammar.specs.Running.{counted_on, counted_in_run, begins_prefix};
ghost use Rattle.java_grammar.specs.Running.{begins_default, behind_default};

use crate::brackets::{annotation_length, group_length, name_length};
use crate::extent::extent_length;
use crate::part::Part;
use java_token::Token;

/// How many brackets, and how many angles, may be open at a place.
pub const MOST_NESTED: usize = 64;

/// How many `(`, `?` and prefix operators a constant expression may have.
pub const MOST_COUNTED: usize = 256;

fn angle_depth(depth: usize, part: Part) -> usize
    requires { depth < 2 ^ 63 }
    ensures { result ≡ angle_depth depth part }
{
    if part.is_less() {
        depth + 1
    } else {
        depth.saturating_sub(part.angles())
    }
}

fn angles_nest(tokens: &[Token]) -> bool
    ensures { result ≡ angles_nest (parts tokens.now) }
{
    let mut angles: usize = 0;
    for at in 0..tokens.len() {
        angles = angle_depth(angles, Part::of(&tokens[at]));
        if angles > MOST_NESTED {
            return false;
        }
    }
    true
}

fn bracket_depth(depth: usize, part: Part) -> usize
    requires { depth < 2 ^ 63 }
    ensures depth { result ≡ bracket_depth depth part }
    ensures few { result ≤ depth + 1 }
{
    if part.is_opening() {
        depth + 1
    } else if part.is_closing() {
        depth.saturating_sub(1)
    } else {
        depth
    }
}

/// How many tokens of an initialiser stand behind a token of this part.
fn extent_behind(in_head: bool, depth: usize, part: Part, behind: &[Token]) -> usize
    ensures counted { result ≡ extent_behind in_head depth part (parts behind.now) }
    ensures within { result ≤ length behind.now }
{
    if in_head && part.is_assign() && depth == 0 {
        extent_length(behind)
    } else {
        0
    }
}

/// How many tokens of an annotation or of an initialiser stand behind a token of this part.
fn unread_behind(in_head: bool, depth: usize, part: Part, behind: &[Token]) -> usize
    ensures counted { result ≡ unread_behind in_head depth part (parts behind.now) }
    ensures within { result ≤ length behind.now }
{
    if part.is_at() {
        annotation_length(behind)
    } else {
        extent_behind(in_head, depth, part, behind)
    }
}

fn brackets_nest(in_head: bool, tokens: &[Token]) -> bool
    ensures { result ≡ brackets_nest in_head (parts tokens.now) }
{
    let mut depth: usize = 0;
    let mut at: usize = 0;
    while at < tokens.len() {
        let part = Part::of(&tokens[at]);
        let extent = extent_behind(in_head, depth, part, &tokens[at + 1..]);
        depth = bracket_depth(depth, part);
        if depth > MOST_NESTED {
            return false;
        }
        at += 1 + extent;
    }
    true
}

fn is_call(behind_word: bool, part: Part) -> bool
    ensures { result ≡ is_call behind_word part }
{
    behind_word && part.is_group_start()
}

/// No word of these tokens stands right before a `(`.
fn calls_nothing(tokens: &[Token]) -> bool
    ensures { result ≡ calls_nothing false (parts tokens.now) }
{
    let mut behind_word = false;
    for at in 0..tokens.len() {
        let part = Part::of(&tokens[at]);
        if is_call(behind_word, part) {
            return false;
        }
        behind_word = part.is_word();
    }
    true
}

fn is_plain_token(token: &Token) -> bool
    ensures { result ≡ is_plain_part (part_of token.now) }
{
    Part::of(token).is_plain()
}

fn are_plain(tokens: &[Token]) -> bool
    ensures { result ≡ list_all is_plain_part (parts tokens.now) }
{
    for at in 0..tokens.len() {
        if !is_plain_token(&tokens[at]) {
            return false;
        }
    }
    true
}

/// An initialiser of these tokens may be a constant expression (JLS 15.29).
#[tactic(auto, unfolding(crate::specs::Counts::is_plain))]
pub fn is_plain(tokens: &[Token]) -> bool
    ensures { result ≡ is_plain (parts tokens.now) }
{
    are_plain(tokens) && calls_nothing(tokens)
}

fn is_counted(may_prefix: bool, part: Part) -> bool
    ensures { result ≡ is_counted may_prefix part }
{
    part.is_group_start() || part.is_question() || (may_prefix && part.is_prefix())
}

fn counted_on(so_far: usize, may_prefix: bool, part: Part) -> usize
    requires { so_far < 2 ^ 63 }
    ensures counted { result ≡ counted_on so_far may_prefix part }
    ensures few { result ≤ so_far + 1 }
{
    if is_counted(may_prefix, part) {
        so_far + 1
    } else {
        so_far
    }
}

/// How many `(`, `?` and prefix operators an expression of these tokens has.
fn count_of(tokens: &[Token]) -> usize
    ensures { result ≡ count_of (parts tokens.now) }
{
    let mut so_far: usize = 0;
    let mut may_prefix = true;
    for at in 0..tokens.len() {
        let part = Part::of(&tokens[at]);
        so_far = counted_on(so_far, may_prefix, part);
        may_prefix = part.takes_prefix();
    }
    so_far
}

fn is_short(tokens: &[Token]) -> bool
    ensures { result ≡ is_short (parts tokens.now) }
{
    count_of(tokens) <= MOST_COUNTED
}

fn extent_fits(tokens: &[Token]) -> bool
    ensures { result ≡ extent_fits (parts tokens.now) }
{
    !is_plain(tokens) || is_short(tokens)
}

fn extents_fit(tokens: &[Token]) -> bool
    ensures { result ≡ extents_fit (parts tokens.now) }
{
    let mut depth: usize = 0;
    let mut at: usize = 0;
    while at < tokens.len() {
        let part = Part::of(&tokens[at]);
        let extent = extent_behind(true, depth, part, &tokens[at + 1..]);
        let fits = extent_fits(&tokens[at + 1..at + 1 + extent]);
        if !fits {
            return false;
        }
        depth = bracket_depth(depth, part);
        at += 1 + extent;
    }
    true
}

fn counted_in_run(so_far: usize, may_prefix: bool, part: Part) -> usize
    requires { so_far < 2 ^ 63 }
    ensures counted { result ≡ counted_in_run so_far may_prefix part }
    ensures few { result ≤ so_far + 1 }
{
    if part.ends_run() {
        0
    } else {
        counted_on(so_far, may_prefix, part)
    }
}

fn begins_prefix(part: Part) -> bool
    ensures { result ≡ begins_prefix part }
{
    part.ends_run() || part.takes_prefix()
}

/// The values of elements in these tokens are short, each as far as it is an expression.
#[tactic(auto, unfolding(crate::specs::Counts::values_fit))]
fn values_fit(in_head: bool, tokens: &[Token]) -> bool
    ensures { result ≡ values_fit in_head (parts tokens.now) }
{
    let mut depth: usize = 0;
    let mut so_far: usize = 0;
    let mut may_prefix = true;
    let mut at: usize = 0;
    while at < tokens.len() {
        let part = Part::of(&tokens[at]);
        let unread = unread_behind(in_head, depth, part, &tokens[at + 1..]);
        so_far = counted_in_run(so_far, may_prefix, part);
        if so_far > MOST_COUNTED {
            return false;
        }
        may_prefix = begins_prefix(part);
        depth = bracket_depth(depth, part);
        at += 1 + unread;
    }
    true
}

/// What stands inside the group at the front.
fn inside_group(tokens: &[Token]) -> &[Token]
    ensures { parts result.now ≡ inside_group (parts tokens.now) }
{
    match tokens {
        [first, behind @ ..] if Part::of(first).is_group_start() => {
            &behind[..group_length(behind).saturating_sub(1)]
        }
        _ => &tokens[..0],
    }
}

/// What stands in the group behind a name, behind the name's first word.
fn group_behind_name(tokens: &[Token]) -> &[Token]
    ensures { parts result.now ≡ group_behind_name (parts tokens.now) }
{
    inside_group(&tokens[name_length(tokens)..])
}

/// What stands in the group of the elements of the annotation behind whose `@` these tokens stand.
fn elements_inside(behind: &[Token]) -> &[Token]
    ensures { parts result.now ≡ elements_inside (parts behind.now) }
{
    match behind {
        [first, more @ ..] if Part::of(first).is_word() => group_behind_name(more),
        _ => &behind[..0],
    }
}

/// The values of the elements of an annotation that begins with a token of this part are short.
fn annotation_fits(part: Part, behind: &[Token]) -> bool
    ensures { result ≡ values_fit false (elements_behind part (parts behind.now)) }
{
    if part.is_at() {
        values_fit(false, elements_inside(behind))
    } else {
        values_fit(false, &behind[..0])
    }
}

fn annotations_fit(in_head: bool, tokens: &[Token]) -> bool
    ensures { result ≡ annotations_fit in_head (parts tokens.now) }
{
    let mut depth: usize = 0;
    let mut at: usize = 0;
    while at < tokens.len() {
        let part = Part::of(&tokens[at]);
        let extent = extent_behind(in_head, depth, part, &tokens[at + 1..]);
        let fits = annotation_fits(part, &tokens[at + 1..]);
        if !fits {
            return false;
        }
        depth = bracket_depth(depth, part);
        at += 1 + extent;
    }
    true
}

fn begins_default(depth: usize, part: Part, behind_group: bool) -> bool
    ensures { result ≡ begins_default depth part behind_group }
{
    part.is_default() && depth == 0 && behind_group
}

fn has_group(behind_group: bool, part: Part) -> bool
    ensures { result ≡ (behind_group || is_group_start part) }
{
    behind_group || part.is_group_start()
}

/// What stands behind the `default` of a method, found by what was met before.
fn behind_default(in_head: bool, tokens: &[Token]) -> &[Token]
    ensures { parts result.now ≡ behind_default false (bare in_head (parts tokens.now)) }
{
    let mut depth: usize = 0;
    let mut behind_group = false;
    let mut at: usize = 0;
    while at < tokens.len() {
        let part = Part::of(&tokens[at]);
        if begins_default(depth, part, behind_group) {
            return &tokens[at + 1..];
        }
        let unread = unread_behind(in_head, depth, part, &tokens[at + 1..]);
        depth = bracket_depth(depth, part);
        behind_group = has_group(behind_group, part);
        at += 1 + unread;
    }
    &tokens[..0]
}

/// What stands behind the `default` of a method.
#[tactic(auto, using(crate::proofs::Defaults::default_is_met))]
fn default_value(in_head: bool, tokens: &[Token]) -> &[Token]
    ensures { parts result.now ≡ default_value (bare in_head (parts tokens.now)) }
{
    behind_default(in_head, tokens)
}

/// The value behind the `default` of a method is short.
fn default_fits(in_head: bool, tokens: &[Token]) -> bool
    ensures { result ≡ default_fits in_head (parts tokens.now) }
{
    values_fit(in_head, default_value(in_head, tokens))
}

/// The head of a segment passes none of the counts: at most 64 brackets and 64 angles are open at
/// a place, and at most 256 of `(`, `?` and prefix operators stand in an initialiser or in a
/// value of an element that may be constant.
#[tactic(auto, unfolding(crate::specs::Counts::head_fits))]
pub fn head_fits(tokens: &[Token]) -> bool
    ensures { result ≡ head_fits (parts tokens.now) }
{
    angles_nest(tokens)
        && brackets_nest(true, tokens)
        && extents_fit(tokens)
        && annotations_fit(true, tokens)
        && default_fits(true, tokens)
}

/// Tokens that are to be read as a type or as an annotation pass none of the counts.
#[tactic(auto, unfolding(crate::specs::Counts::tokens_fit))]
pub fn tokens_fit(tokens: &[Token]) -> bool
    ensures { result ≡ tokens_fit (parts tokens.now) }
{
    angles_nest(tokens)
        && brackets_nest(false, tokens)
        && annotations_fit(false, tokens)
        && default_fits(false, tokens)
}

/// Tokens that are to be read as an expression pass none of the counts: they count as one
/// initialiser.
#[tactic(auto, unfolding(crate::specs::Counts::expression_fits))]
pub fn expression_fits(tokens: &[Token]) -> bool
    ensures { result ≡ expression_fits (parts tokens.now) }
{
    angles_nest(tokens) && is_short(tokens)
}
