//! Type arguments, passed unread.
ghost use Rattle.std.specs.Prelude.{◌≡◌, ◌≤◌, ◌<◌, ◌^◌, length, IfSome};
ghost use Rattle.java_grammar.specs.Parts.{parts};
ghost use Rattle.java_grammar.specs.Extents.{closing_angles, annotated_angles};
ghost use Rattle.java_grammar.specs.Extents.{begins_with_bracket_end, dimension_step, angle_step};
ghost use Rattle.java_grammar.specs.Extents.{type_arguments_from, one_more_angled, arguments_at};
ghost use Rattle.java_grammar.specs.Extents.{whole_arguments, split_arguments};
ghost use Rattle.java_grammar.specs.Within.{IsAngleStepWithin};

use crate::brackets::annotation_length;
use crate::part::Part;
use java_token::Token;

/// Type arguments.
#[derive(Clone, Copy)]
pub struct Angled {
    /// How many tokens they have, up to the one that closes them, itself counted.
    pub count: usize,
    /// How many angles of that token are left.
    pub left: usize,
}

/// What a token is in type arguments.
#[derive(Clone, Copy)]
pub enum AngleStep {
    /// `more` tokens behind it are passed with it, and `depth` angles are open behind these.
    GoesOn { depth: usize, more: usize },
    /// It closes the type arguments, and so many of its angles are left.
    Closes { left: usize },
    /// It doesn't stand in type arguments.
    Stops,
}

fn closing_angles(closed: usize, depth: usize) -> AngleStep
    ensures { result ≡ closing_angles closed depth }
{
    if closed < depth {
        AngleStep::GoesOn {
            depth: depth - closed,
            more: 0,
        }
    } else {
        AngleStep::Closes {
            left: closed - depth,
        }
    }
}

fn annotated_angles(depth: usize, more: usize) -> AngleStep
    ensures { result ≡ annotated_angles depth more }
{
    if more > 0 {
        AngleStep::GoesOn { depth, more }
    } else {
        AngleStep::Stops
    }
}

/// These tokens begin with `]`.
pub fn begins_with_bracket_end(tokens: &[Token]) -> bool
    ensures { result ≡ begins_with_bracket_end (parts tokens.now) }
{
    match tokens {
        [first, ..] => Part::of(first).is_bracket_end(),
        _ => false,
    }
}

/// Behind a `[`.
fn dimension_step(depth: usize, behind: &[Token]) -> AngleStep
    ensures step { result ≡ dimension_step depth (parts behind.now) }
    ensures within { IsAngleStepWithin depth (length behind.now) result }
{
    match behind {
        [first, ..] if Part::of(first).is_bracket_end() => AngleStep::GoesOn { depth, more: 1 },
        _ => AngleStep::Stops,
    }
}

#[tactic(auto, unfolding(crate::specs::Extents::angle_step))]
fn angle_step(depth: usize, part: Part, behind: &[Token]) -> AngleStep
    requires { depth < 2 ^ 63 }
    ensures step { result ≡ angle_step depth part (parts behind.now) }
    ensures within { IsAngleStepWithin depth (length behind.now) result }
{
    if part.is_in_type_arguments() {
        AngleStep::GoesOn { depth, more: 0 }
    } else if part.is_bracket_start() {
        dimension_step(depth, behind)
    } else if part.is_less() {
        AngleStep::GoesOn {
            depth: depth + 1,
            more: 0,
        }
    } else if part.angles() > 0 {
        closing_angles(part.angles(), depth)
    } else if part.is_at() {
        annotated_angles(depth, annotation_length(behind))
    } else {
        AngleStep::Stops
    }
}

/// The type arguments that these tokens begin, which stand behind a `<`, if they are closed.
#[tactic(auto, unfolding(crate::specs::Extents::type_arguments_from))]
fn type_arguments(tokens: &[Token]) -> Option<Angled>
    ensures whole { result ≡ type_arguments_from (parts tokens.now) }
    ensures within { IfSome result (λ a. a.count ≤ length tokens.now) }
{
    let mut depth: usize = 1;
    let mut at: usize = 0;
    while at < tokens.len() {
        let part = Part::of(&tokens[at]);
        match angle_step(depth, part, &tokens[at + 1..]) {
            AngleStep::GoesOn { depth: now, more } => {
                depth = now;
                at += 1 + more;
            }
            AngleStep::Closes { left } => {
                return Some(Angled {
                    count: at + 1,
                    left,
                });
            }
            AngleStep::Stops => return None,
        }
    }
    None
}

fn one_more(arguments: Option<Angled>) -> Option<Angled>
    requires { IfSome arguments (λ a. a.count < 2 ^ 63) }
    ensures { result ≡ one_more_angled arguments }
{
    match arguments {
        Some(Angled { count, left }) => Some(Angled {
            count: count + 1,
            left,
        }),
        None => None,
    }
}

/// The type arguments at the front, with their `<`, if they are closed.
#[tactic(auto, unfolding(crate::specs::Extents::arguments_at))]
pub fn arguments(tokens: &[Token]) -> Option<Angled>
    ensures whole { result ≡ arguments_at (parts tokens.now) }
    ensures within { IfSome result (λ a. a.count ≤ length tokens.now) }
{
    match tokens {
        [first, behind @ ..] if Part::of(first).is_less() => one_more(type_arguments(behind)),
        _ => None,
    }
}

/// How many tokens the type arguments at the front have, where their last token ends with them.
pub fn whole_arguments_length(tokens: &[Token]) -> usize
    ensures counted { result ≡ whole_arguments (arguments_at (parts tokens.now)) }
    ensures within { result ≤ length tokens.now }
{
    match arguments(tokens) {
        Some(Angled { count, left }) if left == 0 => count,
        _ => 0,
    }
}

/// How many tokens the type arguments at the front have, where angles of their last token are
/// left.
pub fn split_arguments_length(tokens: &[Token]) -> usize
    ensures counted { result ≡ split_arguments (arguments_at (parts tokens.now)) }
    ensures within { result ≤ length tokens.now }
{
    match arguments(tokens) {
        Some(Angled { count, left }) if left > 0 => count,
        _ => 0,
    }
}
