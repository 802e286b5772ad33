//! Annotations and the values of their elements (JLS 9.7, 9.7.1).
ghost use Rattle.std.specs.Prelude.{◌≡◌, ◌∷◌, [], Some};
ghost use Rattle.type_expr_parser.specs.Reading.{Gives, many, prepended, behind_many};
ghost use Rattle.type_expr_parser.specs.Annotations.{value_at, value_over, list_over};
ghost use Rattle.type_expr_parser.specs.Annotations.{further_value_over, values_over};
ghost use Rattle.type_expr_parser.specs.Annotations.{annotation_over, elements_over};
ghost use Rattle.type_expr_parser.specs.Annotations.{begins_pair as begins_pair_at, inside_over};
ghost use Rattle.type_expr_parser.specs.Annotations.{sole_over, pair_over, further_pair_over};
ghost use Rattle.type_expr_parser.specs.Annotations.{pairs_over, annotation_at, any_elements_over};

use crate::error::Unread;
use crate::expression::conditional;
use crate::name::qualified_name;
use crate::tokens::{comes, front_line, passes, sign, word};
use hdr_core::{List, Text};
use java_ast::{AnnTree, ElemArg, ElemTree};
use java_grammar::{Part, Reader, Sign};
use std::alloc::Global;

/// The element of a sole value without a name (JLS 9.7.3).
const SOLE_ELEMENT: &[u8] = b"value";

/// A value of an element, in which at most `depth` stand in each other.
#[cycle(values)]
#[tactic(auto, unfolding(crate::specs::Annotations::value_at))]
pub fn value(alloc: Global, reader: &mut Reader<'_>, depth: u32) -> Result<ElemTree, Unread>
    ensures { Gives (λ value. value) result reader.new (value_at depth reader.old) }
{
    if depth == 0 {
        return Err(Unread::NotSpelled);
    }
    value_with(alloc, reader, depth - 1)
}

/// A value, in whose own values at most `depth` stand in each other.
#[cycle(values)]
#[tactic(auto, unfolding(crate::specs::Annotations::value_over))]
fn value_with(alloc: Global, reader: &mut Reader<'_>, depth: u32) -> Result<ElemTree, Unread>
    ensures { Gives (λ value. value) result reader.new
        (value_over (value_at depth) depth reader.old) }
{
    if comes(reader, Sign::At) {
        Ok(ElemTree::Ann(annotation_with(alloc, reader, depth)?))
    } else if comes(reader, Sign::LeftBrace) {
        list(alloc, reader, depth)
    } else {
        Ok(ElemTree::Value(conditional(alloc, reader, depth)?))
    }
}

/// Values in braces, perhaps with a comma behind the last.
#[cycle(values)]
#[tactic(auto, unfolding(crate::specs::Annotations::list_over))]
fn list(alloc: Global, reader: &mut Reader<'_>, depth: u32) -> Result<ElemTree, Unread>
    ensures { Gives (λ value. value) result reader.new
        (list_over (value_at depth) depth reader.old) }
{
    sign(reader, Sign::LeftBrace)?;
    let values = values(alloc, reader, depth)?;
    passes(reader, Sign::Comma);
    sign(reader, Sign::RightBrace)?;
    Ok(ElemTree::List(values))
}

/// Values with commas between them; none where none comes.
#[cycle(values)]
#[tactic(auto, unfolding(crate::specs::Annotations::values_over))]
fn values(alloc: Global, reader: &mut Reader<'_>, depth: u32) -> Result<List<ElemTree>, Unread>
    ensures { Gives (λ values. values) result reader.new
        (values_over (value_at depth) depth reader.old) }
{
    let mut ahead = reader.fork();
    match value(alloc, &mut ahead, depth) {
        Ok(first) => {
            *reader = ahead;
            values_from(alloc, reader, first, depth)
        }
        Err(Unread::NotSpelled) => Ok(List::of(Vec::new(alloc))),
        Err(Unread::Memory) => Err(Unread::Memory),
    }
}

/// Values from the first one on, which is read.
#[cycle(values)]
fn values_from(
    alloc: Global,
    reader: &mut Reader<'_>,
    first: ElemTree,
    depth: u32,
) -> Result<List<ElemTree>, Unread>
    ensures { Gives (λ values. values) result reader.new (Some (prepended (first ∷ [])
        (many (further_value_over (value_at depth)) depth reader.old))) }
{
    let mut values = Vec::new(alloc);
    values.push(first)?;
    for _ in 0..depth {
        let mut ahead = reader.fork();
        match further_value(alloc, &mut ahead, depth) {
            Ok(value) => values.push(value)?,
            Err(Unread::NotSpelled) => return Ok(List::of(values)),
            Err(Unread::Memory) => return Err(Unread::Memory),
        }
        *reader = ahead;
    }
    Ok(List::of(values))
}

/// A comma and a value.
#[cycle(values)]
#[tactic(auto, unfolding(crate::specs::Annotations::further_value_over))]
fn further_value(alloc: Global, reader: &mut Reader<'_>, depth: u32) -> Result<ElemTree, Unread>
    ensures { Gives (λ value. value) result reader.new
        (further_value_over (value_at depth) reader.old) }
{
    sign(reader, Sign::Comma)?;
    value(alloc, reader, depth)
}

/// An annotation, in whose values at most `depth` stand in each other. Its elements are read only
/// where they are whole.
#[cycle(values)]
#[tactic(auto, unfolding(crate::specs::Annotations::annotation_over))]
fn annotation_with(alloc: Global, reader: &mut Reader<'_>, depth: u32) -> Result<AnnTree, Unread>
    ensures { Gives (λ annotation. annotation) result reader.new
        (annotation_over (value_at depth) depth reader.old) }
{
    let line = front_line(reader);
    sign(reader, Sign::At)?;
    let names = qualified_name(alloc, reader, depth)?;
    let args = any_elements(alloc, reader, depth)?;
    Ok(AnnTree { line, names, args })
}

/// The elements in parentheses; none where they aren't whole.
#[cycle(values)]
#[tactic(auto, unfolding(crate::specs::Annotations::any_elements_over))]
fn any_elements(alloc: Global, reader: &mut Reader<'_>, depth: u32) -> Result<List<ElemArg>, Unread>
    ensures { Gives (λ args. args) result reader.new
        (any_elements_over (value_at depth) depth reader.old) }
{
    let mut ahead = reader.fork();
    match elements(alloc, &mut ahead, depth) {
        Ok(args) => {
            *reader = ahead;
            Ok(args)
        }
        Err(Unread::NotSpelled) => Ok(List::of(Vec::new(alloc))),
        Err(Unread::Memory) => Err(Unread::Memory),
    }
}

/// Elements in parentheses.
#[cycle(values)]
#[tactic(auto, unfolding(crate::specs::Annotations::elements_over))]
fn elements(alloc: Global, reader: &mut Reader<'_>, depth: u32) -> Result<List<ElemArg>, Unread>
    ensures { Gives (λ args. args) result reader.new
        (elements_over (value_at depth) depth reader.old) }
{
    sign(reader, Sign::LeftParenthesis)?;
    let args = inside(alloc, reader, depth)?;
    sign(reader, Sign::RightParenthesis)?;
    Ok(args)
}

/// A word and `=` come next.
fn begins_pair(reader: &Reader<'_>) -> bool
    ensures { result ≡ begins_pair_at reader.now }
{
    let mut ahead = reader.fork();
    match ahead.part() {
        Some(Part::Word | Part::Sealed) => {
            ahead.token();
            comes(&ahead, Sign::Assign)
        }
        _ => false,
    }
}

/// What stands in the parentheses.
#[cycle(values)]
#[tactic(auto, unfolding(crate::specs::Annotations::inside_over))]
fn inside(alloc: Global, reader: &mut Reader<'_>, depth: u32) -> Result<List<ElemArg>, Unread>
    ensures { Gives (λ args. args) result reader.new
        (inside_over (value_at depth) depth reader.old) }
{
    if comes(reader, Sign::RightParenthesis) {
        Ok(List::of(Vec::new(alloc)))
    } else if begins_pair(reader) {
        pairs(alloc, reader, depth)
    } else {
        sole(alloc, reader, depth)
    }
}

/// A sole value.
#[cycle(values)]
#[tactic(auto, unfolding(crate::specs::Annotations::sole_over))]
fn sole(alloc: Global, reader: &mut Reader<'_>, depth: u32) -> Result<List<ElemArg>, Unread>
    ensures { Gives (λ args. args) result reader.new
        (sole_over (value_at depth) reader.old) }
{
    let value = value(alloc, reader, depth)?;
    let mut args = Vec::new(alloc);
    args.push(ElemArg {
        name: Text::of(alloc, SOLE_ELEMENT)?,
        value,
    })?;
    Ok(List::of(args))
}

/// A name, `=` and a value.
#[cycle(values)]
#[tactic(auto, unfolding(crate::specs::Annotations::pair_over))]
fn pair(alloc: Global, reader: &mut Reader<'_>, depth: u32) -> Result<ElemArg, Unread>
    ensures { Gives (λ arg. arg) result reader.new (pair_over (value_at depth) reader.old) }
{
    let name = word(alloc, reader)?;
    sign(reader, Sign::Assign)?;
    let value = value(alloc, reader, depth)?;
    Ok(ElemArg { name, value })
}

/// A comma and a pair.
#[cycle(values)]
#[tactic(auto, unfolding(crate::specs::Annotations::further_pair_over))]
fn further_pair(alloc: Global, reader: &mut Reader<'_>, depth: u32) -> Result<ElemArg, Unread>
    ensures { Gives (λ arg. arg) result reader.new
        (further_pair_over (value_at depth) reader.old) }
{
    sign(reader, Sign::Comma)?;
    pair(alloc, reader, depth)
}

/// Pairs with commas between them.
#[cycle(values)]
#[tactic(auto, unfolding(crate::specs::Annotations::pairs_over))]
fn pairs(alloc: Global, reader: &mut Reader<'_>, depth: u32) -> Result<List<ElemArg>, Unread>
    ensures { Gives (λ args. args) result reader.new
        (pairs_over (value_at depth) depth reader.old) }
{
    let first = pair(alloc, reader, depth)?;
    pairs_from(alloc, reader, first, depth)
}

/// Pairs from the first one on, which is read.
#[cycle(values)]
fn pairs_from(
    alloc: Global,
    reader: &mut Reader<'_>,
    first: ElemArg,
    depth: u32,
) -> Result<List<ElemArg>, Unread>
    ensures { Gives (λ args. args) result reader.new (Some (prepended (first ∷ [])
        (many (further_pair_over (value_at depth)) depth reader.old))) }
{
    let mut args = Vec::new(alloc);
    args.push(first)?;
    for _ in 0..depth {
        let mut ahead = reader.fork();
        match further_pair(alloc, &mut ahead, depth) {
            Ok(arg) => args.push(arg)?,
            Err(Unread::NotSpelled) => return Ok(List::of(args)),
            Err(Unread::Memory) => return Err(Unread::Memory),
        }
        *reader = ahead;
    }
    Ok(List::of(args))
}

/// An annotation.
#[tactic(auto, unfolding(crate::specs::Annotations::annotation_at))]
pub fn annotation(alloc: Global, reader: &mut Reader<'_>, depth: u32) -> Result<AnnTree, Unread>
    ensures { Gives (λ annotation. annotation) result reader.new
        (annotation_at depth reader.old) }
{
    annotation_with(alloc, reader, depth)
}

/// Annotations, which are passed.
pub fn pass_annotations(alloc: Global, reader: &mut Reader<'_>, depth: u32) -> Result<(), Unread>
    ensures { Gives (λ none. none) result reader.new
        (Some (tt, behind_many (annotation_at depth) depth reader.old)) }
{
    for _ in 0..depth {
        let mut ahead = reader.fork();
        match annotation(alloc, &mut ahead, depth) {
            Ok(_) => *reader = ahead,
            Err(Unread::NotSpelled) => return Ok(()),
            Err(Unread::Memory) => return Err(Unread::Memory),
        }
    }
    Ok(())
}
