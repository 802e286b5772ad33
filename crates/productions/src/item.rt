//! Items of the grammar, and lists of them.
ghost use Rattle.std.specs.Prelude.{◌≡◌, ◌∷◌, [], Some};
ghost use Rattle.type_expr_parser.specs.Reading.{Gives, many, prepended};
ghost use Rattle.productions.specs.Productions.{separated as separated_line, further_at};
ghost use Rattle.productions.specs.Lists.{in_parentheses as in_parentheses_line};

use hdr_core::List;
use java_grammar::{Reader, Sign};
use std::alloc::Global;
use type_expr_parser::{Unread, comes, sign};

/// What is read wherever its production stands.
pub trait Item {
    ghost use Rattle.productions.specs.Productions.{Production};

    type Tree: Drop;

    ghost line: { Production Self.Tree };

    fn read(alloc: Global, reader: &mut Reader<'_>, depth: u32) -> Result<Self::Tree, Unread>
        ensures { Gives (λ x. x) result reader.new (line.read depth reader.old) };
}

/// As many items as come, one behind the other.
pub fn row<I: Item>(
    alloc: Global,
    reader: &mut Reader<'_>,
    depth: u32,
) -> Result<List<I::Tree>, Unread>
    ensures { Gives (λ items. items) result reader.new
        (Some (many (I.line.read depth) depth reader.old)) }
{
    let mut items = Vec::new(alloc);
    for _ in 0..depth {
        let mut ahead = reader.fork();
        match I::read(alloc, &mut ahead, depth) {
            Ok(item) => items.push(item)?,
            Err(Unread::NotSpelled) => return Ok(List::of(items)),
            Err(Unread::Memory) => return Err(Unread::Memory),
        }
        *reader = ahead;
    }
    Ok(List::of(items))
}

/// The token, and an item behind it.
#[tactic(auto, unfolding(crate::specs::Productions::further_at))]
fn further<I: Item>(
    alloc: Global,
    reader: &mut Reader<'_>,
    between: Sign,
    depth: u32,
) -> Result<I::Tree, Unread>
    ensures { Gives (λ x. x) result reader.new (further_at between I.line depth reader.old) }
{
    sign(reader, between)?;
    I::read(alloc, reader, depth)
}

/// Items from the first one on, which is read.
fn items_from<I: Item>(
    alloc: Global,
    reader: &mut Reader<'_>,
    between: Sign,
    first: I::Tree,
    depth: u32,
) -> Result<List<I::Tree>, Unread>
    ensures { Gives (λ items. items) result reader.new (Some (prepended (first ∷ [])
        (many (further_at between I.line depth) depth reader.old))) }
{
    let mut items = Vec::new(alloc);
    items.push(first)?;
    for _ in 0..depth {
        let mut ahead = reader.fork();
        match further::<I>(alloc, &mut ahead, between, depth) {
            Ok(item) => items.push(item)?,
            Err(Unread::NotSpelled) => return Ok(List::of(items)),
            Err(Unread::Memory) => return Err(Unread::Memory),
        }
        *reader = ahead;
    }
    Ok(List::of(items))
}

/// Items with a token between each two; at least one.
pub fn separated<I: Item>(
    alloc: Global,
    reader: &mut Reader<'_>,
    between: Sign,
    depth: u32,
) -> Result<List<I::Tree>, Unread>
    ensures { Gives (λ items. items) result reader.new
        ((separated_line between I.line).read depth reader.old) }
{
    let first = I::read(alloc, reader, depth)?;
    items_from::<I>(alloc, reader, between, first, depth)
}

/// Items with commas between them, or none, in parentheses.
pub fn in_parentheses<I: Item>(
    alloc: Global,
    reader: &mut Reader<'_>,
    depth: u32,
) -> Result<List<I::Tree>, Unread>
    ensures { Gives (λ items. items) result reader.new
        ((in_parentheses_line I.line).read depth reader.old) }
{
    sign(reader, Sign::LeftParenthesis)?;
    if comes(reader, Sign::RightParenthesis) {
        sign(reader, Sign::RightParenthesis)?;
        return Ok(List::of(Vec::new(alloc)));
    }
    let items = separated::<I>(alloc, reader, Sign::Comma, depth)?;
    sign(reader, Sign::RightParenthesis)?;
    Ok(items)
}
