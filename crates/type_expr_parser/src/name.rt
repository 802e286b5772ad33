//! Qualified names, dimensions, and types without arguments.
ghost use Rattle.std.specs.Prelude.{◌≡◌, [], ◌∷◌, Some};
ghost use Rattle.type_expr_parser.specs.Reading.{Gives, Makes, prepended, many, many_count};
ghost use Rattle.type_expr_parser.specs.Names.{further_word_at, qname_at, bracket_pair_at};
ghost use Rattle.type_expr_parser.specs.Names.{plain_type as plain_type_of};
ghost use Rattle.type_expr_parser.specs.Names.{with_dims as with_dims_of};

use crate::error::Unread;
use crate::tokens::{sign, word};
use hdr_core::{List, Text};
use java_ast::{NamePart, TypeTree};
use java_grammar::{Reader, Sign};
use sqlite_items::Boxed;
use std::alloc::Global;

/// A dot and a word.
#[tactic(auto, unfolding(crate::specs::Names::further_word_at))]
fn further_word(alloc: Global, reader: &mut Reader<'_>) -> Result<Text, Unread>
    ensures { Gives (λ word. word) result reader.new (further_word_at reader.old) }
{
    sign(reader, Sign::Dot)?;
    word(alloc, reader)
}

/// The words of a name from its first one on, which is read.
fn words_from(
    alloc: Global,
    reader: &mut Reader<'_>,
    first: Text,
    depth: u32,
) -> Result<List<Text>, Unread>
    ensures { Gives (λ words. words) result reader.new
        (Some (prepended (first ∷ []) (many further_word_at depth reader.old))) }
{
    let mut words = Vec::new(alloc);
    words.push(first)?;
    for _ in 0..depth {
        let mut ahead = reader.fork();
        match further_word(alloc, &mut ahead) {
            Ok(word) => words.push(word)?,
            Err(Unread::NotSpelled) => return Ok(List::of(words)),
            Err(Unread::Memory) => return Err(Unread::Memory),
        }
        *reader = ahead;
    }
    Ok(List::of(words))
}

/// A qualified name (JLS 6.5).
#[tactic(auto, unfolding(crate::specs::Names::qname_at))]
pub fn qualified_name(
    alloc: Global,
    reader: &mut Reader<'_>,
    depth: u32,
) -> Result<List<Text>, Unread>
    ensures { Gives (λ words. words) result reader.new (qname_at depth reader.old) }
{
    let first = word(alloc, reader)?;
    words_from(alloc, reader, first, depth)
}

/// `[` and `]`.
#[tactic(auto, unfolding(crate::specs::Names::bracket_pair_at))]
fn bracket_pair(reader: &mut Reader<'_>) -> Result<(), Unread>
    ensures { Gives (λ none. none) result reader.new (bracket_pair_at reader.old) }
{
    sign(reader, Sign::LeftBracket)?;
    sign(reader, Sign::RightBracket)
}

/// How many pairs of brackets come next; they are read.
pub fn bracket_pairs(reader: &mut Reader<'_>, depth: u32) -> Result<u32, Unread>
    ensures { Gives (λ count. count) result reader.new
        (Some (many_count bracket_pair_at depth reader.old)) }
{
    let mut count: u32 = 0;
    for _ in 0..depth {
        let mut ahead = reader.fork();
        match bracket_pair(&mut ahead) {
            Ok(()) => count += 1,
            Err(Unread::NotSpelled) => return Ok(count),
            Err(Unread::Memory) => return Err(Unread::Memory),
        }
        *reader = ahead;
    }
    Ok(count)
}

/// The type of a name, whose first word stands on this line.
pub fn plain_type(alloc: Global, line: u32, words: &[Text]) -> Result<TypeTree, Unread>
    ensures { Makes result (plain_type_of line words.now) }
{
    let mut parts = Vec::new(alloc);
    for word in words {
        parts.push(NamePart {
            name: word.copy(alloc)?,
            args: None,
        })?;
    }
    Ok(TypeTree::Named {
        line,
        parts: List::of(parts),
    })
}

/// The type with so many dimensions.
pub fn with_dims(alloc: Global, element: TypeTree, dims: u32) -> Result<TypeTree, Unread>
    ensures { Makes result (with_dims_of element dims) }
{
    if dims == 0 {
        return Ok(element);
    }
    Ok(TypeTree::Array {
        element: Boxed::new(alloc, element)?,
        dims,
    })
}
