//! Type parameters (JLS 8.1.2, 8.4.4), what is thrown (JLS 8.4.6), and the types that a
//! declaration extends, implements and permits (JLS 8.1.4 to 8.1.6, 9.1.3, 9.1.4).
ghost use Rattle.type_expr_parser.specs.Reading.{Gives};
ghost use Rattle.head_parser.specs.Types.{named, named_types, bounds as bounds_line, param, params};
ghost use Rattle.head_parser.specs.Types.{throws as throws_line, superclass as superclass_line};
ghost use Rattle.head_parser.specs.Types.{superinterfaces as superinterfaces_line, implements};
ghost use Rattle.head_parser.specs.Types.{permits};

use hdr_core::List;
use java_ast::{TypeParam, TypeTree};
use java_grammar::{Reader, Sign};
use productions::{Item, angle, separated, the_word, word_comes};
use std::alloc::Global;
use type_expr_parser::{Unread, comes, pass_annotations, read_type, sign, word};

/// The word before the types that a declaration permits (JLS 8.1.6).
const PERMITS: &[u8] = b"permits";

/// A name with type arguments, and no dimension.
pub struct NamedType;

impl Item for NamedType {
    type Tree = TypeTree;

    ghost line = { named };

    #[tactic(auto, unfolding(crate::specs::Types::named))]
    fn read(alloc: Global, reader: &mut Reader<'_>, depth: u32) -> Result<TypeTree, Unread> {
        let ty = read_type(alloc, reader, depth)?;
        if !matches!(&ty, TypeTree::Named { line: _, parts: _ }) {
            return Err(Unread::NotSpelled);
        }
        Ok(ty)
    }
}

#[tactic(auto, unfolding(crate::specs::Types::named_types))]
fn named_types(alloc: Global, reader: &mut Reader<'_>, depth: u32) -> Result<List<TypeTree>, Unread>
    ensures { Gives (λ x. x) result reader.new (named_types.read depth reader.old) }
{
    separated::<NamedType>(alloc, reader, Sign::Comma, depth)
}

/// The bounds of a type parameter (JLS 4.4), or none.
#[tactic(auto, unfolding(crate::specs::Types::bounds))]
pub fn bounds(alloc: Global, reader: &mut Reader<'_>, depth: u32) -> Result<List<TypeTree>, Unread>
    ensures { Gives (λ x. x) result reader.new (bounds_line.read depth reader.old) }
{
    if !comes(reader, Sign::Extends) {
        return Ok(List::of(Vec::new(alloc)));
    }
    sign(reader, Sign::Extends)?;
    separated::<NamedType>(alloc, reader, Sign::And, depth)
}

/// A type parameter.
pub struct OneTypeParam;

impl Item for OneTypeParam {
    type Tree = TypeParam;

    ghost line = { param };

    #[tactic(auto, unfolding(crate::specs::Types::param))]
    fn read(alloc: Global, reader: &mut Reader<'_>, depth: u32) -> Result<TypeParam, Unread> {
        pass_annotations(alloc, reader, depth)?;
        let name = word(alloc, reader)?;
        let bounds = bounds(alloc, reader, depth)?;
        Ok(TypeParam { name, bounds })
    }
}

/// Type parameters in angles, or none.
#[tactic(auto, unfolding(crate::specs::Types::params))]
pub fn type_params(
    alloc: Global,
    reader: &mut Reader<'_>,
    depth: u32,
) -> Result<List<TypeParam>, Unread>
    ensures { Gives (λ x. x) result reader.new (params.read depth reader.old) }
{
    if !comes(reader, Sign::Less) {
        return Ok(List::of(Vec::new(alloc)));
    }
    sign(reader, Sign::Less)?;
    let params = separated::<OneTypeParam>(alloc, reader, Sign::Comma, depth)?;
    angle(reader)?;
    Ok(params)
}

/// What a method or a constructor throws, or nothing.
#[tactic(auto, unfolding(crate::specs::Types::throws))]
pub fn throws(alloc: Global, reader: &mut Reader<'_>, depth: u32) -> Result<List<TypeTree>, Unread>
    ensures { Gives (λ x. x) result reader.new (throws_line.read depth reader.old) }
{
    if !comes(reader, Sign::Throws) {
        return Ok(List::of(Vec::new(alloc)));
    }
    sign(reader, Sign::Throws)?;
    named_types(alloc, reader, depth)
}

/// The superclass, as a list of one, or none.
#[tactic(auto, unfolding(crate::specs::Types::superclass))]
pub fn superclass(
    alloc: Global,
    reader: &mut Reader<'_>,
    depth: u32,
) -> Result<List<TypeTree>, Unread>
    ensures { Gives (λ x. x) result reader.new (superclass_line.read depth reader.old) }
{
    let mut types = Vec::new(alloc);
    if !comes(reader, Sign::Extends) {
        return Ok(List::of(types));
    }
    sign(reader, Sign::Extends)?;
    types.push(NamedType::read(alloc, reader, depth)?)?;
    Ok(List::of(types))
}

/// What an interface extends, or nothing.
#[tactic(auto, unfolding(crate::specs::Types::superinterfaces))]
pub fn superinterfaces(
    alloc: Global,
    reader: &mut Reader<'_>,
    depth: u32,
) -> Result<List<TypeTree>, Unread>
    ensures { Gives (λ x. x) result reader.new (superinterfaces_line.read depth reader.old) }
{
    if !comes(reader, Sign::Extends) {
        return Ok(List::of(Vec::new(alloc)));
    }
    sign(reader, Sign::Extends)?;
    named_types(alloc, reader, depth)
}

/// What a class implements, or nothing.
#[tactic(auto, unfolding(crate::specs::Types::implements))]
pub fn implemented(
    alloc: Global,
    reader: &mut Reader<'_>,
    depth: u32,
) -> Result<List<TypeTree>, Unread>
    ensures { Gives (λ x. x) result reader.new (implements.read depth reader.old) }
{
    if !comes(reader, Sign::Implements) {
        return Ok(List::of(Vec::new(alloc)));
    }
    sign(reader, Sign::Implements)?;
    named_types(alloc, reader, depth)
}

/// What a sealed class or interface permits, or nothing.
#[tactic(auto, unfolding(crate::specs::Types::permits))]
pub fn permitted(
    alloc: Global,
    reader: &mut Reader<'_>,
    depth: u32,
) -> Result<List<TypeTree>, Unread>
    ensures { Gives (λ x. x) result reader.new (permits.read depth reader.old) }
{
    if !word_comes(reader, PERMITS) {
        return Ok(List::of(Vec::new(alloc)));
    }
    the_word(reader, PERMITS)?;
    named_types(alloc, reader, depth)
}
