//! Types (JLS 4.1 to 4.5, 10.1). A type goes on through a part, type arguments or a dimension only
//! where these are whole.
ghost use Rattle.std.specs.Prelude.{◌≡◌, ◌∷◌, [], Some};
ghost use Rattle.type_expr_parser.specs.Reading.{Gives, many, prepended, many_count};
ghost use Rattle.type_expr_parser.specs.Types.{type_at, type_over, bare_over, base_over};
ghost use Rattle.type_expr_parser.specs.Types.{primitive_at, named_over, part_over};
ghost use Rattle.type_expr_parser.specs.Types.{further_part_over, dimension_at};
ghost use Rattle.type_expr_parser.specs.Types.{may_begin as may_begin_name, any_args_over};
ghost use Rattle.type_expr_parser.specs.Types.{args_over, arg_over, further_arg_over};
ghost use Rattle.type_expr_parser.specs.Types.{arg_list_over, wildcard_over, reference_over};

use crate::annotation::pass_annotations;
use crate::error::Unread;
use crate::name::with_dims;
use crate::tokens::{comes, front_line, passes, sign, token, word};
use hdr_core::List;
use java_ast::{ArgTree, NamePart, Primitive, TypeTree};
use java_grammar::{Part, Reader, Sign};
use std::alloc::Global;

/// The word that begins a type only before a further word (JLS 3.9).
const SEALED: &[u8] = b"sealed";

/// A type with the annotations before it, in which at most `depth` stand in each other.
#[cycle(types)]
#[tactic(auto, unfolding(crate::specs::Types::type_at, crate::specs::Types::type_over))]
pub fn any_type(alloc: Global, reader: &mut Reader<'_>, depth: u32) -> Result<TypeTree, Unread>
    ensures { Gives (λ ty. ty) result reader.new (type_at depth reader.old) }
{
    if depth == 0 {
        return Err(Unread::NotSpelled);
    }
    pass_annotations(alloc, reader, depth - 1)?;
    bare_type(alloc, reader, depth - 1)
}

/// A type without annotations before it, in whose arguments at most `depth` stand in each other.
#[cycle(types)]
#[tactic(auto, unfolding(crate::specs::Types::bare_over))]
pub fn bare_type(alloc: Global, reader: &mut Reader<'_>, depth: u32) -> Result<TypeTree, Unread>
    ensures { Gives (λ ty. ty) result reader.new (bare_over (type_at depth) depth reader.old) }
{
    let element = base(alloc, reader, depth)?;
    let dims = dimensions(alloc, reader, depth)?;
    with_dims(alloc, element, dims)
}

/// A dimension, with annotations before it (JLS 10.2).
#[tactic(auto, unfolding(crate::specs::Types::dimension_at))]
fn dimension(alloc: Global, reader: &mut Reader<'_>, depth: u32) -> Result<(), Unread>
    ensures { Gives (λ none. none) result reader.new (dimension_at depth reader.old) }
{
    pass_annotations(alloc, reader, depth)?;
    sign(reader, Sign::LeftBracket)?;
    sign(reader, Sign::RightBracket)
}

/// How many dimensions come next; they are read.
pub fn dimensions(alloc: Global, reader: &mut Reader<'_>, depth: u32) -> Result<u32, Unread>
    ensures { Gives (λ count. count) result reader.new
        (Some (many_count (dimension_at depth) depth reader.old)) }
{
    let mut count: u32 = 0;
    for _ in 0..depth {
        let mut ahead = reader.fork();
        match dimension(alloc, &mut ahead, depth) {
            Ok(()) => count += 1,
            Err(Unread::NotSpelled) => return Ok(count),
            Err(Unread::Memory) => return Err(Unread::Memory),
        }
        *reader = ahead;
    }
    Ok(count)
}

/// This primitive type, which comes next.
#[tactic(auto, unfolding(crate::specs::Types::primitive_at))]
fn primitive(reader: &mut Reader<'_>, primitive: Primitive) -> Result<TypeTree, Unread>
    ensures { Gives (λ ty. ty) result reader.new (primitive_at primitive reader.old) }
{
    token(reader)?;
    Ok(TypeTree::Primitive(primitive))
}

/// A primitive type or a name.
#[cycle(types)]
#[tactic(auto, unfolding(crate::specs::Types::base_over))]
fn base(alloc: Global, reader: &mut Reader<'_>, depth: u32) -> Result<TypeTree, Unread>
    ensures { Gives (λ ty. ty) result reader.new (base_over (type_at depth) depth reader.old) }
{
    match reader.part() {
        Some(Part::Primitive(of)) => primitive(reader, of),
        _ => named(alloc, reader, depth),
    }
}

/// Whether these parts are a type's: the first word is `sealed` only before a further one.
fn may_begin(parts: &[NamePart]) -> bool
    ensures { result ≡ may_begin_name parts.now }
{
    match parts {
        [first, further @ ..] => {
            first.name.bytes() != SEALED || (first.args.is_none() && !further.is_empty())
        }
        [] => false,
    }
}

#[cycle(types)]
#[tactic(auto, unfolding(crate::specs::Types::named_over))]
fn named(alloc: Global, reader: &mut Reader<'_>, depth: u32) -> Result<TypeTree, Unread>
    ensures { Gives (λ ty. ty) result reader.new (named_over (type_at depth) depth reader.old) }
{
    let line = front_line(reader);
    let first = part(alloc, reader, depth)?;
    let parts = parts_from(alloc, reader, first, depth)?;
    if !may_begin(parts.items()) {
        return Err(Unread::NotSpelled);
    }
    Ok(TypeTree::Named { line, parts })
}

/// A word with its type arguments.
#[cycle(types)]
#[tactic(auto, unfolding(crate::specs::Types::part_over))]
fn part(alloc: Global, reader: &mut Reader<'_>, depth: u32) -> Result<NamePart, Unread>
    ensures { Gives (λ part. part) result reader.new (part_over (type_at depth) depth reader.old) }
{
    let name = word(alloc, reader)?;
    let args = any_args(alloc, reader, depth)?;
    Ok(NamePart { name, args })
}

/// A dot, annotations and a word with its type arguments.
#[cycle(types)]
#[tactic(auto, unfolding(crate::specs::Types::further_part_over))]
fn further_part(alloc: Global, reader: &mut Reader<'_>, depth: u32) -> Result<NamePart, Unread>
    ensures { Gives (λ part. part) result reader.new
        (further_part_over (type_at depth) depth reader.old) }
{
    sign(reader, Sign::Dot)?;
    pass_annotations(alloc, reader, depth)?;
    part(alloc, reader, depth)
}

/// The parts of a name from the first one on, which is read.
#[cycle(types)]
fn parts_from(
    alloc: Global,
    reader: &mut Reader<'_>,
    first: NamePart,
    depth: u32,
) -> Result<List<NamePart>, Unread>
    ensures { Gives (λ parts. parts) result reader.new (Some (prepended (first ∷ [])
        (many (further_part_over (type_at depth) depth) depth reader.old))) }
{
    let mut parts = Vec::new(alloc);
    parts.push(first)?;
    for _ in 0..depth {
        let mut ahead = reader.fork();
        match further_part(alloc, &mut ahead, depth) {
            Ok(part) => parts.push(part)?,
            Err(Unread::NotSpelled) => return Ok(List::of(parts)),
            Err(Unread::Memory) => return Err(Unread::Memory),
        }
        *reader = ahead;
    }
    Ok(List::of(parts))
}

/// Type arguments, if they come next and are whole.
#[cycle(types)]
#[tactic(auto, unfolding(crate::specs::Types::any_args_over))]
fn any_args(
    alloc: Global,
    reader: &mut Reader<'_>,
    depth: u32,
) -> Result<Option<List<ArgTree>>, Unread>
    ensures { Gives (λ args. args) result reader.new
        (any_args_over (type_at depth) depth reader.old) }
{
    let mut ahead = reader.fork();
    match args(alloc, &mut ahead, depth) {
        Ok(args) => {
            *reader = ahead;
            Ok(Some(args))
        }
        Err(Unread::NotSpelled) => Ok(None),
        Err(Unread::Memory) => Err(Unread::Memory),
    }
}

/// Type arguments in angles (JLS 4.5).
#[cycle(types)]
#[tactic(auto, unfolding(crate::specs::Types::args_over))]
fn args(alloc: Global, reader: &mut Reader<'_>, depth: u32) -> Result<List<ArgTree>, Unread>
    ensures { Gives (λ args. args) result reader.new (args_over (type_at depth) depth reader.old) }
{
    sign(reader, Sign::Less)?;
    let args = arg_list(alloc, reader, depth)?;
    if !reader.angle() {
        return Err(Unread::NotSpelled);
    }
    Ok(args)
}

/// Type arguments with commas between them; none where none comes.
#[cycle(types)]
#[tactic(auto, unfolding(crate::specs::Types::arg_list_over))]
fn arg_list(alloc: Global, reader: &mut Reader<'_>, depth: u32) -> Result<List<ArgTree>, Unread>
    ensures { Gives (λ args. args) result reader.new
        (arg_list_over (type_at depth) depth reader.old) }
{
    let mut ahead = reader.fork();
    match arg(alloc, &mut ahead, depth) {
        Ok(first) => {
            *reader = ahead;
            args_from(alloc, reader, first, depth)
        }
        Err(Unread::NotSpelled) => Ok(List::of(Vec::new(alloc))),
        Err(Unread::Memory) => Err(Unread::Memory),
    }
}

/// Type arguments from the first one on, which is read.
#[cycle(types)]
fn args_from(
    alloc: Global,
    reader: &mut Reader<'_>,
    first: ArgTree,
    depth: u32,
) -> Result<List<ArgTree>, Unread>
    ensures { Gives (λ args. args) result reader.new (Some (prepended (first ∷ [])
        (many (further_arg_over (type_at depth) depth) depth reader.old))) }
{
    let mut args = Vec::new(alloc);
    args.push(first)?;
    for _ in 0..depth {
        let mut ahead = reader.fork();
        match further_arg(alloc, &mut ahead, depth) {
            Ok(arg) => args.push(arg)?,
            Err(Unread::NotSpelled) => return Ok(List::of(args)),
            Err(Unread::Memory) => return Err(Unread::Memory),
        }
        *reader = ahead;
    }
    Ok(List::of(args))
}

/// A comma and a type argument.
#[cycle(types)]
#[tactic(auto, unfolding(crate::specs::Types::further_arg_over))]
fn further_arg(alloc: Global, reader: &mut Reader<'_>, depth: u32) -> Result<ArgTree, Unread>
    ensures { Gives (λ arg. arg) result reader.new
        (further_arg_over (type_at depth) depth reader.old) }
{
    sign(reader, Sign::Comma)?;
    arg(alloc, reader, depth)
}

/// A type argument (JLS 4.5.1).
#[cycle(types)]
#[tactic(auto, unfolding(crate::specs::Types::arg_over))]
fn arg(alloc: Global, reader: &mut Reader<'_>, depth: u32) -> Result<ArgTree, Unread>
    ensures { Gives (λ arg. arg) result reader.new (arg_over (type_at depth) depth reader.old) }
{
    let mut ahead = reader.fork();
    pass_annotations(alloc, &mut ahead, depth)?;
    if comes(&ahead, Sign::Question) {
        *reader = ahead;
        wildcard(alloc, reader, depth)
    } else {
        Ok(ArgTree::Exact(reference(alloc, reader, depth)?))
    }
}

/// `?`, perhaps with a bound.
#[cycle(types)]
#[tactic(auto, unfolding(crate::specs::Types::wildcard_over))]
fn wildcard(alloc: Global, reader: &mut Reader<'_>, depth: u32) -> Result<ArgTree, Unread>
    ensures { Gives (λ arg. arg) result reader.new (wildcard_over (type_at depth) reader.old) }
{
    sign(reader, Sign::Question)?;
    if passes(reader, Sign::Extends) {
        Ok(ArgTree::Extends(reference(alloc, reader, depth)?))
    } else if passes(reader, Sign::Super) {
        Ok(ArgTree::Super(reference(alloc, reader, depth)?))
    } else {
        Ok(ArgTree::Any)
    }
}

/// A type that is no primitive one.
#[cycle(types)]
#[tactic(auto, unfolding(crate::specs::Types::reference_over))]
fn reference(alloc: Global, reader: &mut Reader<'_>, depth: u32) -> Result<TypeTree, Unread>
    ensures { Gives (λ ty. ty) result reader.new (reference_over (type_at depth) reader.old) }
{
    let ty = any_type(alloc, reader, depth)?;
    if matches!(&ty, TypeTree::Primitive(_)) {
        return Err(Unread::NotSpelled);
    }
    Ok(ty)
}
