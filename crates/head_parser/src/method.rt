//! Methods, constructors and compact constructors (JLS 8.4, 8.8, 8.10.4, 9.4, 9.6.1): the whole
//! text of a segment.
ghost use Rattle.std.specs.Prelude.{◌≡◌};
ghost use Rattle.java_grammar.specs.Members.{with_anns as with_anns_of};
ghost use Rattle.type_expr_parser.specs.Reading.{Gives, Found, Makes};
ghost use Rattle.head_parser.specs.Methods.{some_params, generic as generic_line, is_void};
ghost use Rattle.head_parser.specs.Methods.{result as result_line, default_value as default_line};
ghost use Rattle.head_parser.specs.Methods.{ending as ending_line, has_result, method_line};
ghost use Rattle.head_parser.specs.Methods.{constructor_end as constructor_end_line};
ghost use Rattle.head_parser.specs.Methods.{constructor_line, compact_end as compact_end_line};
ghost use Rattle.head_parser.specs.Methods.{compact_line, method_tail as tail_line, method_of};
ghost use Rattle.head_parser.specs.Methods.{initialiser_of, block_line};

use crate::formal::{formals, with_more_dims};
use crate::modifier::modifiers;
use crate::types::{OneTypeParam, throws, type_params};
use hdr_core::{List, Text};
use java_ast::{AnnTree, ElemTree, MethodDecl, MethodKind, Modifiers, Param, TypeParam, TypeTree};
use java_grammar::{Reader, Sign};
use productions::{angle, annotation_row, semicolon, separated, skipped_group, word_on_line};
use std::alloc::Global;
use type_expr_parser::{Unread, comes, dimensions, read_bare_type, read_value, sign};

/// The name of a constructor in a class file (JVMS 2.9.1).
const INITIALISER: &[u8] = b"<init>";

/// Type parameters in angles.
#[tactic(auto, unfolding(crate::specs::Methods::some_params))]
fn some_params(
    alloc: Global,
    reader: &mut Reader<'_>,
    depth: u32,
) -> Result<List<TypeParam>, Unread>
    ensures { Gives (λ x. x) result reader.new (some_params.read depth reader.old) }
{
    sign(reader, Sign::Less)?;
    let params = separated::<OneTypeParam>(alloc, reader, Sign::Comma, depth)?;
    angle(reader)?;
    Ok(params)
}

/// Type parameters, and the annotations behind them.
#[tactic(auto, unfolding(crate::specs::Methods::generic))]
fn generic(
    alloc: Global,
    reader: &mut Reader<'_>,
    depth: u32,
) -> Result<(List<TypeParam>, List<AnnTree>), Unread>
    ensures { Gives (λ x. x) result reader.new (generic_line.read depth reader.old) }
{
    if !comes(reader, Sign::Less) {
        return Ok((List::of(Vec::new(alloc)), List::of(Vec::new(alloc))));
    }
    let params = some_params(alloc, reader, depth)?;
    let anns = annotation_row(alloc, reader, depth)?;
    Ok((params, anns))
}

/// The result, without the dimensions behind the formals.
#[tactic(auto, unfolding(crate::specs::Methods::result))]
fn method_result(alloc: Global, reader: &mut Reader<'_>, depth: u32) -> Result<TypeTree, Unread>
    ensures { Gives (λ x. x) result reader.new (result_line.read depth reader.old) }
{
    if comes(reader, Sign::Void) {
        sign(reader, Sign::Void)?;
        return Ok(TypeTree::Void);
    }
    read_bare_type(alloc, reader, depth)
}

/// The default value of an annotation's element (JLS 9.6.2), if there is one.
#[tactic(auto, unfolding(crate::specs::Methods::default_value))]
fn default_value(
    alloc: Global,
    reader: &mut Reader<'_>,
    depth: u32,
) -> Result<Option<ElemTree>, Unread>
    ensures { Gives (λ x. x) result reader.new (default_line.read depth reader.old) }
{
    if !comes(reader, Sign::Default) {
        return Ok(None);
    }
    sign(reader, Sign::Default)?;
    Ok(Some(read_value(alloc, reader, depth)?))
}

/// A body that is skipped, or `;`.
fn ending(reader: &mut Reader<'_>) -> Result<(), Unread>
    ensures { Gives (λ x. x) result reader.new (ending_line.read 0 reader.old) }
{
    if reader.group() {
        return Ok(());
    }
    semicolon(reader)
}

/// `void` has no dimensions.
fn has_result(ty: &TypeTree, dims: u32) -> bool
    ensures { result ≡ has_result ty.now dims }
{
    dims == 0 || !matches!(ty, TypeTree::Void)
}

/// The modifiers, with these annotations behind theirs.
fn with_anns(mods: Modifiers, anns: List<AnnTree>) -> Result<Modifiers, Unread>
    ensures { Makes result (with_anns_of mods anns) }
{
    let Modifiers {
        flags,
        is_default,
        is_sealed,
        non_sealed,
        anns: first,
    } = mods;
    let mut all = first.into_items();
    for ann in anns.into_items() {
        all.push(ann)?;
    }
    Ok(Modifiers {
        flags,
        is_default,
        is_sealed,
        non_sealed,
        anns: List::of(all),
    })
}

/// A method from its formals on: these, dimensions, what it throws, and a default value.
type Tail = (List<Param>, (u32, (List<TypeTree>, Option<ElemTree>)));

#[tactic(auto, unfolding(crate::specs::Methods::method_tail))]
fn method_tail(alloc: Global, reader: &mut Reader<'_>, depth: u32) -> Result<Tail, Unread>
    ensures { Gives (λ x. x) result reader.new (tail_line.read depth reader.old) }
{
    let formals = formals(alloc, reader, depth)?;
    let dims = dimensions(alloc, reader, depth)?;
    let throws = throws(alloc, reader, depth)?;
    let default_value = default_value(alloc, reader, depth)?;
    ending(reader)?;
    Ok((formals, (dims, (throws, default_value))))
}

/// The method that these parts are.
fn method_of(
    alloc: Global,
    mods: Modifiers,
    generic: (List<TypeParam>, List<AnnTree>),
    base: TypeTree,
    named: (u32, Text),
    tail: Tail,
) -> Result<MethodDecl, Unread>
    ensures { Found result (method_of (mods, (generic, (base, (named, tail))))) }
{
    let (params, anns) = generic;
    let (line, name) = named;
    let (formals, (dims, (throws, default_value))) = tail;
    if !has_result(&base, dims) {
        return Err(Unread::NotSpelled);
    }
    let mods = with_anns(mods, anns)?;
    let ret = with_more_dims(alloc, base, dims)?;
    Ok(MethodDecl {
        line,
        mods,
        kind: MethodKind::Plain,
        params,
        ret,
        name,
        formals,
        throws,
        default_value,
    })
}

/// A method.
#[tactic(auto, unfolding(crate::specs::Methods::method_line))]
pub fn method(alloc: Global, reader: &mut Reader<'_>, depth: u32) -> Result<MethodDecl, Unread>
    ensures { Gives (λ x. x) result reader.new (method_line.read depth reader.old) }
{
    let mods = modifiers(alloc, reader, depth)?;
    let generic = generic(alloc, reader, depth)?;
    let base = method_result(alloc, reader, depth)?;
    let named = word_on_line(alloc, reader)?;
    let tail = method_tail(alloc, reader, depth)?;
    method_of(alloc, mods, generic, base, named, tail)
}

/// What initialises an object: a method named so, without a result.
fn initialiser(
    alloc: Global,
    line: u32,
    mods: Modifiers,
    kind: MethodKind,
    params: List<TypeParam>,
    formals: List<Param>,
    throws: List<TypeTree>,
) -> Result<MethodDecl, Unread>
    ensures { Makes result (initialiser_of line mods kind params formals throws) }
{
    Ok(MethodDecl {
        line,
        mods,
        kind,
        params,
        ret: TypeTree::Void,
        name: Text::of(alloc, INITIALISER)?,
        formals,
        throws,
        default_value: None,
    })
}

/// A name before formal parameters.
#[tactic(auto, unfolding(crate::specs::Methods::constructor_end))]
fn constructor_end(
    alloc: Global,
    reader: &mut Reader<'_>,
    depth: u32,
) -> Result<((u32, Text), List<Param>), Unread>
    ensures { Gives (λ x. x) result reader.new (constructor_end_line.read depth reader.old) }
{
    let named = word_on_line(alloc, reader)?;
    let formals = formals(alloc, reader, depth)?;
    Ok((named, formals))
}

/// A constructor of a class of this name.
#[tactic(auto, unfolding(crate::specs::Methods::constructor_line))]
pub fn constructor(
    alloc: Global,
    reader: &mut Reader<'_>,
    class: &[u8],
    depth: u32,
) -> Result<MethodDecl, Unread>
    ensures { Gives (λ x. x) result reader.new
        ((constructor_line class.now).read depth reader.old) }
{
    let mods = modifiers(alloc, reader, depth)?;
    let params = type_params(alloc, reader, depth)?;
    let ((line, name), formals) = constructor_end(alloc, reader, depth)?;
    let throws = throws(alloc, reader, depth)?;
    skipped_group(reader)?;
    if name.bytes() != class {
        return Err(Unread::NotSpelled);
    }
    initialiser(
        alloc,
        line,
        mods,
        MethodKind::Constructor,
        params,
        formals,
        throws,
    )
}

/// A name before a body.
#[tactic(auto, unfolding(crate::specs::Methods::compact_end))]
fn compact_end(alloc: Global, reader: &mut Reader<'_>) -> Result<(u32, Text), Unread>
    ensures { Gives (λ x. x) result reader.new (compact_end_line.read 0 reader.old) }
{
    let named = word_on_line(alloc, reader)?;
    skipped_group(reader)?;
    Ok(named)
}

/// A compact constructor of a record of this name.
#[tactic(auto, unfolding(crate::specs::Methods::compact_line, crate::specs::Methods::compact_end))]
pub fn compact_constructor(
    alloc: Global,
    reader: &mut Reader<'_>,
    class: &[u8],
    depth: u32,
) -> Result<MethodDecl, Unread>
    ensures { Gives (λ x. x) result reader.new ((compact_line class.now).read depth reader.old) }
{
    let mods = modifiers(alloc, reader, depth)?;
    let (line, word) = compact_end(alloc, reader)?;
    if word.bytes() != class {
        return Err(Unread::NotSpelled);
    }
    let params = List::of(Vec::new(alloc));
    let formals = List::of(Vec::new(alloc));
    let throws = List::of(Vec::new(alloc));
    initialiser(
        alloc,
        line,
        mods,
        MethodKind::Compact,
        params,
        formals,
        throws,
    )
}

/// An initialiser (JLS 8.6, 8.7), which leaves nothing in the tree.
#[tactic(auto, unfolding(crate::specs::Methods::block_line))]
pub fn initialiser_block(reader: &mut Reader<'_>) -> Result<(), Unread>
    ensures { Gives (λ none. none) result reader.new (block_line.read 0 reader.old) }
{
    if comes(reader, Sign::Static) {
        sign(reader, Sign::Static)?;
    }
    skipped_group(reader)
}
