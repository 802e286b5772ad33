//! Formal parameters with a receiver (JLS 8.4.1), and components of records (JLS 8.10.1).
ghost use Rattle.std.specs.Prelude.{◌≡◌, ◌&&◌, not};
ghost use Rattle.std.specs.List.{list_all};
ghost use Rattle.java_grammar.specs.Modifiers.{is_annotation};
ghost use Rattle.java_grammar.specs.Members.{with_dims as with_dims_of};
ghost use Rattle.type_expr_parser.specs.Reading.{Gives, Makes, Found};
ghost use Rattle.productions.specs.Lists.{in_parentheses as in_parentheses_line};
ghost use Rattle.head_parser.specs.Formals.{annotated as annotated_by, component, outer_this};
ghost use Rattle.head_parser.specs.Formals.{receiving, formal_end as formal_end_line, formal_by};
ghost use Rattle.head_parser.specs.Formals.{formal, formals_of, formals as formals_line, all_named};

use crate::modifier::{OneModifier, checked};
use hdr_core::{List, Text};
use java_ast::{AnnTree, Modifiers, Param, TypeTree};
use java_grammar::{Modifier, Part, Reader, Sign};
use productions::{Item, annotation_row, in_parentheses, row, typed, word_on_line};
use sqlite_items::Boxed;
use std::alloc::Global;
use type_expr_parser::{Unread, comes, dimensions, sign, word};

/// Annotations alone, as modifiers.
pub fn annotated(anns: List<AnnTree>) -> Modifiers
    ensures { result ≡ annotated_by anns }
{
    Modifiers {
        flags: 0,
        is_default: false,
        is_sealed: false,
        non_sealed: false,
        anns,
    }
}

/// A component of a record.
pub struct OneComponent;

impl Item for OneComponent {
    type Tree = Param;

    ghost line = { component };

    #[tactic(auto, unfolding(crate::specs::Formals::component))]
    fn read(alloc: Global, reader: &mut Reader<'_>, depth: u32) -> Result<Param, Unread> {
        let anns = annotation_row(alloc, reader, depth)?;
        let (ty, varargs) = typed(alloc, reader, depth)?;
        let (line, name) = word_on_line(alloc, reader)?;
        Ok(Param {
            line,
            mods: annotated(anns),
            ty,
            name,
            varargs,
        })
    }
}

/// The components of a record, in parentheses.
pub fn components(alloc: Global, reader: &mut Reader<'_>, depth: u32) -> Result<List<Param>, Unread>
    ensures { Gives (λ x. x) result reader.new
        ((in_parentheses_line component).read depth reader.old) }
{
    in_parentheses::<OneComponent>(alloc, reader, depth)
}

/// The type with so many dimensions more.
pub fn with_more_dims(alloc: Global, ty: TypeTree, more: u32) -> Result<TypeTree, Unread>
    ensures { Makes result (with_dims_of ty more) }
{
    if more == 0 {
        return Ok(ty);
    }
    match ty {
        TypeTree::Array { element, dims } => match dims.checked_add(more) {
            Some(dims) => Ok(TypeTree::Array { element, dims }),
            // More dimensions than tokens fit into memory.
            None => Err(Unread::Memory),
        },
        element => Ok(TypeTree::Array {
            element: Boxed::new(alloc, element)?,
            dims: more,
        }),
    }
}

/// What stands behind the type of a formal parameter.
#[derive(Drop)]
pub enum FormalEnd {
    Receiver,
    Named { line: u32, name: Text, dims: u32 },
}

/// `this`, perhaps with the name of the outer class before it.
#[tactic(auto, unfolding(crate::specs::Formals::outer_this))]
fn outer_this(alloc: Global, reader: &mut Reader<'_>) -> Result<(), Unread>
    ensures { Gives (λ none. none) result reader.new (outer_this.read 0 reader.old) }
{
    if !comes(reader, Sign::This) {
        word(alloc, reader)?;
        sign(reader, Sign::Dot)?;
    }
    sign(reader, Sign::This)
}

/// `this`, or a word and a dot, come next.
fn is_receiving(reader: &Reader<'_>) -> bool
    ensures { result ≡ receiving reader.now }
{
    if comes(reader, Sign::This) {
        return true;
    }
    match reader.part() {
        Some(Part::Word | Part::Sealed) => {
            let mut ahead = reader.fork();
            ahead.token();
            comes(&ahead, Sign::Dot)
        }
        _ => false,
    }
}

#[tactic(auto, unfolding(crate::specs::Formals::formal_end, crate::specs::Formals::outer_this))]
fn formal_end(alloc: Global, reader: &mut Reader<'_>, depth: u32) -> Result<FormalEnd, Unread>
    ensures { Gives (λ x. x) result reader.new (formal_end_line.read depth reader.old) }
{
    if is_receiving(reader) {
        outer_this(alloc, reader)?;
        return Ok(FormalEnd::Receiver);
    }
    let (line, name) = word_on_line(alloc, reader)?;
    let dims = dimensions(alloc, reader, depth)?;
    Ok(FormalEnd::Named { line, name, dims })
}

fn are_annotations(items: &[Modifier]) -> bool
    ensures { result ≡ list_all is_annotation items.now }
{
    for at in 0..items.len() {
        if !matches!(&items[at], Modifier::Annotation(_)) {
            return false;
        }
    }
    true
}

/// The formal parameter that these are, or a receiver, which is none.
fn formal_of(
    alloc: Global,
    items: List<Modifier>,
    ty: TypeTree,
    varargs: bool,
    end: FormalEnd,
) -> Result<Option<Param>, Unread>
    ensures { Found result (formal_by items (ty, varargs) end) }
{
    match end {
        FormalEnd::Receiver => {
            if are_annotations(items.items()) && !varargs {
                Ok(None)
            } else {
                Err(Unread::NotSpelled)
            }
        }
        FormalEnd::Named { line, name, dims } => {
            let mods = checked(alloc, items)?;
            let ty = with_more_dims(alloc, ty, dims)?;
            Ok(Some(Param {
                line,
                mods,
                ty,
                name,
                varargs,
            }))
        }
    }
}

/// A formal parameter, or a receiver.
pub struct OneFormal;

impl Item for OneFormal {
    type Tree = Option<Param>;

    ghost line = { formal };

    #[tactic(auto, unfolding(crate::specs::Formals::formal))]
    fn read(alloc: Global, reader: &mut Reader<'_>, depth: u32) -> Result<Option<Param>, Unread> {
        let items = row::<OneModifier>(alloc, reader, depth)?;
        let (ty, varargs) = typed(alloc, reader, depth)?;
        let end = formal_end(alloc, reader, depth)?;
        formal_of(alloc, items, ty, varargs, end)
    }
}

/// The formal parameters among these, of which the first alone may be a receiver.
#[tactic(auto, using(crate::proofs::FormalLists::from_first))]
fn named_formals(alloc: Global, items: List<Option<Param>>) -> Result<List<Param>, Unread>
    ensures { Found result (formals_of items) }
{
    let mut formals = Vec::new(alloc);
    let mut is_first = true;
    for item in items.into_items() {
        match item {
            Some(param) => formals.push(param)?,
            None => {
                if !is_first {
                    return Err(Unread::NotSpelled);
                }
            }
        }
        is_first = false;
    }
    Ok(List::of(formals))
}

/// The formal parameters of a method or a constructor, in parentheses, without the receiver.
#[tactic(auto, unfolding(crate::specs::Formals::formals))]
pub fn formals(alloc: Global, reader: &mut Reader<'_>, depth: u32) -> Result<List<Param>, Unread>
    ensures { Gives (λ x. x) result reader.new (formals_line.read depth reader.old) }
{
    let items = in_parentheses::<OneFormal>(alloc, reader, depth)?;
    named_formals(alloc, items)
}
