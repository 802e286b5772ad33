//! Annotations one behind the other, and types before `...`.
ghost use Rattle.type_expr_parser.specs.Reading.{Gives};
ghost use Rattle.productions.specs.Leaves.{annotation};
ghost use Rattle.productions.specs.Lists.{annotation_row, ellipsis_at, typed as typed_line};

use crate::item::{Item, row};
use hdr_core::List;
use java_ast::{AnnTree, TypeTree};
use java_grammar::{Reader, Sign};
use std::alloc::Global;
use type_expr_parser::{Unread, pass_annotations, passes, read_annotation, read_bare_type};

/// An annotation (JLS 9.7).
pub struct OneAnnotation;

impl Item for OneAnnotation {
    type Tree = AnnTree;

    ghost line = { annotation };

    fn read(alloc: Global, reader: &mut Reader<'_>, depth: u32) -> Result<AnnTree, Unread> {
        read_annotation(alloc, reader, depth)
    }
}

/// Annotations, as many as come.
pub fn annotation_row(
    alloc: Global,
    reader: &mut Reader<'_>,
    depth: u32,
) -> Result<List<AnnTree>, Unread>
    ensures { Gives (λ anns. anns) result reader.new (annotation_row.read depth reader.old) }
{
    row::<OneAnnotation>(alloc, reader, depth)
}

/// Whether `...` came next, perhaps with annotations before it; else nothing is read.
#[tactic(auto, unfolding(crate::specs::Lists::ellipsis_at))]
fn ellipsis(alloc: Global, reader: &mut Reader<'_>, depth: u32) -> Result<bool, Unread>
    ensures { Gives (λ came. came) result reader.new (ellipsis_at depth reader.old) }
{
    let mut ahead = reader.fork();
    pass_annotations(alloc, &mut ahead, depth)?;
    if !passes(&mut ahead, Sign::Ellipsis) {
        return Ok(false);
    }
    *reader = ahead;
    Ok(true)
}

/// A type without annotations before it, and whether `...` is behind it (JLS 8.4.1).
#[tactic(auto, unfolding(crate::specs::Lists::typed))]
pub fn typed(alloc: Global, reader: &mut Reader<'_>, depth: u32) -> Result<(TypeTree, bool), Unread>
    ensures { Gives (λ x. x) result reader.new (typed_line.read depth reader.old) }
{
    let ty = read_bare_type(alloc, reader, depth)?;
    let varargs = ellipsis(alloc, reader, depth)?;
    Ok((ty, varargs))
}
