ghost use Rattle.std.specs.Prelude.{◌≡◌, None, IfOk, IfErr, OnOk};
ghost use Rattle.class_desc.specs.Layout.{layout};
ghost use Rattle.class_writer.specs.Refusal.{refusal, IsCause};

use crate::check::{check_counts, check_texts};
use crate::class::items_of;
use crate::error::PoolErr;
use crate::writer::ClassWriter;
use class_desc::ClassDesc;
use std::alloc::Global;

/// Writes the class file of a description (JVMS 4).
///
/// The pool has each entry once, in the order in which the file needs them. The refusals are those
/// of [`PoolErr`], in that order.
pub fn write_class(alloc: Global, desc: &ClassDesc) -> Result<Vec<u8>, PoolErr>
    ensures layout { IfOk result (λ file. file.items ≡ layout desc.now) }
    ensures fits { OnOk result (refusal desc.now ≡ None) }
    ensures refused { IfErr result (λ e. IsCause e (refusal desc.now)) }
{
    let outline = items_of(alloc, desc)?;
    let items = outline.items();
    check_texts(items)?;
    check_counts(items)?;
    let mut writer = ClassWriter::new(alloc, items.len(), outline.size())?;
    writer.write(items)?;
    writer.check_pool()?;
    Ok(writer.file(alloc, desc.minor, desc.major)?)
}
