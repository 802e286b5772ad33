//! The items of a list that are marked. A mark stands beside each item, so that who marks decides.
ghost use Rattle.std.specs.Prelude.{◌≡◌, Bool, map, filter, length, IfOk};
ghost use Rattle.std.specs.Vec.{vec_len};

use hdr_core::{List, Memory, TryCopy};
use std::alloc::Global;

/// Copies of the marked items.
pub fn copy_marked<T: TryCopy + Drop>(
    alloc: Global,
    items: &[T],
    marks: &[bool],
) -> Result<List<T>, Memory>
    requires { length marks.now ≡ length items.now }
    ensures { IfOk result (λ kept. (stays : T → Bool) → marks.now ≡ map stays items.now →
        kept ≡ filter stays items.now) }
{
    let mut kept = Vec::new(alloc);
    for (index, item) in items.iter().enumerate() {
        let marked = marks[index];
        if marked {
            kept.push(item.try_copy(alloc)?)?;
        }
    }
    Ok(List::of(kept))
}

/// Moves the marked items to the front, and drops the others.
fn retain_marked<T: Drop>(items: &mut Vec<T>, marks: &[bool])
    requires { length marks.now ≡ vec_len items.old }
    ensures { (stays : T → Bool) → marks.now ≡ map stays items.old.items →
        items.new.items ≡ filter stays items.old.items }
{
    let mut kept = 0;
    for (index, mark) in marks.iter().enumerate() {
        if *mark {
            items.swap(kept, index);
            kept += 1;
        }
    }
    items.truncate(kept);
}

/// The marked items. Takes no memory.
pub fn keep_marked<T: Drop>(list: List<T>, marks: &[bool]) -> List<T>
    requires { length marks.now ≡ length list }
    ensures { (stays : T → Bool) → marks.now ≡ map stays list → result ≡ filter stays list }
{
    let mut items = list.into_items();
    retain_marked(&mut items, marks);
    List::of(items)
}
