//! The members of each class in the order of what they are told by.
ghost use Rattle.std.specs.Prelude.{◌≡◌, ◌<◌, ◌^◌, IfOk, OnOk, length};
ghost use Rattle.std.specs.List.{range_with_len};
ghost use Rattle.std.specs.List.Sorted.{IsPermutation, IsSortedByKey, IsStableByKey};
ghost use Rattle.member_index.specs.Index.{HaveFewMembers};
ghost use Rattle.member_index.specs.Order.{key_cmp, key_at, keys_of, IsOrderOf, AreOrdersOf};

use crate::key::{compare, count, key_of};
use crate::kind::Kind;
use class_desc::ClassDesc;
use hdr_core::Memory;
use reachability::Rows;
use std::alloc::Global;
use std::cmp::Ordering;

fn compare_places(class: &ClassDesc, kind: Kind, one: u32, other: u32) -> Ordering
    ensures { result ≡ key_cmp (key_at (keys_of kind class.now) one)
        (key_at (keys_of kind class.now) other) }
{
    compare(&key_of(class, kind, one), &key_of(class, kind, other))
}

/// All places below a count.
fn list_places(places: &mut Vec<u32>, count: usize) -> Result<(), Memory>
    requires { count < 2 ^ 32 }
    ensures { OnOk result (places.new.items ≡ range_with_len 0 count) }
{
    places.clear();
    places.reserve(count)?;
    for place in 0..count as u32 {
        places.push(place)?;
    }
    Ok(())
}

fn sort_places(places: &mut Vec<u32>, class: &ClassDesc, kind: Kind) -> Result<(), Memory>
    ensures permutation { OnOk result (IsPermutation places.old.items places.new.items) }
    ensures sorted { OnOk result
        (IsSortedByKey (key_at (keys_of kind class.now)) key_cmp places.new.items) }
    ensures stable { OnOk result (IsStableByKey (key_at (keys_of kind class.now)) key_cmp
        places.old.items places.new.items) }
{
    places.sort_by(|one, other| compare_places(class, kind, *one, *other))?;
    Ok(())
}

/// The places of the members of a class.
fn order_places(places: &mut Vec<u32>, class: &ClassDesc, kind: Kind) -> Result<(), Memory>
    requires { length (keys_of kind class.now) < 2 ^ 32 }
    ensures { OnOk result (IsOrderOf (keys_of kind class.now) places.new.items) }
{
    list_places(places, count(class, kind))?;
    sort_places(places, class, kind)
}

/// How many members there are in all, up to the greatest number.
fn count_all(classes: &[ClassDesc], kind: Kind) -> usize {
    let mut all: usize = 0;
    for class in classes {
        all = all.saturating_add(count(class, kind));
    }
    all
}

/// The places of the members of each class.
pub fn orders(alloc: Global, classes: &[ClassDesc], kind: Kind) -> Result<Rows, Memory>
    requires { HaveFewMembers classes.now }
    ensures { IfOk result (λ orders. AreOrdersOf kind orders classes.now) }
{
    let mut orders = Rows::with_capacity(alloc, classes.len(), count_all(classes, kind))?;
    let mut places = Vec::new(alloc);
    for class in classes {
        order_places(&mut places, class, kind)?;
        orders.push(&places)?;
    }
    Ok(orders)
}
