//! The members of one key, which stand together.
ghost use Rattle.std.specs.Prelude.{◌≡◌, ◌≤◌, [], true, false, length, slice_index_or};
ghost use Rattle.std.specs.List.Sorted.{IsPartitionPoint, IsSortedByKey};
ghost use Rattle.std.specs.Ordering.{is_lt, is_le};
ghost use Rattle.class_desc.specs.ClassFile.{is_key};
ghost use Rattle.member_index.specs.Order.{meant, key_cmp, key_at, keys_of, IsOrderOf};
ghost use Rattle.member_index.specs.Order.{AreOrdersOf, placed};
ghost use Rattle.member_index.specs.Places.{places_of};

use crate::key::{MemberKey, compare, key_of};
use crate::kind::Kind;
use class_desc::ClassDesc;
use reachability::Rows;
use std::cmp::Ordering;

fn compare_to(class: &ClassDesc, kind: Kind, place: u32, key: &MemberKey<'_>) -> Ordering
    ensures { result ≡ key_cmp (key_at (keys_of kind class.now) place) (meant key.now) }
{
    compare(&key_of(class, kind, place), key)
}

/// How many of these places come before those of a key.
fn count_before(order: &[u32], class: &ClassDesc, kind: Kind, key: &MemberKey<'_>) -> usize
    ensures within { result ≤ length order.now }
    ensures parted { IsSortedByKey (key_at (keys_of kind class.now)) key_cmp order.now →
        IsPartitionPoint
        (λ place. is_lt (key_cmp (key_at (keys_of kind class.now) place) (meant key.now)) ≡ true)
        (λ place. is_lt (key_cmp (key_at (keys_of kind class.now) place) (meant key.now)) ≡ false)
        order.now result }
{
    order.partition_point(|place| compare_to(class, kind, *place, key).is_lt())
}

/// How many of these places don't come behind those of a key.
fn count_upto(order: &[u32], class: &ClassDesc, kind: Kind, key: &MemberKey<'_>) -> usize
    ensures within { result ≤ length order.now }
    ensures parted { IsSortedByKey (key_at (keys_of kind class.now)) key_cmp order.now →
        IsPartitionPoint
        (λ place. is_le (key_cmp (key_at (keys_of kind class.now) place) (meant key.now)) ≡ true)
        (λ place. is_le (key_cmp (key_at (keys_of kind class.now) place) (meant key.now)) ≡ false)
        order.now result }
{
    order.partition_point(|place| compare_to(class, kind, *place, key).is_le())
}

/// The places of a key, among those of a class.
fn range<'a>(order: &'a [u32], class: &ClassDesc, kind: Kind, key: &MemberKey<'_>) -> &'a [u32]
    ensures { IsOrderOf (keys_of kind class.now) order.now →
        result.now ≡ places_of (λ k. is_key k (meant key.now)) (keys_of kind class.now) }
{
    let (_, rest) = order.split_at(count_before(order, class, kind, key));
    let (found, _) = rest.split_at(count_upto(rest, class, kind, key));
    found
}

/// The list of a class, which is empty where the class isn't there.
fn order_at(orders: &Rows, class: usize) -> &[u32]
    ensures { result.now ≡ slice_index_or orders.now class [] }
{
    if class < orders.len() {
        orders.row(class)
    } else {
        &[]
    }
}

/// The places of a key in a class.
pub fn places_in<'a>(
    orders: &'a Rows,
    classes: &[ClassDesc],
    class: usize,
    kind: Kind,
    key: &MemberKey<'_>,
) -> &'a [u32]
    ensures { AreOrdersOf kind orders.now classes.now →
        result.now ≡ placed kind classes.now class (meant key.now) }
{
    match classes.get(class) {
        Some(desc) => range(order_at(orders, class), desc, kind, key),
        None => &[],
    }
}
