//! Single steps on tables of few words and of many.
ghost use Rattle.std.specs.Prelude.{◌≡◌, ◌≤◌};
ghost use Rattle.answer_table_tests.specs.Squares.{squares_of};

use crate::squares::{publish, start};
use answer_table::{Listing, Started};
use hdr_core::Memory;
use std::alloc::Global;
use std::marker::Brand;

// A load of the last word before its publish and behind it; at the end that word and the first.
fn around_a_publish<L: Listing>(alloc: Global, words: u32) -> Result<[Option<u64>; 4], Memory>
    requires some { 1 ≤ words }
    requires listed { L.listed ≡ squares_of words }
{
    let Started { table, mut seat } = start::<L>(alloc, words)?;
    let last = table.words() - 1;
    let before = seat.load(&table, last);
    publish(&table, &mut seat, last);
    let Some(behind) = seat.load(&table, last) else {
        unreachable!()
    };
    let answers = table.close(seat);
    let Some(at_last) = answers.get(last) else {
        unreachable!()
    };
    Ok([before, Some(behind), Some(at_last), answers.get(0)])
}

// Two seats publish the second word, and one the third: what the other loads of that, twice, and
// all three at the end.
fn by_two_seats<L: Listing>(alloc: Global) -> Result<[Option<u64>; 4], Memory>
    requires { L.listed ≡ squares_of 3 }
{
    let Started { table, mut seat } = start::<L>(alloc, 3)?;
    let mut other = seat.split(&table);
    publish(&table, &mut seat, 1);
    publish(&table, &mut other, 1);
    publish(&table, &mut other, 2);
    let seen = seat.load(&table, 2);
    if seen.is_some() && seat.load(&table, 2).is_none() {
        unreachable!()
    }
    seat.join(&table, other);
    let answers = table.close(seat);
    Ok([seen, answers.get(0), answers.get(1), answers.get(2)])
}

// A table may go before its seats, and a seat before its table.
fn let_go<L: Listing>(alloc: Global) -> Result<(), Memory>
    requires { L.listed ≡ squares_of 1 }
{
    let Started { table, mut seat } = start::<L>(alloc, 1)?;
    drop(seat.split(&table));
    drop(table);
    drop(seat);
    let Started { table, seat } = start::<L>(alloc, 1)?;
    drop(table.close(seat));
    Ok(())
}

#[test]
fn a_word_is_empty_until_its_publish(rt: HostRuntime) {
    let one = around_a_publish::<Brand>(rt.alloc(), 1).expect(&rt, "there is memory");
    assert_eq!(rt; one, [None, Some(1), Some(1), Some(1)]);
    let many = around_a_publish::<Brand>(rt.alloc(), 10_000).expect(&rt, "there is memory");
    assert_eq!(rt; many, [None, Some(99_980_002), Some(99_980_002), None]);
}

#[test]
fn seats_see_what_the_other_published(rt: HostRuntime) {
    let answers = by_two_seats::<Brand>(rt.alloc()).expect(&rt, "there is memory");
    assert_eq!(rt; answers, [Some(5), None, Some(2), Some(5)]);
}

#[test]
fn tables_and_seats_may_be_let_go(rt: HostRuntime) {
    let_go::<Brand>(rt.alloc()).expect(&rt, "there is memory");
}
