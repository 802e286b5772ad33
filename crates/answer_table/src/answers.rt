ghost use Rattle.std.specs.Prelude.{◌≡◌, ◌<◌, true, length, slice_index, slice_index_or};
ghost use Rattle.std.specs.Prelude.{IfSome, IsSome};
ghost use Rattle.answer_table.specs.Views.{knows};

use crate::listing::Listing;
use crate::rule::EmptyOrListed;
use crate::seat::Seat;
use crate::view::View;
use atomic_table::{Closed, Table};
use std::alloc::Global;
use std::marker::Model;
use std::snapshot::Snapshot;

/// The answers of a table that is shared no more.
///
/// Contracts see what each word holds, and what the seat knew that closed the table.
pub struct Answers<L: Listing> {
    closed: Closed<u64, Global>,
    closer: Snapshot<Seat<L>>,
}

impl<L: Listing> Model for Answers<L> {
    ghost use Rattle.std.specs.Prelude.{◌≡◌, map};
    ghost use Rattle.std.specs.Slots.{slots_items, slots_len, IsFull};
    ghost use Rattle.answer_table.specs.Closing.{Closing, IsClosed, answer_of};

    ghost Value = { Closing };

    ghost view = { λ a. record {
      answers = map answer_of (slots_items a.closed.words);
      closer = a.closer.value.view;
    } };

    ghost invariant = { λ a.
        IsFull a.closed.words
        × (slots_len a.closed.slots ≡ 0)
        × IsClosed L.listed (slots_items a.closed.words) a.closer.value.view };
}

impl<L: Listing> Answers<L> {
    pub(crate) fn of(
        table: Table<u64, View, (), EmptyOrListed<L>, Global>,
        seat: Seat<L>,
    ) -> Answers<L>
        requires table { seat.table ≡ table.shared.table_id }
        requires none { table.shared.table_id.slots ≡ 0 }
        ensures count { length result.answers ≡ table.shared.table_id.words }
        ensures closer { result.closer ≡ seat.view }
    {
        let closer = Snapshot::of(&seat);
        let closed = table.close_with(seat.into_inner());
        Answers { closed, closer }
    }

    /// The word's answer, or None where it was empty at the end.
    pub fn get(&self, word: u32) -> Option<u64>
        requires { word < length self.now.answers }
        ensures holds { result ≡ slice_index_or self.now.answers word None }
        ensures listed { IfSome result (λ answer. answer ≡ slice_index L.listed word) }
        ensures known { knows self.now.closer word ≡ true → IsSome result }
    {
        let held = self.closed.word(word as usize);
        if held == 0 { None } else { Some(held) }
    }
}

impl<L: Listing> Drop for Answers<L> {
    fn drop(self) {
        let Self { closed, closer: _ } = self;
        closed.free();
    }
}
