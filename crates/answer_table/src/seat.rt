ghost use Rattle.std.specs.Prelude.{◌≡◌, ◌<◌, true, [], length, slice_index};
ghost use Rattle.std.specs.Prelude.{IfSome, IsSome, is_none};
ghost use Rattle.answer_table.specs.Views.{knows, loaded, published, joined};

use crate::listing::Listing;
use crate::rule::{Joining, Loading, Publishing, Splitting};
use crate::table::AnswerTable;
use crate::view::View;
use std::marker::{Model, PhantomData};

/// What a thread reads and fills a table with. It has no bytes.
///
/// Contracts see the table that it is of, and what it knows of that.
pub struct Seat<L: Listing> {
    seat: atomic_table::Seat<u64, View>,
    of: PhantomData<L>,
}

impl<L: Listing> Model for Seat<L> {
    ghost use Rattle.std.specs.Prelude.{◌≡◌, [], length};
    ghost use Rattle.answer_table.specs.Views.{Seated};

    ghost Value = { Seated };

    ghost view = { λ s. record { table = s.seat.table_id; view = s.seat.me.0 } };

    ghost invariant = { λ s. (s.seat.me.1 ≡ []) × (s.seat.table_id.words ≡ length L.listed) };
}

impl<L: Listing> Seat<L> {
    pub(crate) fn of(seat: atomic_table::Seat<u64, View>) -> Seat<L>
        requires bare { seat.me.1 ≡ [] }
        requires count { seat.table_id.words ≡ length L.listed }
        ensures { (result.table ≡ seat.table_id) × (result.view ≡ seat.me.0) }
    {
        Seat {
            seat,
            of: PhantomData,
        }
    }

    pub(crate) fn into_inner(self) -> atomic_table::Seat<u64, View>
        ensures { (result.table_id ≡ self.table) × (result.me ≡ (self.view, [])) }
    {
        let Seat { seat, of: _ } = self;
        seat
    }

    /// The word's answer, or None where the word was empty: one step, which the view notes.
    pub fn load(&mut self, table: &AnswerTable<L>, word: u32) -> Option<u64>
        requires table { self.old.table ≡ table.now }
        requires word { word < table.now.words }
        ensures answer { IfSome result (λ answer. answer ≡ slice_index L.listed word) }
        ensures known { knows self.old.view word ≡ true → IsSome result }
        ensures view { self.new.view ≡ loaded self.old.view word (is_none result) }
        ensures table { self.new.table ≡ self.old.table }
    {
        let shared = &table.table.shared;
        let held = shared.load::<Loading<L>>(&mut self.seat, word as usize);
        if held == 0 { None } else { Some(held) }
    }

    /// Fills the word with its listed answer where it is empty, in one step.
    pub fn publish(&mut self, table: &AnswerTable<L>, word: u32, answer: u64)
        requires table { self.old.table ≡ table.now }
        requires word { word < table.now.words }
        requires answer { answer ≡ slice_index L.listed word }
        ensures view { self.new.view ≡ published self.old.view word }
        ensures table { self.new.table ≡ self.old.table }
    {
        let shared = &table.table.shared;
        shared.compare_exchange::<Publishing>(&mut self.seat, word as usize, 0, answer);
    }

    /// A seat for another thread, which knows what this one knows.
    pub fn split(&mut self, table: &AnswerTable<L>) -> Seat<L>
        requires table { self.old.table ≡ table.now }
        ensures mine { self.new ≡ self.old }
        ensures theirs { result ≡ self.old }
    {
        let shared = &table.table.shared;
        Seat::of(shared.split_seat::<Splitting>(&mut self.seat))
    }

    /// Takes in what another seat knows. The note of loads stays this one's.
    pub fn join(&mut self, table: &AnswerTable<L>, other: Seat<L>)
        requires table { self.old.table ≡ table.now }
        requires other { other.table ≡ table.now }
        ensures view { self.new.view ≡ joined self.old.view other.view }
        ensures table { self.new.table ≡ self.old.table }
    {
        let shared = &table.table.shared;
        shared.join_seat::<Joining>(&mut self.seat, other.into_inner());
    }
}

impl<L: Listing> Drop for Seat<L> {
    fn drop(self) {
        let Self { seat: _, of: _ } = self;
    }
}
