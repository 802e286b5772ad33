ghost use Rattle.std.specs.Prelude.{◌≡◌, ◌≤◌, length, IfOk};
ghost use Rattle.answer_table.specs.Rule.{AreAnswers};
ghost use Rattle.answer_table.specs.Views.{newcomer};

use crate::answers::Answers;
use crate::listing::Listing;
use crate::rule::EmptyOrListed;
use crate::seat::Seat;
use crate::view::View;
use atomic_table::Table;
use hdr_core::Memory;
use std::alloc::Global;
use std::marker::Model;

/// Words that threads share, each empty or holding its listed answer.
///
/// Contracts see which table it is, and with that its number of words.
pub struct AnswerTable<L: Listing> {
    pub(crate) table: Table<u64, View, (), EmptyOrListed<L>, Global>,
}

impl<L: Listing> Model for AnswerTable<L> {
    ghost use Rattle.std.specs.Prelude.{◌≡◌, ◌<◌, ◌^◌};
    ghost use Rattle.atomic_table.specs.Seated.{TableId, table_id_coded};

    ghost Value = { TableId };

    ghost coded = { table_id_coded };

    ghost view = { λ t. t.table.shared.table_id };

    ghost invariant = { λ t.
        (t.table.shared.table_id.slots ≡ 0)
        × (0 < t.table.shared.table_id.words)
        × (t.table.shared.table_id.words < 2 ^ 32) };
}

/// A table with all words empty, and its first seat.
#[derive(Drop)]
pub struct Started<L: Listing> {
    pub table: AnswerTable<L>,
    pub seat: Seat<L>,
}

impl<L: Listing> AnswerTable<L> {
    /// All words are empty. The caller picks the list; no answer in it is 0.
    pub fn start(alloc: Global, words: u32) -> Result<Started<L>, Memory>
        requires some { 1 ≤ words }
        requires count { length L.listed ≡ words }
        requires answers { AreAnswers L.listed }
        ensures words { IfOk result (λ started. started.table.words ≡ words) }
        ensures seat { IfOk result (λ started. started.seat.table ≡ started.table) }
        ensures view { IfOk result (λ started. started.seat.view ≡ newcomer) }
    {
        let empty = vec![in alloc; 0u64; words as usize]?;
        let (table, seat) = Table::of_words(alloc, &empty, &())?;
        Ok(Started {
            table: AnswerTable { table },
            seat: Seat::of(seat),
        })
    }

    pub fn words(&self) -> u32
        ensures { result ≡ self.now.words }
    {
        self.table.word_count() as u32
    }

    /// Ends the sharing, with what a seat knows.
    pub fn close(self, seat: Seat<L>) -> Answers<L>
        requires table { seat.table ≡ self }
        ensures count { length result.answers ≡ self.words }
        ensures closer { result.closer ≡ seat.view }
    {
        let AnswerTable { table } = self;
        Answers::of(table, seat)
    }
}

impl<L: Listing> Drop for AnswerTable<L> {
    fn drop(self) {
        let Self { table: _ } = self;
    }
}
