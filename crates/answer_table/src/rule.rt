//! The rule that every step keeps, and the kinds of step.
use crate::listing::Listing;
use crate::view::View;
use atomic_table::{Join, Play, Split, TableRule};
use std::marker::PhantomData;

// Each word is empty or holds its listed answer.
pub(crate) struct EmptyOrListed<L: Listing> {
    pub(crate) of: PhantomData<L>,
}

impl<L: Listing> TableRule<u64, View, ()> for EmptyOrListed<L> {
    ghost use Rattle.answer_table.specs.Rule.{IsKept};
    ghost use Rattle.answer_table.specs.Views.{newcomer};

    ghost holds = { λ _ s. IsKept L.listed s.words s.views };

    ghost first = { λ _. newcomer };
}

// A load, noted by the view.
pub(crate) struct Loading<L: Listing> {
    pub(crate) of: PhantomData<L>,
}

impl<L: Listing> Play<u64, View> for Loading<L> {
    ghost use Rattle.answer_table.specs.Rule.{Loads};

    ghost then = { Loads L.listed };
}

// One compare-and-exchange from empty.
pub(crate) struct Publishing;

impl Play<u64, View> for Publishing {
    ghost use Rattle.answer_table.specs.Rule.{Publishes};

    ghost then = { Publishes };
}

// Both seats know what the one knew.
pub(crate) struct Splitting;

impl Split<View> for Splitting {
    ghost left = { λ v. v };

    ghost right = { λ v. v };
}

// The seat that stays knows what both knew.
pub(crate) struct Joining;

impl Join<View> for Joining {
    ghost use Rattle.answer_table.specs.Views.{joined, newcomer};

    ghost both = { joined };

    ghost spent = { newcomer };
}
