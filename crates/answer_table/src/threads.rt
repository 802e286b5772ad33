//! Which values workers may share, and which they may hand over.
//!
//! A seat is handed over, never shared. `Answers` stay with the thread that closed the table.
ghost use Rattle.std.specs.Thread.{IsSend};

use crate::listing::Listing;
use crate::seat::Seat;
use crate::table::{AnswerTable, Started};
use hdr_core::crosses_threads;

fn hands_over<T: Send>() {
    is_handed_over::<T>();
}

fn is_handed_over<T: Send>()
    requires { IsSend T.row }
{}

fn values_cross<L: Listing + Send + Sync>() {
    crosses_threads::<AnswerTable<L>>();
    hands_over::<Seat<L>>();
    hands_over::<Started<L>>();
}
