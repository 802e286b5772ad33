//! Answers that threads share.
//!
//! A row of words, each empty or holding the one answer that a list has for it. The list is seen
//! by contracts alone: whoever knows an answer publishes it, and whoever finds one finds that of
//! the list, whatever the threads did. No call waits, and none but [`AnswerTable::start`] takes
//! memory.
#![tactic(auto)]

mod answers;
mod listing;
mod rule;
mod seat;
mod table;
mod threads;
mod view;

pub use answers::Answers;
pub use listing::Listing;
pub use seat::Seat;
pub use table::{AnswerTable, Started};
pub use view::{Load, View};
