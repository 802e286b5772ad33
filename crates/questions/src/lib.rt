//! What the words behind `ask` ask for: questions about classes, each an option and its value, and
//! who asks them.
#![tactic(auto)]

mod ask;
mod form;
mod kind;
mod query;
mod question;

pub use ask::{Ask, ask_of};
pub use form::{Form, MOST_SLOTS};
pub use kind::Kind;
pub use query::{MemberRef, NamedField, Part, Query};
pub use question::Question;
