//! The text of `ask`: the line that answers a question, and the answer for which a reply stands.
#![tactic(auto)]

mod answer;
mod asking;
mod declared;
mod line;
mod parts;
mod replies;

pub use answer::{Answer, Finding};
pub use asking::ask_line;
pub use line::answer_line;
