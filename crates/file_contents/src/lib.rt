//! What the used files hold: classes and modules, or why they can't be told.
#![tactic(auto)]

mod found;
mod items;
mod limits;
mod read;
mod twice;

pub use found::diagnostic;
pub use items::{Content, Item};
pub use limits::{LIMITS, Limits};
pub use read::{read_items, stop_at};
pub use twice::declared_twice;
