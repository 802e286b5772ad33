//! Declarations cut from tokens, bodies skipped.
#![tactic(auto)]

mod bracket;
mod class_head;
mod cut;
mod cutter;
mod error;
mod laws;
mod level;
mod segment;
mod words;

pub use cut::segments;
pub use error::SegErr;
pub use laws::{ends_by_segments, pairs_where_no_line_is_wrong};
pub use segment::{SegEnd, Segment};
