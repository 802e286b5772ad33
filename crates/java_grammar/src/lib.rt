//! The grammar of Java declarations: what a token is to it, the extents of initialisers, the
//! counts that bound nesting, and in `specs/` which tokens and segments spell which trees.
#![tactic(auto)]

mod brackets;
mod counts;
mod edge;
mod extent;
mod laws;
mod modifier;
mod part;
mod part_of;
mod reader;
mod sign;
mod tests;
mod type_arguments;
mod types;

pub use brackets::partner;
pub use counts::{MOST_COUNTED, MOST_NESTED, expression_fits, head_fits, is_plain, tokens_fit};
pub use edge::Edge;
pub use extent::initialiser_extent;
pub use laws::fronts_are_spelled;
pub use modifier::Modifier;
pub use part::{ModifierWord, Pair, Part};
pub use reader::Reader;
pub use sign::Sign;
