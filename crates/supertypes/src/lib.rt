//! Supertypes by number: which classes lie in rings, the first class of a walk, and what lies
//! above. A graph is a list for each class: the numbers of its supertypes that are there, in the
//! order of a walk. Numbers beyond the graph stand for no class.
#![tactic(auto)]

mod rings;
mod search;
mod state;
mod walks;

pub use rings::least_rings;
pub use search::Search;
pub use walks::walks_come_from_supertypes;
