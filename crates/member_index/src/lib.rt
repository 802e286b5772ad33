//! Where the members of classes stand, by names and descriptors: for each class the places of its
//! members in the order of their names, so that a search is a bisection. No text is copied, and
//! none is hashed.
#![tactic(auto)]

mod index;
mod key;
mod kind;
mod order;
mod range;

pub use index::MemberIndex;
