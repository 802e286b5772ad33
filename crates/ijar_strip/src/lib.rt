//! What remains of classes for their clients: no private members, no class initialisers, no local
//! classes, and of InnerClasses (JVMS 4.7.6) what tells of the rest.
#![tactic(auto)]

mod attributes;
mod entries;
mod kept;
mod links;
mod marked;
mod members;
mod names;
mod places;
mod stripping;

pub use stripping::{into_all_stripped, into_stripped, strip, strip_all};
