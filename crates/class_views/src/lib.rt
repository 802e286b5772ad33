//! What clients see of classes, and what they find: views of descriptions, what stripping leaves
//! of them; worlds of views, supertypes, resolution (JVMS 5.4.3) and membership (JLS 8.2). Here
//! are the definitions and their laws; no code stands here yet.
#![tactic(auto)]

mod member_laws;
mod stripping;
mod supertype_laws;

pub use member_laws::{members_are_apart, members_come_from_supertypes, members_come_in_one_step};
pub use stripping::{
    kept_classes_are_least, staying_entries_are_least, strip_shows_the_stripped_view,
    stripped_is_valid, valid_has_one_of_a_kind,
};
pub use supertype_laws::{
    chains_are_steady, folds_are_alike, folds_settle, walks_come_from_supertypes,
};
