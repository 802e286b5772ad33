//! Productions of the grammar as values in `specs/`, one law for each way of making them in
//! `proofs/`, and the readers that every production shares.
#![tactic(auto)]

mod annotated;
mod comes;
mod item;
mod laws;
mod tokens;

pub use annotated::{OneAnnotation, annotation_row, typed};
pub use comes::{annotation_comes, keyword_comes, non_sealed_comes, sealed_comes, word_comes};
pub use item::{Item, in_parentheses, row, separated};
pub use laws::{
    annotations_are_read, bare_types_are_read, dimensions_are_read, names_are_read, types_are_read,
    types_before_dots_are_read, values_are_read,
};
pub use tokens::{angle, semicolon, sign_on_line, skipped_group, the_word, word_on_line};
