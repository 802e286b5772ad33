//! Types, annotations and constant expressions, from tokens.
//!
//! A reader takes the tokens from the front, and says `NotSpelled` where its item isn't there;
//! then it has moved anywhere. `depth` is how many items may stand in each other: there are no
//! more than tokens and closing angles.
#![tactic(auto)]

mod annotation;
mod calls;
mod error;
mod expression;
mod laws;
mod literal;
mod looseness;
mod name;
mod parsed;
mod place;
mod threads;
mod tokens;
mod types;

pub use annotation::{annotation as read_annotation, pass_annotations, value as read_value};
pub use calls::{annotation_of, const_expr_of, type_of};
pub use error::{ExprErr, Unread};
pub use expression::expression as read_expression;
pub use java_grammar::initialiser_extent;
pub use laws::{
    annotations_are_read, bare_types_are_read, dimensions_are_read, expressions_are_read,
    types_are_read, values_are_read,
};
pub use name::{qualified_name, with_dims};
pub use parsed::Parsed;
pub use tokens::{comes, front_line, passes, sign, token, word};
pub use types::{any_type as read_type, bare_type as read_bare_type, dimensions};
