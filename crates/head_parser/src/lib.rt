//! Heads of declarations, each line of the grammar as a production: packages and imports,
//! modifiers, type parameters and formal parameters, what is thrown, the five kinds of
//! declarations of types, methods and constructors.
//!
//! A reader takes the tokens from the front, and says `NotSpelled` where its item isn't there;
//! then it has moved anywhere. `depth` is how many items may stand in each other or in a row:
//! there are no more than tokens and closing angles.
#![tactic(auto)]

mod formal;
mod head;
mod laws;
mod method;
mod modifier;
mod types;
mod units;

pub use formal::{
    FormalEnd, OneComponent, OneFormal, annotated, components, formals, with_more_dims,
};
pub use head::{Declared, Head, read_head};
pub use laws::{
    bounds_are_read, compact_constructors_are_read, components_are_read, constructors_are_read,
    formals_are_read, heads_are_read, imports_are_read, initialisers_are_read, methods_are_read,
    modifiers_are_read, packages_are_read, type_parameters_are_read, types_thrown_are_read,
};
pub use method::{compact_constructor, constructor, initialiser_block, method as read_method};
pub use modifier::{OneModifier, modifiers};
pub use types::{
    NamedType, OneTypeParam, bounds, implemented, permitted, superclass, superinterfaces, throws,
    type_params,
};
pub use units::{import, package};
