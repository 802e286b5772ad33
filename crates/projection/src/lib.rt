//! Projection: what clients find survives in a world that shows less. Here are the definitions
//! and the laws, over views alone; no code.
#![tactic(auto)]

mod laws;

pub use laws::{
    membership_survives, resolution_survives, stripping_keeps_answers, stripping_shows_less,
};
