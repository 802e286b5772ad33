//! What a client finds in classes (JVMS 5.4.3, 5.4.4): a world of descriptions, and the questions
//! that it answers. A question takes no memory and leaves the world as it is.
#![tactic(auto)]

mod asked;
mod flags;
mod members;
mod numbers;
mod package;
mod refusal;
mod refused;
mod reply;
mod sought;
mod superinterfaces;
mod world;

pub use asked::{Client, Part};
pub use refused::ViewErr;
pub use reply::{MemberAt, Reply};
pub use world::ClientWorld;
