// What is found out about an image: mounts, formats and requests begin with it.
#![tactic(auto)]

pub mod image;
pub mod lists;
mod looks;
pub mod surveys;

pub use looks::{Newest, Seen, look};
