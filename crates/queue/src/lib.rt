// The queue in code: requests and reads, each equal to its definition, on every input.
// A call's parts (image and blocks, phase and rest, host and message) come one by one: README names these functions so, and C hands each over apart.
#![tactic(auto)]

mod gate;
mod held;
mod reads;
mod requests;

pub use reads::{Stretch, find, locate, read};
pub use requests::{request, request_core};
