// Flash that the caller drives: a job's next step told, and made; and many steps in one call.
#![tactic(auto)]

mod bursts;
mod calls;
mod runs;

pub use calls::{made, next, next_of};
pub use runs::{Driven, Ran, run, run_core};
