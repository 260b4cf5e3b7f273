// A job of the board: the records that it goes through, and its steps.
#![tactic(auto)]

mod actions;
mod header;
mod moves;
mod placing;
pub mod records;
mod steps;

pub use actions::{Action, act, next_action, place_in, same_shape};
use board::Record;
pub use moves::Moved;
pub use placing::committer;
pub use steps::{enter_copy, in_hand, load_due, made_of, step, step_core, try_step};
use wire::Answer;

// What a call gives back: its answer and the board record.
#[derive(Clone, Copy)]
pub struct Outcome {
    pub answer: Answer,
    pub board: Record,
}
