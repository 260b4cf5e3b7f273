// What the library for C does inside its calls: the record as bytes, a flash step in numbers. An answer is a `u8` in this crate since it is
// C's number, as include/grommetide.h lists them.
#![tactic(auto)]

mod next;
mod steps;

pub use next::{Telling, tell};
pub use steps::{go_on, step_numbers};

// The answer to a record buffer of another size. C lends a slice of any length, and each call says what it answers to any: so the length is
// tested in each, and the record is no array of that size.
pub const WRONG_RECORD: u8 = 254;
