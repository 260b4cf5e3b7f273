#![tactic(auto)]

// The journal of a block: the offsets and states of its header. What the frames after it mean is in specs/.
// A block's header: its length, the offsets of creation time, state byte and spare bytes, and two of the states.
pub const HEADER_LEN: usize = 16;

pub const TIME_AT: usize = 4;

pub const STATE_AT: usize = 8;

pub const SPARE_AT: usize = 9;

pub const IN_TRANSFER: u8 = 254;

pub const VALID_DATA: u8 = 252;

// The longest block: its offsets fit a u16.
pub const BLOCK_MAX: usize = 32768;
