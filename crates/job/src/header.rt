// Numbers of the steps: how many writes open and seal a block, and where in its header they go.
use frame::KIND_AT;
use journal::HEADER_LEN;

pub const OPENING: u8 = 5;

pub const SEALING: u8 = 5;

pub const LENGTH: u8 = HEADER_LEN as u8;

pub const KIND_HIGH_AT: usize = KIND_AT + 1;
