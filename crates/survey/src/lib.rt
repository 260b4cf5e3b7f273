// Reading a block: its header, its frames, and what replaying them gives.
#![tactic(auto)]

mod block;
mod header;
mod pass;

pub use block::{commit, survey_block};
use frame::{Edition, Fault};

// What the frames of a block come to, as far as they were read.
#[derive(Clone, Copy)]
pub(crate) struct Progress {
    // where the next frame stands, and the least id that it may have if it is settled
    pub end: u16,
    pub next: usize,
    // for each host the offset past its last commit or abort, or a reset, and its pending frames' bytes
    pub since: [u16; 4],
    pub pending: [u16; 4],
}

// The same, and the length of a torn frame after them.
#[derive(Clone, Copy)]
pub(crate) struct Walk {
    pub progress: Progress,
    pub torn: Option<usize>,
}

// Four states, the last with its fault: no Option or Result says them.
#[derive(Clone, Copy, PartialEq, Eq)]
pub enum BlockKind {
    Blank,
    InProgress,
    Valid,
    Foreign(Fault),
}

// The settled objects of a block: how many, and U.
#[derive(Clone, Copy)]
pub(crate) struct Tally {
    pub count: u16,
    pub used: u16,
}

// All that there is to know of a block; of one that isn't valid, its kind.
#[derive(Clone, Copy)]
pub struct Survey {
    pub kind: BlockKind,
    // the format's edition, of a block that isn't valid the first
    pub edition: Edition,
    pub time: u32,
    // where its whole frames end, and the length of a torn one after them, 0 for none: no frame has that length, and looks and store add it to `end`
    pub end: u16,
    pub torn: u16,
    // for each host the offset past its last commit or abort, or a reset, and its pending frames' bytes
    pub since: [u16; 4],
    pub pending: [u16; 4],
    // settled objects, and U
    pub count: u16,
    pub used: u16,
}
