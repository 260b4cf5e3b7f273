// The board's types: what a record holds.
#![tactic(auto)]

use flash::MAX_BLOCKS;
use frame::BUFFER_LEN;
use wire::Refusal;

// The stages of a job. After Wipe comes a block made, Open to Drop, or a torn frame closed, Close; Append is the last. A stage with nothing to do
// is passed over.
#[derive(Clone, Copy, PartialEq, Eq)]
pub enum Stage {
    Wipe,
    Open,
    Copy,
    Seal,
    Drop,
    Append,
    Close,
}

#[derive(Clone, Copy, PartialEq, Eq)]
pub enum Phase {
    Unmounted,
    Idle,
    Busy(Stage),
}

// What a job is to do; it stays as it is while the job runs. Numbers, flags and counts, since a lent record of any content is some
// record (`lent/Layout: record_in`); pack and unpack lay the fields out. Arrays have their count beside them: the record is fixed
// memory, and Copy.
#[derive(Clone, Copy, Default, PartialEq, Eq)]
pub struct Job {
    // blocks to erase first, and how many of them
    pub wipe: [u8; MAX_BLOCKS],
    pub wipes: u8,
    // a block is made, and the one it is made from erased
    pub moves: bool,
    pub drops: bool,
    pub target: u8,
    pub time: u32,
    // the offset past each host's last commit or abort, or a reset
    pub since: [u16; 4],
    // the length of the frame to append, 0 for none
    pub size: u8,
    // the edition of the block that is made, by its number
    pub edition: u8,
    // how many bytes close a torn frame, and their offsets
    pub closes: u8,
    pub close: [u16; 4],
}

// How far a job has come.
#[derive(Clone, Copy, Default, PartialEq, Eq)]
pub struct Cursor {
    // the step of the stage, but for Copy
    pub index: u8,
    // the next offset of the block that is made
    pub at: u16,
    // the next id to copy, then the next offset to look at for pending frames
    pub id: u16,
    pub source: u16,
    // the length of the frame that is copied, and its next byte
    pub size: u8,
    pub off: u8,
}

// Where a record stands, in a job or not: a further field of a record in no job goes here. Numbers, likewise: any may stand there.
#[derive(Clone, Copy, PartialEq, Eq)]
pub struct Rest {
    // how many blocks the image has, and its length less one
    pub blocks: u8,
    pub last: u16,
    // the current block, and where its whole frames end
    pub block: u8,
    pub end: u16,
    // each host's pending bytes; in a job, what they will be at its end
    pub pending: [u16; 4],
    // the current block's edition, by its number; 0 in an unmounted record
    pub edition: u8,
}

// The board record.
#[derive(Clone, Copy, PartialEq, Eq)]
pub struct Record {
    pub phase: Phase,
    pub rest: Rest,
    // for every id the offset of its settled value's frame, 0 for none; only while a job runs
    pub places: [u16; 256],
    pub job: Job,
    pub cursor: Cursor,
    // the frame that is copied, and the frame to append
    pub unit: [u8; BUFFER_LEN],
    pub frame: [u8; BUFFER_LEN],
}

// What a job's next flash step is: a byte to program at an offset of the image, or from an offset on so many bytes to erase; none;
// or the refusal that a step call would get.
#[derive(Clone, Copy, PartialEq, Eq)]
pub enum Next {
    Program(usize, u8),
    Erase(usize, usize),
    Nothing,
    Refused(Refusal),
}
