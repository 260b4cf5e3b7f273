// The board record lent as bytes, for the edge to C. Here is where each field stands: right after the one before it.
#![tactic(auto)]

use flash::MAX_BLOCKS;
use frame::BUFFER_LEN;

// ---- the record

pub const LAST_AT: usize = 1;

pub const BLOCK_AT: usize = LAST_AT + 2;

pub const END_AT: usize = BLOCK_AT + 1;

pub const BLOCKS_AT: usize = END_AT + 2;

pub const PENDING_AT: usize = BLOCKS_AT + 1;

pub const EDITION_AT: usize = PENDING_AT + 2 * 4;

pub const PLACES_AT: usize = EDITION_AT + 1;

pub const PLACES_SIZE: usize = 2 * 256;

pub const JOB_AT: usize = PLACES_AT + PLACES_SIZE;

pub const PLAN_AT: usize = JOB_AT + MAX_BLOCKS;

pub const CURSOR_AT: usize = PLAN_AT + PLAN_SIZE;

pub const UNIT_AT: usize = CURSOR_AT + CURSOR_SIZE;

pub const FRAME_AT: usize = UNIT_AT + BUFFER_LEN;

pub const RECORD_SIZE: usize = FRAME_AT + BUFFER_LEN;

// ---- the job's plan, which is what follows its blocks to erase

pub const MOVES_AT: usize = 1;

pub const DROPS_AT: usize = MOVES_AT + 1;

pub const TARGET_AT: usize = DROPS_AT + 1;

pub const TIME_AT: usize = TARGET_AT + 1;

pub const SINCE_AT: usize = TIME_AT + 4;

pub const APPEND_AT: usize = SINCE_AT + 2 * 4;

pub const MAKES_AT: usize = APPEND_AT + 1;

pub const CLOSES_AT: usize = MAKES_AT + 1;

pub const CLOSE_AT: usize = CLOSES_AT + 1;

pub const PLAN_SIZE: usize = CLOSE_AT + 2 * 4;

// ---- the cursor

pub const MADE_AT: usize = 1;

pub const ID_AT: usize = MADE_AT + 2;

pub const SOURCE_AT: usize = ID_AT + 2;

pub const COPY_AT: usize = SOURCE_AT + 2;

pub const OFF_AT: usize = COPY_AT + 1;

pub const CURSOR_SIZE: usize = OFF_AT + 1;
