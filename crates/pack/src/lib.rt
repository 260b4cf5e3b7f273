// The record written to its buffer: whole, or where a call changed it.
#![tactic(auto)]

mod drive;
mod jobs;

ghost use Rattle.std.specs.Prelude.{◌≡◌, [], ◌+◌, ◌*◌, ◌≤◌, length};
ghost use Rattle.lent.specs.Layout.{phase_byte, head_bytes_of, plan_bytes, cursor_bytes, word_bytes, record_into};
ghost use Rattle.job.specs.Code.{assemble};
ghost use Rattle.pack.specs.Code.{laid_at, ReadsAs, changes};

use board::{Cursor, Job, Phase, Record, Stage};
use drive::lay_numbers;
pub use drive::{write_loaded, write_step};
use frame::BUFFER_LEN;
use job::records;
use job::records::Numbers;
pub use jobs::{begun, new_record};
use wire::Answer;

// The number of a phase in lent's layout (`phase_byte` in lent/Layout), as unpack's phase_in reads it and for the same reason no impl of From.
fn phase_byte(phase: Phase) -> u8
    ensures { result ≡ phase_byte phase }
{
    match phase {
        Phase::Unmounted => 0,
        Phase::Idle => 1,
        Phase::Busy(Stage::Wipe) => 2,
        Phase::Busy(Stage::Open) => 3,
        Phase::Busy(Stage::Copy) => 4,
        Phase::Busy(Stage::Seal) => 5,
        Phase::Busy(Stage::Drop) => 6,
        Phase::Busy(Stage::Append) => 7,
        Phase::Busy(Stage::Close) => 8,
    }
}

fn head_bytes(n: Numbers) -> [u8; lent::PLACES_AT]
    ensures { result ≡ head_bytes_of (assemble n [] [] []) }
{
    let rest = n.rest;
    let mut head = [0; lent::PLACES_AT];
    head[0] = phase_byte(n.phase);
    lay_words(&mut head, lent::LAST_AT, &[rest.last]);
    head[lent::BLOCK_AT] = rest.block;
    lay_words(&mut head, lent::END_AT, &[rest.end]);
    head[lent::BLOCKS_AT] = rest.blocks;
    lay_words(&mut head, lent::PENDING_AT, &rest.pending);
    head[lent::EDITION_AT] = rest.edition;
    head
}

// A job but for the blocks to erase.
fn plan_bytes(job: Job) -> [u8; lent::PLAN_SIZE]
    ensures { result ≡ plan_bytes job }
{
    let mut plan = [0; lent::PLAN_SIZE];
    plan[0] = job.wipes;
    plan[lent::MOVES_AT] = u8::from(job.moves);
    plan[lent::DROPS_AT] = u8::from(job.drops);
    plan[lent::TARGET_AT] = job.target;
    lay_at(&mut plan, lent::TIME_AT, &job.time.to_le_bytes());
    lay_words(&mut plan, lent::SINCE_AT, &job.since);
    plan[lent::APPEND_AT] = job.size;
    plan[lent::MAKES_AT] = job.edition;
    plan[lent::CLOSES_AT] = job.closes;
    lay_words(&mut plan, lent::CLOSE_AT, &job.close);
    plan
}

fn cursor_bytes(cursor: Cursor) -> [u8; lent::CURSOR_SIZE]
    ensures { result ≡ cursor_bytes cursor }
{
    let mut bytes = [0; lent::CURSOR_SIZE];
    bytes[0] = cursor.index;
    lay_words(
        &mut bytes,
        lent::MADE_AT,
        &[cursor.at, cursor.id, cursor.source],
    );
    bytes[lent::COPY_AT] = cursor.size;
    bytes[lent::OFF_AT] = cursor.off;
    bytes
}

// Lays a source over the bytes from a place on, where there are as many.
fn lay_at(bytes: &mut [u8], at: usize, source: &[u8])
    ensures { bytes.new ≡ laid_at at source.now bytes.old }
{
    if at <= bytes.len() {
        wire::lay(&mut bytes[at..], source);
    }
}

// Lays words over the bytes from a place on. A step of C's may write a record's places, so this loop tests nothing but its end: two
// stores, where a copy tests two lengths for each word.
fn lay_words(bytes: &mut [u8], at: usize, words: &[u16])
    requires { at + 2 * length words.now ≤ length bytes.old }
    ensures { bytes.new ≡ laid_at at (word_bytes words.now) bytes.old }
{
    for (i, word) in words.iter().enumerate() {
        let [low, high] = word.to_le_bytes();
        bytes[at + 2 * i] = low;
        bytes[at + 2 * i + 1] = high;
    }
}

// Writes a record's numbers and arrays to a buffer of exactly its size; any other buffer stays.
pub fn encode_parts(
    n: Numbers,
    places: &[u16; 256],
    unit: &[u8; BUFFER_LEN],
    frame: &[u8; BUFFER_LEN],
    bytes: &mut [u8],
)
    ensures bytes_after { bytes.new
        ≡ record_into (assemble n places.now unit.now frame.now) bytes.old }
    ensures back { ReadsAs bytes.old bytes.new
        (assemble n places.now unit.now frame.now) }
{
    if bytes.len() != lent::RECORD_SIZE {
        return;
    }
    lay_words(bytes, lent::PLACES_AT, places);
    lay_at(bytes, lent::UNIT_AT, unit);
    lay_at(bytes, lent::FRAME_AT, frame);
    lay_numbers(n, bytes);
}

// The same of a whole record.
pub fn encode(board: Record, bytes: &mut [u8])
    ensures { bytes.new ≡ record_into board bytes.old }
{
    encode_parts(
        records::numbers_of(board),
        &board.places,
        &board.unit,
        &board.frame,
        bytes,
    );
}

// Whether a step changed the record: a job began, went on or ended.
pub fn changes(phase: Phase, answer: Answer) -> bool
    ensures { result ≡ changes phase answer }
{
    match answer {
        Answer::Done => matches!(phase, Phase::Busy(_)),
        Answer::More => true,
        Answer::Refused(_) => false,
    }
}
