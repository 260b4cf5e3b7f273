// The record from bytes: every content of every length is some record.
#![tactic(auto)]

mod drive;
mod head;

ghost use Rattle.std.specs.Prelude.{◌≡◌};
ghost use Rattle.wire.specs.Message.{word_at};
ghost use Rattle.lent.specs.Layout.{phase_in, bytes_in, words_in, number_in, job_in, cursor_in, record_in};

use board::{Cursor, Job, Phase, Record, Stage};
pub use drive::{append, append_byte, in_hand, numbers, places, read_places, unit, unit_byte};
use flash::{MAX_BLOCKS, byte_at, front, rest};
pub use head::{phase_of, place_of, rest_of};
use job::records;

// The word at a place. It isn't wire's word_at, which counts by u8: a message is short, and a record's words lie further on.
pub fn word_in(bytes: &[u8], at: usize) -> u16
    ensures { result ≡ word_at bytes.now at }
{
    let bytes = rest(bytes, at);
    u16::from_le_bytes([byte_at(bytes, 0), byte_at(bytes, 1)])
}

// The number that four bytes are. The list stands here since any of them may lie past the end, and `from_le_bytes` takes four that are there.
fn number_in(bytes: &[u8]) -> u32
    ensures { result ≡ number_in bytes.now }
{
    u32::from_le_bytes([
        byte_at(bytes, 0),
        byte_at(bytes, 1),
        byte_at(bytes, 2),
        byte_at(bytes, 3),
    ])
}

// Four words.
#[tactic(auto, unfolding(lent::specs::Layout::words_in))]
fn four_in(bytes: &[u8]) -> [u16; 4]
    ensures { result ≡ words_in 4 bytes.now }
{
    [
        word_in(bytes, 0),
        word_in(bytes, 2),
        word_in(bytes, 4),
        word_in(bytes, 6),
    ]
}

// So many bytes, zeros past the end.
fn bytes_in<const N: usize>(bytes: &[u8]) -> [u8; N]
    ensures { result ≡ bytes_in N bytes.now }
{
    let mut array = [0; N];
    wire::lay(&mut array, front(bytes, N));
    array
}

// The phase of a number. The numbers are lent's layout (`phase_in` in lent/Layout), a crate above board's, whose phases these are: so no impl
// of From can stand with either type, neither of this nor of pack's phase_byte.
fn phase_in(number: u8) -> Phase
    ensures { result ≡ phase_in number }
{
    match number {
        1 => Phase::Idle,
        2 => Phase::Busy(Stage::Wipe),
        3 => Phase::Busy(Stage::Open),
        4 => Phase::Busy(Stage::Copy),
        5 => Phase::Busy(Stage::Seal),
        6 => Phase::Busy(Stage::Drop),
        7 => Phase::Busy(Stage::Append),
        8 => Phase::Busy(Stage::Close),
        _ => Phase::Unmounted,
    }
}

fn job_in(bytes: &[u8]) -> Job
    ensures { result ≡ job_in bytes.now }
{
    let plan = rest(bytes, MAX_BLOCKS);
    Job {
        wipe: bytes_in(bytes),
        wipes: byte_at(plan, 0),
        moves: byte_at(plan, lent::MOVES_AT) != 0,
        drops: byte_at(plan, lent::DROPS_AT) != 0,
        target: byte_at(plan, lent::TARGET_AT),
        time: number_in(rest(plan, lent::TIME_AT)),
        since: four_in(rest(plan, lent::SINCE_AT)),
        size: byte_at(plan, lent::APPEND_AT),
        edition: byte_at(plan, lent::MAKES_AT),
        closes: byte_at(plan, lent::CLOSES_AT),
        close: four_in(rest(plan, lent::CLOSE_AT)),
    }
}

fn cursor_in(bytes: &[u8]) -> Cursor
    ensures { result ≡ cursor_in bytes.now }
{
    Cursor {
        index: byte_at(bytes, 0),
        at: word_in(bytes, lent::MADE_AT),
        id: word_in(bytes, lent::ID_AT),
        source: word_in(bytes, lent::SOURCE_AT),
        size: byte_at(bytes, lent::COPY_AT),
        off: byte_at(bytes, lent::OFF_AT),
    }
}

// The record that the bytes hold.
pub fn decode(bytes: &[u8]) -> Record
    ensures { result ≡ record_in bytes.now }
{
    records::assemble(numbers(bytes), places(bytes), unit(bytes), append(bytes))
}
