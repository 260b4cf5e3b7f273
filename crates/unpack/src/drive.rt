// What a step needs of a record's bytes: its numbers, and of its arrays what it looks at.
#![tactic(auto, unfolding(lent::specs::Layout::record_in))]

ghost use Rattle.std.specs.Prelude.{◌≡◌, drop, get_or};
ghost use Rattle.frame.specs.Frame.{buffer_len};
ghost use Rattle.job.specs.Code.{numbers_of, in_hand};
ghost use Rattle.lent.specs.Layout.{bytes_in, words_in, record_in};

use crate::{bytes_in, cursor_in, job_in, phase_of, rest_of, word_in};
use board::{Phase, Stage};
use flash::{byte_at, front, rest};
use frame::BUFFER_LEN;
use job::records::Numbers;

// The record's numbers.
pub fn numbers(bytes: &[u8]) -> Numbers
    ensures { result ≡ numbers_of (record_in bytes.now) }
{
    Numbers {
        phase: phase_of(bytes),
        rest: rest_of(bytes),
        job: job_in(rest(bytes, lent::JOB_AT)),
        cursor: cursor_in(rest(bytes, lent::CURSOR_AT)),
    }
}

// The places.
pub fn places(bytes: &[u8]) -> [u16; 256]
    ensures { result ≡ (record_in bytes.now).places }
{
    let mut places = [0; 256];
    read_places(bytes, &mut places);
    places
}

// An inner part of the C library: the places into an array that is lent. By value they would stand on the stack twice.
pub fn read_places(bytes: &[u8], places: &mut [u16; 256])
    ensures { places.new ≡ (record_in bytes.now).places }
{
    fill_places(rest(bytes, lent::PLACES_AT), places);
}

// A step of C's decodes a record, so this loop tests nothing but its end.
fn fill_places(bytes: &[u8], places: &mut [u16; 256])
    ensures { places.new ≡ words_in 256 bytes.now }
{
    if bytes.len() < lent::PLACES_SIZE {
        places_short(bytes, places);
        return;
    }
    for (i, place) in places.iter_mut().enumerate() {
        *place = u16::from_le_bytes([bytes[2 * i], bytes[2 * i + 1]]);
    }
}

// The same where the bytes may end among them, word by word.
fn places_short(bytes: &[u8], places: &mut [u16; 256])
    ensures { places.new ≡ words_in 256 bytes.now }
{
    for (i, place) in places.iter_mut().enumerate() {
        *place = word_in(bytes, 2 * i);
    }
}

// The frame that is copied and the frame to append, and a byte of each: two of a kind in one line each, since README names `unit` and
// `append` for callers.
pub fn unit(bytes: &[u8]) -> [u8; BUFFER_LEN]
    ensures { result ≡ (record_in bytes.now).unit }
{
    bytes_in(rest(bytes, lent::UNIT_AT))
}

pub fn append(bytes: &[u8]) -> [u8; BUFFER_LEN]
    ensures { result ≡ (record_in bytes.now).frame }
{
    bytes_in(rest(bytes, lent::FRAME_AT))
}

// A byte of a frame buffer that starts at a place.
fn frame_byte(bytes: &[u8], at: usize, i: usize) -> u8
    ensures { result ≡ get_or (bytes_in buffer_len (drop at bytes.now)) i 0 }
{
    byte_at(front(rest(bytes, at), BUFFER_LEN), i)
}

pub fn unit_byte(bytes: &[u8], i: usize) -> u8
    ensures { result ≡ get_or (record_in bytes.now).unit i 0 }
{
    frame_byte(bytes, lent::UNIT_AT, i)
}

pub fn append_byte(bytes: &[u8], i: usize) -> u8
    ensures { result ≡ get_or (record_in bytes.now).frame i 0 }
{
    frame_byte(bytes, lent::FRAME_AT, i)
}

// The byte that the next step programs. `job::in_hand` says the same of the arrays of a record; here are bytes, of which it reads one.
pub fn in_hand(n: Numbers, bytes: &[u8]) -> u8
    ensures { result ≡ in_hand n (record_in bytes.now).unit (record_in bytes.now).frame }
{
    match n.phase {
        Phase::Busy(Stage::Copy) => unit_byte(bytes, usize::from(n.cursor.off)),
        Phase::Busy(Stage::Append) => append_byte(bytes, usize::from(n.cursor.index)),
        _ => 0,
    }
}
