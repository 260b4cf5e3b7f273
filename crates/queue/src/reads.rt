// Reads: where a settled value stands in the caller's own image.
ghost use Rattle.std.specs.Prelude.{◌≡◌, [], ◌+◌, ◌≤◌, IfOk, length, take, drop};
ghost use Rattle.board.specs.Record as outcome;
ghost use Rattle.board.specs.Queue.{asking, read_on};
ghost use Rattle.board.specs.declared.Record.{Record};
ghost use Rattle.job.specs.Code.{placed};
ghost use Rattle.queue.specs.Calls.{place_in, located_in, heard_in, Finds};

use crate::gate;
use board::{Phase, Record, Rest};
use flash::Shape;
use frame::{Edition, Host, ObjectId};
use looks::image::Image;
use wire::Refusal;

// A stretch of the image; the default is empty.
#[derive(Clone, Copy, Default)]
pub struct Stretch {
    pub at: usize,
    pub size: usize,
}

// The value of an id by its place: one frame is looked at.
#[tactic(auto, unfolding(crate::specs::Calls::located_in))]
fn at_place(image: &Image<'_>, rest: Rest, place: u16, id: ObjectId) -> Result<Stretch, Refusal>
    ensures by_place { result ≡ located_in image.now.blocks image.now.bytes.now rest place id }
    ensures inside { IfOk result (λ s. s.at + s.size ≤ length image.now.bytes.now) }
{
    if !job::same_shape(Shape::of(image.bytes, image.blocks), rest) {
        return Err(Refusal::Stale);
    }
    if place == 0 {
        return Err(Refusal::NoObject);
    }
    let block = image.block(rest.block);
    let edition = Edition::from(rest.edition);
    let found = fetch::value_at(block, edition, id, place).ok_or(Refusal::Stale)?;
    Ok(Stretch {
        at: usize::from(rest.block) * image.size() + found.at,
        size: usize::from(found.size),
    })
}

// A message of a read's kind, with the place of the id in it.
pub fn hear(image: &Image<'_>, rest: Rest, place: u16, message: &[u8]) -> Result<Stretch, Refusal>
    ensures by_place { result ≡ heard_in image.now.blocks image.now.bytes.now rest place message.now }
    ensures inside { IfOk result (λ s. s.at + s.size ≤ length image.now.bytes.now) }
{
    wire::parse(message).ok_or(Refusal::Malformed)?;
    at_place(image, rest, place, wire::id_in(message))
}

// A read by where the record stands and the place of the id asked. A message of another kind is malformed.
pub fn find(
    image: &[u8],
    blocks: u8,
    phase: Phase,
    rest: Rest,
    place: u16,
    host: Host,
    message: &[u8],
) -> Result<Stretch, Refusal>
    ensures { (b : Record) → place ≡ place_in b.places message.now
        → Finds (asking blocks image.now (placed phase rest b) host message.now []) result }
{
    let image = gate::check(image, blocks, phase, host)?;
    if !wire::is_read_kind(message) {
        return Err(Refusal::Malformed);
    }
    hear(&image, rest, place, message)
}

// Where a read's value stands, and its size: both 0 where it is refused.
pub fn locate(image: &[u8], blocks: u8, board: Record, host: Host, message: &[u8]) -> Stretch
    ensures { (let s : outcome.Stretch = read_on blocks image.now board host message.now in
        (result.at ≡ s.at) × (result.size ≡ s.size) × (result.at + result.size ≤ length image.now)) }
{
    let place = serving::place_of(&board.places, wire::id_in(message));
    find(image, blocks, board.phase, board.rest, place, host, message).unwrap_or_default()
}

// The stretch of the image that a read hands back, empty where it is refused.
pub fn read<'a>(image: &'a [u8], blocks: u8, board: Record, host: Host, message: &[u8]) -> &'a [u8]
    ensures value { (let s : outcome.Stretch = read_on blocks image.now board host message.now in
        result.now ≡ take s.size (drop s.at image.now)) }
    ensures place { (result.ref_ptr.0 ≡ image.entry.ref_ptr.0)
        × (result.ref_ptr.1 ≡ (read_on blocks image.now board host message.now).at + image.entry.ref_ptr.1) }
{
    let Stretch { at, size } = locate(image, blocks, board, host, message);
    &image[at..at + size]
}
