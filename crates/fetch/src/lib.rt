// Values by their places, and the frames that a transfer copies.
#![tactic(auto)]

ghost use Rattle.std.specs.Prelude.{◌≡◌, List, ℕ, ◌-◌, ◌<◌, length, drop};
ghost use Rattle.journal.specs.Index.{value_at, next_settled, next_pending, next_load_of};
ghost use Rattle.fetch.specs.Fetch.{found_of, fetched_of};
ghost use Rattle.fetch.specs.Fetch.{value_head, pending_head};

mod hosts;

use frame::{Edition, FrameRead, Head, ObjectId, PUT_VALUE_AT, SETTLED_VALUE_AT};
pub use hosts::{of_host, with_host};

// Where in a block a value starts, and how many bytes it has.
#[derive(Clone, Copy)]
pub struct Found {
    pub at: usize,
    pub size: u8,
}

// A frame to copy: its head, where its value starts in the block, and the cursor after it.
#[derive(Clone, Copy)]
pub struct Fetch {
    pub head: Head,
    pub value: usize,
    pub id: u16,
    pub source: u16,
}

// The value of an id in a frame.
#[tactic(auto, unfolding(crate::specs::Fetch::value_head))]
fn value_in(id: ObjectId, place: u16, head: Head) -> Option<Found>
    ensures { result ≡ value_head id place head }
{
    match head {
        Head::Put(_, i, size) if i == id => Some(Found {
            at: usize::from(place) + PUT_VALUE_AT,
            size,
        }),
        Head::Settled(i, size) if i == id => Some(Found {
            at: usize::from(place) + SETTLED_VALUE_AT,
            size,
        }),
        _ => None,
    }
}

// The value of an id at a place of a block; place 0 is none.
pub fn value_at(block: &[u8], edition: Edition, id: ObjectId, place: u16) -> Option<Found>
    ensures { result ≡ found_of (value_at edition block.now id place) }
{
    if place == 0 {
        return None;
    }
    match reader::read_frame(block, edition, place as usize, 0) {
        FrameRead::Whole(head) => value_in(id, place, head),
        _ => None,
    }
}

// The settled frame of the first id from `id` on whose place holds its value.
fn next_settled(
    block: &[u8],
    edition: Edition,
    places: &[u16; 256],
    id: u16,
    source: u16,
) -> Option<Fetch>
    ensures { result ≡ fetched_of edition block.now places.now
        (next_settled edition block.now places.now source (256 - id) id) }
{
    for i in id..256 {
        if let Some(found) = value_at(block, edition, ObjectId(i), places[i as usize]) {
            return Some(Fetch {
                head: Head::Settled(ObjectId(i), found.size),
                value: found.at,
                id: i + 1,
                source,
            });
        }
    }
    None
}

// The frame is a put or delete at or past its host's `since`.
#[tactic(auto, unfolding(crate::specs::Fetch::pending_head))]
fn is_pending(since: [u16; 4], at: usize, head: Head) -> bool
    ensures { result ≡ pending_head since at head }
{
    match head {
        Head::Put(host, _, _) | Head::Delete(host, _) => hosts::of_host(since, host) as usize <= at,
        _ => false,
    }
}

// The first pending frame of a journal that starts at `source`, wherever its settled values stand; an offset past it must fit a u16.
fn next_pending(part: &[u8], edition: Edition, since: [u16; 4], source: u16) -> Option<Fetch>
    requires { length part.now < 65536 }
    ensures { (b places : List ℕ) → result ≡ fetched_of edition b places (next_pending edition since source 0 (drop source part.now)) }
{
    let mut at = source as usize;
    // a frame's length at a time, as far as frames are whole: no iterator of std does
    while let FrameRead::Whole(head) = reader::read_frame(part, edition, at, 0) {
        let next = at + frame::frame_len(edition, head);
        if is_pending(since, at, head) {
            return Some(Fetch {
                head,
                value: at + frame::value_offset(head),
                id: 256,
                source: next as u16,
            });
        }
        at = next;
    }
    None
}

// The next frame that a transfer of a block writes, whose whole frames run to `end`.
pub fn next_load(
    block: &[u8],
    edition: Edition,
    end: u16,
    places: &[u16; 256],
    since: [u16; 4],
    id: u16,
    source: u16,
) -> Option<Fetch>
    ensures { result ≡ fetched_of edition block.now places.now
        (next_load_of edition block.now end places.now since id source) }
{
    next_settled(block, edition, places, id, source).or_else(|| next_pending(
        flash::front(block, end as usize),
        edition,
        since,
        source,
    ))
}
