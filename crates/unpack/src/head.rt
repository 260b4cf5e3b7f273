// Where a record stands, and the place of one id: all that a read looks at.
#![tactic(auto, unfolding(lent::specs::Layout::record_in))]

ghost use Rattle.std.specs.Prelude.{◌≡◌, get_or};
ghost use Rattle.lent.specs.Layout.{record_in};

use crate::{four_in, phase_in, word_in};
use board::{Phase, Rest};
use flash::{byte_at, rest};
use frame::ObjectId;

pub fn phase_of(bytes: &[u8]) -> Phase
    ensures { result ≡ (record_in bytes.now).phase }
{
    phase_in(byte_at(bytes, 0))
}

pub fn rest_of(bytes: &[u8]) -> Rest
    ensures { result ≡ (record_in bytes.now).rest }
{
    Rest {
        blocks: byte_at(bytes, lent::BLOCKS_AT),
        last: word_in(bytes, lent::LAST_AT),
        block: byte_at(bytes, lent::BLOCK_AT),
        end: word_in(bytes, lent::END_AT),
        pending: four_in(rest(bytes, lent::PENDING_AT)),
        edition: byte_at(bytes, lent::EDITION_AT),
    }
}

// 0 for an id past the last.
pub fn place_of(bytes: &[u8], id: ObjectId) -> u16
    ensures { result ≡ get_or (record_in bytes.now).places id.0 0 }
{
    if id.0 < 256 {
        word_in(bytes, lent::PLACES_AT + 2 * usize::from(id.0))
    } else {
        0
    }
}
