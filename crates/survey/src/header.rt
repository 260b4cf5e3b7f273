// A block's header.
ghost use Rattle.std.specs.Prelude.{◌≡◌, [], ◌∷◌, ◌-◌, take, drop};
ghost use Rattle.flash.specs.Bytes.{u16le, all_ff, same_bytes_of};
ghost use Rattle.frame.specs.Frame.{kind_at};
ghost use Rattle.journal.specs.Block.{header_len, header_kind, spare_at, created_at, edition_in, header_fault};
ghost use Rattle.survey.specs.Pass.{header_of};

use flash::byte_at;
use frame::{Edition, Fault, Field, KIND_AT};
use journal::{HEADER_LEN, SPARE_AT, STATE_AT, TIME_AT, VALID_DATA};

// The length's low byte and the kind's high byte.
const LENGTH: u8 = HEADER_LEN as u8;

const KIND_HIGH: u8 = 0x4A;

// When a block was made: bytes 4 to 7 are the inverse.
pub fn created(block: &[u8]) -> u32
    ensures { result ≡ created_at block.now }
{
    !u32::from_le_bytes([
        byte_at(block, TIME_AT),
        byte_at(block, TIME_AT + 1),
        byte_at(block, TIME_AT + 2),
        byte_at(block, TIME_AT + 3),
    ])
}

// Two bytes stand at a place.
fn stands(block: &[u8], i: usize, a: u8, b: u8) -> bool
    ensures { result ≡ same_bytes_of (take 2 (drop i block.now)) (a ∷ b ∷ []) }
{
    flash::rest(block, i).starts_with(&[a, b])
}

// The header's spare bytes are 0xFF, as far as they are there.
fn spare_blank(block: &[u8]) -> bool
    ensures { result ≡ all_ff (take (header_len - spare_at) (drop spare_at block.now)) }
{
    let spare = flash::rest(block, SPARE_AT);
    flash::is_blank(flash::front(spare, HEADER_LEN - SPARE_AT))
}

// The kind is an edition's: its low byte is the edition's number.
fn is_kind(block: &[u8], edition: Edition) -> bool
    ensures { result ≡ same_bytes_of (take 2 (drop kind_at block.now)) (u16le (header_kind edition)) }
{
    stands(block, KIND_AT, u8::from(edition), KIND_HIGH)
}

// The edition that a header's kind tells.
#[tactic(auto, unfolding(journal::specs::Block::edition_in))]
pub fn edition_in(block: &[u8]) -> Edition
    ensures { result ≡ edition_in block.now }
{
    if is_kind(block, Edition::Second) {
        Edition::Second
    } else {
        Edition::First
    }
}

// The first field of a header that is wrong.
#[tactic(auto, unfolding(journal::specs::Block::header_fault))]
pub fn header_fault(block: &[u8]) -> Result<(), Fault>
    ensures { result ≡ header_of (header_fault block.now) }
{
    if !stands(block, 0, LENGTH, 0) {
        return Err(Fault {
            field: Field::Length,
            place: 0,
        });
    }
    if !is_kind(block, edition_in(block)) {
        return Err(Fault {
            field: Field::Kind,
            place: KIND_AT,
        });
    }
    if created(block) == 0 {
        return Err(Fault {
            field: Field::Created,
            place: TIME_AT,
        });
    }
    if byte_at(block, STATE_AT) != VALID_DATA {
        return Err(Fault {
            field: Field::State,
            place: STATE_AT,
        });
    }
    if !spare_blank(block) {
        return Err(Fault {
            field: Field::Spare,
            place: SPARE_AT,
        });
    }
    Ok(())
}
