// Reading a frame out of any bytes.
#![tactic(auto)]

ghost use Rattle.std.specs.Prelude.{◌≡◌, ◌-◌, ◌≤◌, length, get_or, take, drop, true, false};
ghost use Rattle.flash.specs.Bytes.{all_ff};
ghost use Rattle.frame.specs.Frame.{kind_at};
ghost use Rattle.frame.specs.Code.{head_of, peek_at, read_of};
ghost use Rattle.frame.specs.Reader.{has_length, id_at, decode, read_frame};

mod fitting;
mod front;
mod lengths;
mod torn;
mod whole;

use flash::byte_at;
use frame::{
    ABORT_KIND, BODY_AT, CLOSED_KIND, COMMIT_KIND, DELETE_KIND, Edition, Fault, Field, FrameRead,
    Head, Host, KIND_AT, ObjectId, PUT_KIND, PUT_LEN, PUT_VALUE_AT, RESET_LEN, SETTLED_KIND,
    SETTLED_LEN, SETTLED_VALUE_AT, VALUE_MAX, check_len,
};
use front::Front;
use lengths::has_length;
use whole::is_whole;

// The other offsets in a frame: high bytes, and the id of a put or a delete.
const LENGTH_HIGH: usize = 1;

const KIND_HIGH: usize = KIND_AT + 1;

const ID_AT: usize = BODY_AT + 1;

const ID_HIGH: usize = ID_AT + 1;

const SETTLED_HIGH: usize = BODY_AT + 1;

// The longest put and the longest settled frame, without a check.
const MAX_PUT: usize = PUT_LEN as usize + VALUE_MAX;

const MAX_SETTLED: usize = SETTLED_LEN as usize + VALUE_MAX;

// The id whose bytes stand at an offset of a frame.
fn id_at(bytes: &[u8], at: usize) -> ObjectId
    requires { at ≤ 5 }
    ensures { result ≡ id_at bytes.now at }
{
    ObjectId(u16::from_le_bytes([byte_at(bytes, at), byte_at(bytes, at + 1)]))
}

// How many bytes a value has that starts at an offset of a frame of n bytes, `least` of them not its own.
fn value_count(bytes: &[u8], start: usize, n: u8, least: u8) -> u8
    ensures { result ≡ length (take (n - least) (drop start bytes.now)) }
{
    let left = bytes.len().saturating_sub(start);
    left.min(n.saturating_sub(least) as usize) as u8
}

// The head of the frame at the front, by its bytes for length, kind, host and id: nothing is tested.
fn head(bytes: &[u8], edition: Edition) -> Head
    ensures { result ≡ head_of (decode edition (get_or bytes.now kind_at 0) (get_or bytes.now 0 0) bytes.now) }
{
    let n = byte_at(bytes, 0);
    let check = check_len(edition);
    let host = Host(byte_at(bytes, BODY_AT));
    match byte_at(bytes, KIND_AT) {
        CLOSED_KIND => Head::Closed(value_count(bytes, BODY_AT, n, RESET_LEN)),
        PUT_KIND => Head::Put(
            host,
            id_at(bytes, ID_AT),
            value_count(bytes, PUT_VALUE_AT, n, PUT_LEN + check),
        ),
        DELETE_KIND => Head::Delete(host, id_at(bytes, ID_AT)),
        COMMIT_KIND => Head::Commit(host),
        ABORT_KIND => Head::Abort(host),
        SETTLED_KIND => Head::Settled(
            id_at(bytes, BODY_AT),
            value_count(bytes, SETTLED_VALUE_AT, n, SETTLED_LEN + check),
        ),
        _ => Head::Reset,
    }
}

// The frame at a front that isn't blank, whose length some frame has.
fn read_laid(front: &Front<'_>, next: usize) -> FrameRead
    requires { (has_length front.now.edition next front.now.len ≡ true) × (all_ff front.now.bytes.now ≡ false) }
    ensures { result ≡ read_of (read_frame front.now.edition next 0 front.now.bytes.now) }
{
    if front.being_closed() {
        return FrameRead::Torn(front.len as usize);
    }
    let Some(misfit) = front.layout_misfit(next) else {
        return FrameRead::Whole(head(front.bytes, front.edition));
    };
    if front.tears(next) && flash::is_blank(flash::rest(front.bytes, misfit.at)) {
        FrameRead::Torn(front.len as usize)
    } else {
        FrameRead::Wrong(misfit.fault)
    }
}

// The frame at the front of some bytes, which run to the block's end.
fn read_front(bytes: &[u8], edition: Edition, next: usize) -> FrameRead
    ensures { result ≡ read_of (read_frame edition next 0 bytes.now) }
{
    if flash::is_blank(bytes) {
        return FrameRead::Blank;
    }
    match Front::of(bytes, edition) {
        Some(front) if has_length(edition, next, front.len) => read_laid(&front, next),
        _ => FrameRead::Wrong(Fault {
            field: Field::Length,
            place: 0,
        }),
    }
}

// The frame at an offset of a block: blank past its end. A settled frame's id is at least next.
pub fn read_frame(block: &[u8], edition: Edition, at: usize, next: usize) -> FrameRead
    ensures { result ≡ read_of (read_frame edition next at (drop at block.now)) }
{
    let bytes = flash::rest(block, at);
    if is_whole(bytes, edition, next) {
        return FrameRead::Whole(head(bytes, edition));
    }
    match read_front(bytes, edition, next) {
        FrameRead::Wrong(fault) => FrameRead::Wrong(Fault {
            place: at + fault.place,
            ..fault
        }),
        read => read,
    }
}

// The head of the frame at an offset of a block, where a frame is known to be whole: nothing is tested.
#[tactic(auto, unfolding(frame::specs::Code::peek_at))]
pub fn peek(block: &[u8], edition: Edition, at: usize) -> Head
    ensures { result ≡ peek_at edition block.now at }
{
    head(flash::rest(block, at), edition)
}
