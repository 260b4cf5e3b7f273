// One step of a job.
ghost use Rattle.std.specs.Prelude.{◌≡◌, List, ℕ, ◌+◌, ◌≤◌, length};
ghost use Rattle.frame.specs.Frame.{value_max};
ghost use Rattle.frame.specs.Code.{value_len_of};
ghost use Rattle.fetch.specs.Fetch.{load_in};
ghost use Rattle.wire.specs.declared.Answer.TheVariants.{Done, Refused};
ghost use Rattle.wire.specs.declared.Refusal.TheVariants as refusal;
ghost use Rattle.board.specs.declared.Phase.TheVariants.{Busy};
ghost use Rattle.board.specs.Record.{Out};
ghost use Rattle.board.specs.Drive.{made_in_of, made_on};
ghost use Rattle.board.specs.Step.{loaded, enter_copy, step_busy, step_on};
ghost use Rattle.job.specs.declared.moves.Moved.TheVariants.{Still};
ghost use Rattle.job.specs.Code.{assemble, LeadsTo, staying, in_hand, HandsAt, Hands, leaves, reached, answered, ended_at, Appends, Loads, Steps};

use crate::moves::Moved;
use crate::records::{Numbers, Stepped};
use crate::{Outcome, actions, moves, placing, records};
use board::{Cursor, Phase, Record, Stage};
use fetch::Fetch;
use flash::Shape;
use frame::{BODY_AT, BUFFER_LEN, Edition, Host, KIND_AT};
use wire::{Answer, Refusal};

// A frame to copy is put into the buffer, and its id has a new place.
fn load(
    source: &[u8],
    fetch: Fetch,
    n: Numbers,
    committer: Option<Host>,
    places: &mut [u16; 256],
    unit: &mut [u8; BUFFER_LEN],
) -> Stepped
    requires { (fetch.value + value_len_of fetch.head ≤ length source.now) × (value_len_of fetch.head ≤ value_max) }
    ensures { (f : List ℕ) → Appends committer f → LeadsTo places.new unit.new f result
        (loaded (assemble n places.old unit.old f) (load_in source.now fetch)) }
{
    let edition = Edition::from(n.job.edition);
    let end = fetch.value + frame::value_len(fetch.head);
    *unit = frame::encode_frame(edition, fetch.head, &source[fetch.value..end]);
    placing::place_copied(committer, n.cursor.at, fetch.head, places);
    let next = Cursor {
        index: 0,
        at: n.cursor.at,
        id: fetch.id,
        source: fetch.source,
        size: frame::frame_len(edition, fetch.head) as u8,
        off: 0,
    };
    n.going(Stage::Copy, next)
}

// The next frame to copy is put into the buffer, or the block is sealed. Given is whose commit the frame to append is.
pub fn enter_copy(
    image: &[u8],
    blocks: u8,
    n: Numbers,
    committer: Option<Host>,
    places: &mut [u16; 256],
    unit: &mut [u8; BUFFER_LEN],
) -> Stepped
    ensures { (f : List ℕ) → Appends committer f → LeadsTo places.new unit.new f result
        (enter_copy blocks image.now (assemble n places.old unit.old f)) }
{
    let size = flash::size_of(blocks, image.len());
    let source = flash::block_of(image, size, n.rest.block);
    let edition = Edition::from(n.rest.edition);
    match fetch::next_load(
        source,
        edition,
        n.rest.end,
        places,
        n.job.since,
        n.cursor.id,
        n.cursor.source,
    ) {
        Some(fetch) => load(source, fetch, n, committer, places, unit),
        None => n.enter(Stage::Seal),
    }
}

// ---- a step call

// It is refused: a stale record or image.
pub fn stale(n: Numbers) -> Moved
    ensures { result ≡ Still (staying (Refused refusal.Stale) n) }
{
    Moved::Still(n.staying(Answer::Refused(Refusal::Stale)))
}

// A record in no job stays as it is.
pub fn rests(n: Numbers) -> Moved
    ensures { result ≡ Still (staying Done n) }
{
    Moved::Still(n.staying(Answer::Done))
}

fn try_busy(image: &mut [u8], blocks: u8, stage: Stage, n: Numbers, byte: u8) -> Moved
    ensures { (p u f : List ℕ) → HandsAt stage n byte u f → Steps (answered result) (ended_at result) (reached blocks result image.new p u f)
        image.new (step_busy blocks stage image.old (assemble n p u f)) }
{
    let next = actions::next_action(stage, n, byte);
    let shape = Shape::of(image, blocks);
    if actions::same_shape(shape, n.rest) && actions::act(image, blocks, next) {
        return moves::advance(stage, n);
    }
    stale(n)
}

// Inner part of step_core, and of the steps over the record's bytes. It reads no array of the record: the byte in hand is given, any byte where no
// frame is copied or appended, and the next frame is still to be loaded where one is due.
pub fn try_step(image: &mut [u8], blocks: u8, n: Numbers, byte: u8) -> Moved
    ensures { (p u f : List ℕ) → Hands n byte u f → Steps (answered result) (ended_at result) (reached blocks result image.new p u f)
        image.new (step_on blocks image.old (assemble n p u f)) }
{
    match n.phase {
        Phase::Unmounted | Phase::Idle => rests(n),
        Phase::Busy(stage) => try_busy(image, blocks, stage, n, byte),
    }
}

// ---- a step that the caller made

fn made_busy(shape: Shape, stage: Stage, n: Numbers) -> Moved
    ensures { (img p u f : List ℕ) → length img ≡ shape.len
        → Steps (answered result) (ended_at result) (reached shape.blocks result img p u f) img
        (made_in_of shape.blocks (Busy stage) img (assemble n p u f)) }
{
    let next = actions::next_action(stage, n, 0);
    match actions::place_in(shape, n.rest, next) {
        Some(_) => moves::advance(stage, n),
        None => stale(n),
    }
}

// Inner part of made, by value and over bytes. The record moves on by a step made to an image of a shape: no array of it is read, nor the image.
pub fn made_of(shape: Shape, n: Numbers) -> Moved
    ensures { (img p u f : List ℕ) → length img ≡ shape.len
        → Steps (answered result) (ended_at result) (reached shape.blocks result img p u f) img
        (made_on shape.blocks img (assemble n p u f)) }
{
    match n.phase {
        Phase::Unmounted | Phase::Idle => rests(n),
        Phase::Busy(stage) => made_busy(shape, stage, n),
    }
}

// ---- with the record's arrays

// The byte that the next step programs, of the frame that is copied or appended.
pub fn in_hand(n: Numbers, unit: &[u8; BUFFER_LEN], frame: &[u8; BUFFER_LEN]) -> u8
    ensures { result ≡ in_hand n unit.now frame.now }
{
    match n.phase {
        Phase::Busy(Stage::Copy) => flash::byte_at(unit, n.cursor.off as usize),
        Phase::Busy(Stage::Append) => flash::byte_at(frame, n.cursor.index as usize),
        _ => 0,
    }
}

// Inner part of step_core and made. The next frame is loaded where one is due; else nothing is done.
pub fn load_due(
    image: &[u8],
    blocks: u8,
    m: Moved,
    places: &mut [u16; 256],
    unit: &mut [u8; BUFFER_LEN],
    frame: &[u8; BUFFER_LEN],
) -> Stepped
    ensures { Loads blocks image.now places.old unit.old frame.now m result
        places.new unit.new }
{
    match m {
        Moved::Still(s) => s,
        Moved::Due(s) => {
            let committer = placing::committer(frame[KIND_AT], frame[BODY_AT]);
            enter_copy(image, blocks, s.next, committer, places, unit)
        }
    }
}

// Inner part of step and run. A step by a record's numbers, its arrays lent. Where the job ended the frames are the caller's to clear.
pub fn step_core(
    image: &mut [u8],
    blocks: u8,
    n: Numbers,
    places: &mut [u16; 256],
    unit: &mut [u8; BUFFER_LEN],
    frame: &[u8; BUFFER_LEN],
) -> Stepped
    ensures { Steps result.answer result.ended (leaves result places.new unit.new frame.now) image.new
        (step_on blocks image.old (assemble n places.old unit.old frame.now)) }
{
    let byte = in_hand(n, unit, frame);
    let m = try_step(image, blocks, n, byte);
    load_due(image, blocks, m, places, unit, frame)
}

// A step call.
pub fn step(image: &mut [u8], blocks: u8, board: Record) -> Outcome
    ensures { (let o : Out = step_on blocks image.old board in
        (image.new ≡ o.image) × (result.answer ≡ o.answer) × (result.board ≡ o.board)) }
{
    let mut places = board.places;
    let mut unit = board.unit;
    let s = step_core(
        image,
        blocks,
        records::numbers_of(board),
        &mut places,
        &mut unit,
        &board.frame,
    );
    records::give_back(s, places, unit, board.frame)
}
