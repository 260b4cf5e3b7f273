// The flash step that a job does next, and doing it.
ghost use Rattle.std.specs.Prelude.{◌≡◌, ◌+◌, ◌*◌, true, false, eqb, suc, MatchOption};
ghost use Rattle.flash.specs.Flash.{size_in, size_of, within, block_of, offset_of, write};
ghost use Rattle.journal.specs.Block.{open_write, seal_write, close_byte};
ghost use Rattle.job.specs.Code.{action_by, flash_step, fits, takes, did};

use crate::header;
use crate::records::{LAST_TIME, Numbers};
use board::{Rest, Stage};
use flash::Shape;
use frame::{Edition, FINISH};
use journal::{IN_TRANSFER, STATE_AT, TIME_AT, VALID_DATA};

// A flash step: a byte programmed at an offset of a block, or a block erased.
#[derive(Clone, Copy)]
pub enum Action {
    Program(u8, usize, u8),
    Erase(u8),
}

impl Action {
    // Where it is in an image, if it is there.
    pub fn place(self, shape: Shape) -> Option<usize>
        ensures { MatchOption result (within shape.blocks (size_in shape.blocks shape.len) (flash_step self) ≡ false)
            (λ i. (within shape.blocks (size_in shape.blocks shape.len) (flash_step self) ≡ true)
            × (i ≡ block_of (flash_step self) * size_in shape.blocks shape.len + offset_of (flash_step self))) }
    {
        match self {
            Action::Program(block, at, _) => shape.place(block, at),
            Action::Erase(block) => shape.place(block, 0),
        }
    }
}

// A write that opens a block, its offset and its byte: the state byte, then the header's first four.
fn open_write(edition: Edition, i: u8) -> (usize, u8)
    ensures { write result.0 result.1 ≡ open_write edition i }
{
    match i {
        1 => (0, header::LENGTH),
        2 => (1, 0x00),
        3 => (frame::KIND_AT, u8::from(edition)),
        4 => (header::KIND_HIGH_AT, 0x4A),
        _ => (STATE_AT, IN_TRANSFER),
    }
}

// A write that seals a block: the inverse of its creation time, then its state byte.
fn seal_write(time: u32, i: u8) -> (usize, u8)
    ensures { write result.0 result.1 ≡ seal_write time i }
{
    let inverse = (LAST_TIME - time).to_le_bytes();
    let i = i as usize;
    if i < inverse.len() {
        return (TIME_AT + i, inverse[i]);
    }
    (STATE_AT, VALID_DATA)
}

// A byte that closes a torn frame: the last one is the frame's finish byte.
fn close_byte(i: u8, closes: u8) -> u8
    ensures { result ≡ close_byte (eqb (suc i) closes) }
{
    if i as usize + 1 == closes as usize {
        FINISH
    } else {
        0
    }
}

// By the byte in hand alone: no array of the record's frames or places is read.
pub fn next_action(stage: Stage, n: Numbers, byte: u8) -> Action
    ensures { flash_step result ≡ action_by stage n byte }
{
    let i = n.cursor.index;
    // arrays of their own: one that is indexed within n would keep all of n in memory
    let wipe = n.job.wipe;
    let close = n.job.close;
    match stage {
        Stage::Wipe => Action::Erase(flash::get_or(&wipe, i as usize, 0)),
        Stage::Open => {
            let (at, byte) = open_write(Edition::from(n.job.edition), i);
            Action::Program(n.job.target, at, byte)
        }
        Stage::Copy => Action::Program(n.job.target, n.cursor.at as usize, byte),
        Stage::Seal => {
            let (at, byte) = seal_write(n.job.time, i);
            Action::Program(n.job.target, at, byte)
        }
        Stage::Drop => Action::Erase(n.rest.block),
        Stage::Append => Action::Program(n.rest.block, n.rest.end as usize + i as usize, byte),
        Stage::Close => {
            let at = flash::get_or(&close, i as usize, 0);
            Action::Program(n.rest.block, at as usize, close_byte(i, n.job.closes))
        }
    }
}

// ---- the step done, where its place lies in the image; else nothing changes

#[tactic(auto, unfolding(crate::specs::Code::did))]
pub fn act(image: &mut [u8], blocks: u8, a: Action) -> bool
    ensures { (result ≡ within blocks (size_of blocks image.old) (flash_step a))
        × (image.new ≡ did blocks (flash_step a) image.old) }
{
    let shape = Shape::of(image, blocks);
    let Some(at) = a.place(shape) else {
        return false;
    };
    match a {
        Action::Program(_, _, byte) => flash::program(image, at, byte),
        Action::Erase(block) => flash::erase_block(image, shape.size(), usize::from(block)),
    }
    true
}

// ---- the record's image

// An image is the record's, by where that stands.
pub fn same_shape(shape: Shape, rest: Rest) -> bool
    ensures { result ≡ fits shape.blocks shape.len rest }
{
    shape.len == rest.last as usize + 1 && shape.blocks == rest.blocks
}

// And the place of a step that the caller does lies in it.
pub fn place_in(shape: Shape, rest: Rest, a: Action) -> Option<usize>
    ensures { MatchOption result (takes shape.blocks shape.len rest (flash_step a) ≡ false)
        (λ i. (takes shape.blocks shape.len rest (flash_step a) ≡ true)
        × (i ≡ block_of (flash_step a) * size_in shape.blocks shape.len + offset_of (flash_step a))) }
{
    if same_shape(shape, rest) {
        return a.place(shape);
    }
    None
}
