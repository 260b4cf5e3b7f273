// The middle of a frame, where most of all steps are: what is next there, and the cursor that counts it. Nothing else of the record's bytes changes.
#![tactic(auto)]

ghost use Rattle.std.specs.Prelude.{◌≡◌, true, List, ℕ, length, IfSome};
ghost use Rattle.board.specs.Step.{advance, stepped, step_on};
ghost use Rattle.board.specs.Drive.{made_on};
ghost use Rattle.lent.specs.Layout.{record_in};
ghost use Rattle.midframe.specs.Code.{Stands, Aims, Lies, Ready, Finds, Tried};

use board::{Phase, Stage};
use flash::{Shape, byte_at};
use lent::{BLOCK_AT, BLOCKS_AT, CURSOR_AT, END_AT, LAST_AT, PLAN_AT, RECORD_SIZE};

// Where the cursor counts the offset to program at.
const AT: usize = CURSOR_AT + lent::MADE_AT;

// A byte of a frame to program, in which stage, and its offset in its block.
#[derive(Clone, Copy)]
struct Aim {
    stage: Stage,
    block: u8,
    at: usize,
    byte: u8,
}

// The same by its place in the image.
#[derive(Clone, Copy)]
pub struct Found {
    pub stage: Stage,
    pub at: usize,
    pub byte: u8,
}

// ---- what is next

// The record fits an image of the shape; its flags stand as they are written.
fn stands(board: &[u8], shape: Shape) -> bool
    ensures { result ≡ true → Stands shape.blocks board.now shape.len }
{
    byte_at(board, PLAN_AT + lent::MOVES_AT) < 2
        && byte_at(board, PLAN_AT + lent::DROPS_AT) < 2
        && byte_at(board, BLOCKS_AT) == shape.blocks
        && shape.len == unpack::word_in(board, LAST_AT) as usize + 1
}

// The byte that is next in a frame.
fn spot(board: &[u8]) -> Option<Aim>
    ensures { IfSome result (Aims board.now) }
{
    match unpack::phase_of(board) {
        Phase::Busy(Stage::Copy) => {
            let off = byte_at(board, CURSOR_AT + lent::OFF_AT);
            Some(Aim {
                stage: Stage::Copy,
                block: byte_at(board, PLAN_AT + lent::TARGET_AT),
                at: unpack::word_in(board, AT) as usize,
                byte: unpack::unit_byte(board, off as usize),
            })
        }
        Phase::Busy(Stage::Append) => {
            let index = byte_at(board, CURSOR_AT) as usize;
            Some(Aim {
                stage: Stage::Append,
                block: byte_at(board, BLOCK_AT),
                at: unpack::word_in(board, END_AT) as usize + index,
                byte: unpack::append_byte(board, index),
            })
        }
        _ => None,
    }
}

// A byte by its place in the image, where that lies in it.
fn placed(shape: Shape, aim: Aim) -> Option<Found>
    ensures { IfSome result (Lies shape.blocks shape.len aim) }
{
    let at = shape.place(aim.block, aim.at)?;
    Some(Found {
        stage: aim.stage,
        at,
        byte: aim.byte,
    })
}

// Inner part of grommetide_next, which goes on by the record's numbers where nothing is found. The byte that is next, if the record is in a frame
// and its flags stand as they are written. That it is the faster way is not promised: one that always finds nothing would do.
pub fn try_next(shape: Shape, board: &[u8]) -> Option<Found>
    ensures { IfSome result (Finds shape.blocks shape.len board.now) }
{
    if board.len() != RECORD_SIZE || !stands(board, shape) {
        return None;
    }
    placed(shape, spot(board)?)
}

// ---- the cursor counts it, unless it is the frame's last

// Whether there is a byte more: then the cursor is at it.
fn count(stage: Stage, board: &mut [u8]) -> bool
    requires { Ready board.old stage }
    ensures { (N : ℕ) (img : List ℕ) → Tried (stepped img (advance N stage img (record_in board.old))) result img board.old
        img board.new }
{
    match stage {
        Stage::Copy => {
            let off = byte_at(board, CURSOR_AT + lent::OFF_AT);
            let on = off as usize + 1 < byte_at(board, CURSOR_AT + lent::COPY_AT) as usize;
            if on {
                let next = unpack::word_in(board, AT) + 1;
                board[AT..AT + 2].copy_from_slice(&next.to_le_bytes());
                board[CURSOR_AT + lent::OFF_AT] = off + 1;
            }
            on
        }
        Stage::Append => {
            let index = byte_at(board, CURSOR_AT);
            let on = index as usize + 1 < byte_at(board, PLAN_AT + lent::APPEND_AT) as usize;
            if on {
                board[CURSOR_AT] = index + 1;
            }
            on
        }
        _ => false,
    }
}

// Both say no at once where nothing is found, with nothing written: `is_some_and` would lend the record to a closure, and what that wrote is
// told to a proof by names of Rattle's own alone (tried).

// Inner part of grommetide_made, which goes on by the record's numbers where this says no: a step that the caller made.
pub fn try_made(shape: Shape, board: &mut [u8]) -> bool
    ensures { (img : List ℕ) → length img ≡ shape.len → Tried (made_on shape.blocks img (record_in board.old)) result img board.old
        img board.new }
{
    let Some(found) = try_next(shape, board) else {
        return false;
    };
    count(found.stage, board)
}

// Inner part of grommetide_step in the same way: a step.
pub fn try_byte(image: &mut [u8], blocks: u8, board: &mut [u8]) -> bool
    ensures { Tried (step_on blocks image.old (record_in board.old)) result image.old board.old
        image.new board.new }
{
    let Some(found) = try_next(Shape::of(image, blocks), board) else {
        return false;
    };
    let counts = count(found.stage, board);
    if counts {
        flash::program(image, found.at, found.byte);
    }
    counts
}
