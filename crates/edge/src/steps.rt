// Steps on the record's bytes: its numbers are read and written back, its arrays only where a frame is loaded.
ghost use Rattle.board.specs.Step.{enter_copy};
ghost use Rattle.pack.specs.Code.{Holds};
ghost use Rattle.edge.specs.Code.{over, Went, DoesStep};

use crate::WRONG_RECORD;
use board::Phase;
use frame::{BODY_AT, KIND_AT};
use job::Moved;
use job::records::Numbers;
use lent::RECORD_SIZE;
use wire::Answer;

// The next frame to copy is loaded, or the block is sealed.
fn load(image: &[u8], blocks: u8, n: Numbers, board: &mut [u8])
    ensures { Holds (enter_copy blocks image.now (over n board.old)) board.old board.new }
{
    let kind = unpack::append_byte(board, KIND_AT);
    let committer = job::committer(kind, unpack::append_byte(board, BODY_AT));
    let mut places = unpack::places(board);
    let mut unit = unpack::unit(board);
    let s = job::enter_copy(image, blocks, n, committer, &mut places, &mut unit);
    pack::write_loaded(s, &places, &unit, board);
}

// Inner part of step_numbers and grommetide_made. The record goes on where the step was made, by the phase before it; and the answer.
pub fn go_on(image: &[u8], blocks: u8, phase: Phase, m: Moved, board: &mut [u8]) -> u8
    ensures { Went blocks image.now phase m board.old result board.new }
{
    match m {
        Moved::Due(s) => {
            load(image, blocks, s.next, board);
            wire::number(Answer::More)
        }
        Moved::Still(s) => {
            if pack::changes(phase, s.answer) {
                pack::write_step(s, board);
            }
            wire::number(s.answer)
        }
    }
}

// Inner part of grommetide_step: a step by the record's numbers.
pub fn step_numbers(image: &mut [u8], blocks: u8, board: &mut [u8]) -> u8
    ensures { DoesStep blocks image.old board.old result image.new board.new }
{
    if board.len() != RECORD_SIZE {
        return WRONG_RECORD;
    }
    let n = unpack::numbers(board);
    let m = job::try_step(image, blocks, n, unpack::in_hand(n, board));
    go_on(image, blocks, n.phase, m, board)
}
