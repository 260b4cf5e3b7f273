// What a job's next flash step is, and the record moved on once the caller made it.
ghost use Rattle.std.specs.Prelude.{◌≡◌, List, ℕ};
ghost use Rattle.board.specs.declared.Phase.TheVariants.{Busy};
ghost use Rattle.board.specs.Record.{Out};
ghost use Rattle.board.specs.Drive.{next_in, next_on, made_on};
ghost use Rattle.job.specs.Code.{assemble, HandsAt, Hands};

use board::{Next, Phase, Record, Stage};
use flash::Shape;
use job::records::Numbers;
use job::{Action, Outcome, records};
use wire::Refusal;

// ---- what is next

fn next_busy(shape: Shape, stage: Stage, n: Numbers, byte: u8) -> Next
    ensures { (p u f : List ℕ) → HandsAt stage n byte u f → result ≡ next_in shape.blocks (Busy stage) shape.len (assemble n p u f) }
{
    let a = job::next_action(stage, n, byte);
    let Some(at) = job::place_in(shape, n.rest, a) else {
        return Next::Refused(Refusal::Stale);
    };
    match a {
        Action::Program(_, _, byte) => Next::Program(at, byte),
        Action::Erase(_) => Next::Erase(at, shape.size()),
    }
}

// Inner part of next, by value and over bytes. By a record's numbers and the byte in hand, any byte where no frame is copied or appended, on an
// image of a shape.
pub fn next_of(shape: Shape, n: Numbers, byte: u8) -> Next
    ensures { (p u f : List ℕ) → Hands n byte u f → result ≡ next_on shape.blocks shape.len (assemble n p u f) }
{
    match n.phase {
        Phase::Unmounted | Phase::Idle => Next::Nothing,
        Phase::Busy(stage) => next_busy(shape, stage, n, byte),
    }
}

// A next call.
pub fn next(len: usize, blocks: u8, board: Record) -> Next
    ensures { result ≡ next_on blocks len board }
{
    let n = records::numbers_of(board);
    let byte = job::in_hand(n, &board.unit, &board.frame);
    next_of(Shape { len, blocks }, n, byte)
}

// ---- it is made

// A made call: the image is read as it is now, never written.
pub fn made(image: &[u8], blocks: u8, board: Record) -> Outcome
    ensures { (let o : Out = made_on blocks image.now board in (result.answer ≡ o.answer) × (result.board ≡ o.board)) }
{
    let mut places = board.places;
    let mut unit = board.unit;
    let m = job::made_of(Shape::of(image, blocks), records::numbers_of(board));
    let s = job::load_due(image, blocks, m, &mut places, &mut unit, &board.frame);
    records::give_back(s, places, unit, board.frame)
}
