// At most so many steps in one call.
ghost use Rattle.std.specs.Prelude.{◌≡◌};
ghost use Rattle.wire.specs.declared.Answer.TheVariants.{More};
ghost use Rattle.board.specs.Record.{answer_in};
ghost use Rattle.board.specs.Drive.{run_on_of};
ghost use Rattle.job.specs.Code.{assemble};
ghost use Rattle.drive.specs.Code.{Runs, Drives};

use crate::bursts;
use board::{Phase, Record};
use frame::BUFFER_LEN;
use job::records::{Numbers, Stepped};
use job::{Outcome, records};
use wire::Answer;

// How many steps were made, and where they leave the job.
#[derive(Clone, Copy)]
pub struct Ran {
    pub steps: usize,
    pub stepped: Stepped,
}

fn run_busy(
    image: &mut [u8],
    blocks: u8,
    n: Numbers,
    places: &mut [u16; 256],
    unit: &mut [u8; BUFFER_LEN],
    frame: &[u8; BUFFER_LEN],
    most: usize,
) -> Ran
    requires { answer_in n.phase ≡ More }
    ensures { Runs result places.new unit.new frame.now image.new
        (run_on_of blocks most image.old (assemble n places.old unit.old frame.now)) }
{
    let mut m = n;
    let mut steps = 0;
    while steps < most {
        let b = bursts::burst(image, blocks, m, unit, frame, most - steps - 1);
        let s = job::step_core(image, blocks, b.next, places, unit, frame);
        match s.answer {
            Answer::More => {
                m = s.next;
                steps += b.steps + 1;
            }
            Answer::Done => return Ran {
                steps: steps + b.steps + 1,
                stepped: s,
            },
            Answer::Refused(_) => return Ran {
                steps: steps + b.steps,
                stepped: s,
            },
        }
    }
    Ran {
        steps,
        stepped: m.staying(Answer::More),
    }
}

// Inner part of run, by value and over bytes. A run by a record's numbers, its arrays lent. Where the job ended the frames are the caller's to clear.
pub fn run_core(
    image: &mut [u8],
    blocks: u8,
    n: Numbers,
    places: &mut [u16; 256],
    unit: &mut [u8; BUFFER_LEN],
    frame: &[u8; BUFFER_LEN],
    most: usize,
) -> Ran
    ensures { Runs result places.new unit.new frame.now image.new
        (run_on_of blocks most image.old (assemble n places.old unit.old frame.now)) }
{
    match n.phase {
        Phase::Unmounted | Phase::Idle => Ran {
            steps: 0,
            stepped: n.staying(Answer::Done),
        },
        Phase::Busy(_) => run_busy(image, blocks, n, places, unit, frame, most),
    }
}

// What a run call gives back: how many steps were made, and what the last step call gave.
#[derive(Clone, Copy)]
pub struct Driven {
    pub steps: usize,
    pub last: Outcome,
}

// A run call: step calls that stop at the first answer that isn't more, at most so many.
pub fn run(image: &mut [u8], blocks: u8, most: usize, board: Record) -> Driven
    ensures { Drives result image.new (run_on_of blocks most image.old board) }
{
    let mut places = board.places;
    let mut unit = board.unit;
    let ran = run_core(
        image,
        blocks,
        records::numbers_of(board),
        &mut places,
        &mut unit,
        &board.frame,
        most,
    );
    Driven {
        steps: ran.steps,
        last: records::give_back(ran.stepped, places, unit, board.frame),
    }
}
