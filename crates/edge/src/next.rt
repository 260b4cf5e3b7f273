// The next flash step, told in numbers.
ghost use Rattle.std.specs.Prelude.{◌≡◌};
ghost use Rattle.edge.specs.Edge.{told, tells};

use board::Next;
use wire::Answer;

// C's numbers for what no answer is: a byte to program, a stretch to erase.
const PROGRAM: u8 = 252;

const ERASE: u8 = 253;

// What a flash step leaves in a byte that it erases.
const ERASED: u8 = 255;

// What grommetide_next tells: numbers in place of an enum, since they are C's interface.
#[derive(Clone, Copy)]
pub struct Telling {
    pub answer: u8,
    pub at: usize,
    pub size: usize,
    pub byte: u8,
}

// No flash step.
fn nothing(answer: u8) -> Telling
    ensures { told result.answer result.at result.size result.byte ≡ told answer 0 0 0 }
{
    Telling {
        answer,
        at: 0,
        size: 0,
        byte: 0,
    }
}

pub fn tell(next: Next) -> Telling
    ensures { told result.answer result.at result.size result.byte ≡ tells next }
{
    match next {
        Next::Program(at, byte) => Telling {
            answer: PROGRAM,
            at,
            size: 1,
            byte,
        },
        Next::Erase(at, size) => Telling {
            answer: ERASE,
            at,
            size,
            byte: ERASED,
        },
        Next::Nothing => nothing(wire::number(Answer::Done)),
        Next::Refused(why) => nothing(wire::number(Answer::Refused(why))),
    }
}
