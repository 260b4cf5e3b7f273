// Board records: each kind is built in one place. A record's numbers go by themselves, its arrays apart.
ghost use Rattle.std.specs.Prelude.{◌≡◌};
ghost use Rattle.board.specs.Record.{no_places, no_frame, no_job, cursor, starting, resting, unmounted};
ghost use Rattle.board.specs.Record as boards;
ghost use Rattle.board.specs.Step.{first};
ghost use Rattle.job.specs.Code.{numbers_of, assemble, jobless, going, at_rest_of, over, staying, leaves, outcome};
ghost use Rattle.job.specs.Code.{go_append, landed_on, go_drop, go_close, go_open, go_wipe, begins};

use crate::Outcome;
use board::{Cursor, Job, Phase, Record, Rest, Stage};
use flash::MAX_BLOCKS;
use frame::BUFFER_LEN;
use journal::HEADER_LEN;
use wire::Answer;

// Where a block's frames start, and the last creation time.
pub const START: u16 = HEADER_LEN as u16;

pub const LAST_TIME: u32 = u32::MAX;

// A record without its arrays.
#[derive(Clone, Copy)]
pub struct Numbers {
    pub phase: Phase,
    pub rest: Rest,
    pub job: Job,
    pub cursor: Cursor,
}

// Where a call leaves a job. A job that ended leaves no frames.
#[derive(Clone, Copy)]
pub struct Stepped {
    pub answer: Answer,
    pub next: Numbers,
    pub ended: bool,
}

// ---- records

pub fn no_places() -> [u16; 256]
    ensures { result ≡ no_places }
{
    [0; 256]
}

pub fn no_frame() -> [u8; BUFFER_LEN]
    ensures { result ≡ no_frame }
{
    [0; BUFFER_LEN]
}

pub fn no_job() -> Job
    ensures { result ≡ no_job }
{
    Job::default()
}

fn no_cursor() -> Cursor
    ensures { result ≡ cursor 0 0 0 0 0 0 }
{
    Cursor::default()
}

// Where a record stands, with nothing pending.
pub fn standing(blocks: u8, last: u16, block: u8, end: u16, edition: u8) -> Rest
    ensures { result ≡ boards.rest blocks last block end edition }
{
    Rest {
        blocks,
        last,
        block,
        end,
        pending: [0; 4],
        edition,
    }
}

// The numbers of a record in no job.
fn jobless(phase: Phase, rest: Rest) -> Numbers
    ensures { result ≡ jobless phase rest }
{
    Numbers {
        phase,
        rest,
        job: no_job(),
        cursor: no_cursor(),
    }
}

// A record in no job.
fn resting(phase: Phase, places: [u16; 256], rest: Rest) -> Record
    ensures { result ≡ resting phase places rest }
{
    assemble(jobless(phase, rest), places, no_frame(), no_frame())
}

pub fn unmounted() -> Record
    ensures { result ≡ unmounted }
{
    resting(Phase::Unmounted, no_places(), standing(0, 0, 0, 0, 0))
}

// The cursor of a job not yet begun: the first id to copy, and the first offset to look at for pending frames.
pub fn starting(id: u16, source: u16) -> Cursor
    ensures { result ≡ starting id source }
{
    Cursor {
        at: START,
        id,
        source,
        ..no_cursor()
    }
}

// ---- a record apart

pub fn numbers_of(board: Record) -> Numbers
    ensures { result ≡ numbers_of board }
{
    Numbers {
        phase: board.phase,
        rest: board.rest,
        job: board.job,
        cursor: board.cursor,
    }
}

pub fn assemble(
    n: Numbers,
    places: [u16; 256],
    unit: [u8; BUFFER_LEN],
    frame: [u8; BUFFER_LEN],
) -> Record
    ensures { result ≡ assemble n places unit frame }
{
    Record {
        phase: n.phase,
        rest: n.rest,
        places,
        job: n.job,
        cursor: n.cursor,
        unit,
        frame,
    }
}

// The record made whole again.
pub fn give_back(
    s: Stepped,
    places: [u16; 256],
    unit: [u8; BUFFER_LEN],
    frame: [u8; BUFFER_LEN],
) -> Outcome
    ensures { result ≡ outcome s.answer (leaves s places unit frame) }
{
    if s.ended {
        return Outcome {
            answer: s.answer,
            board: assemble(s.next, places, no_frame(), no_frame()),
        };
    }
    Outcome {
        answer: s.answer,
        board: assemble(s.next, places, unit, frame),
    }
}

// ---- where a call leaves a job

// None is left, or none began.
pub fn at_rest(answer: Answer, phase: Phase, rest: Rest) -> Stepped
    ensures { result ≡ at_rest_of answer phase rest }
{
    Stepped {
        answer,
        next: jobless(phase, rest),
        ended: true,
    }
}

// It ended.
pub fn over(rest: Rest) -> Stepped
    ensures { result ≡ over rest }
{
    at_rest(Answer::Done, Phase::Idle, rest)
}

// The cursor at a stage's first step.
fn first(c: Cursor) -> Cursor
    ensures { result ≡ first c }
{
    Cursor { index: 0, ..c }
}

impl Numbers {
    // The job stays as it is.
    pub fn staying(self, answer: Answer) -> Stepped
        ensures { result ≡ staying answer self }
    {
        Stepped {
            answer,
            next: self,
            ended: false,
        }
    }

    // It goes on, in a stage, at a cursor.
    pub fn going(self, stage: Stage, cursor: Cursor) -> Stepped
        ensures { result ≡ going stage cursor self }
    {
        let next = Numbers {
            phase: Phase::Busy(stage),
            cursor,
            ..self
        };
        next.staying(Answer::More)
    }

    // ---- entering a stage: the first from there on that has a step

    pub fn enter(self, stage: Stage) -> Stepped
        ensures { result ≡ going stage (first self.cursor) self }
    {
        self.going(stage, first(self.cursor))
    }

    pub fn enter_append(self) -> Stepped
        ensures { result ≡ go_append self }
    {
        if 0 < self.job.size {
            return self.enter(Stage::Append);
        }
        over(self.rest)
    }

    // The block that was made is the current one.
    pub fn landed(self) -> Numbers
        ensures { result ≡ landed_on self }
    {
        let rest = Rest {
            block: self.job.target,
            end: self.cursor.at,
            edition: self.job.edition,
            ..self.rest
        };
        Numbers { rest, ..self }
    }

    pub fn enter_drop(self) -> Stepped
        ensures { result ≡ go_drop self }
    {
        if self.job.drops {
            return self.enter(Stage::Drop);
        }
        self.landed().enter_append()
    }

    fn enter_close(self) -> Stepped
        ensures { result ≡ go_close self }
    {
        if 0 < self.job.closes {
            return self.enter(Stage::Close);
        }
        self.enter_append()
    }

    pub fn enter_open(self) -> Stepped
        ensures { result ≡ go_open self }
    {
        if self.job.moves {
            return self.enter(Stage::Open);
        }
        self.enter_close()
    }

    fn enter_wipe(self) -> Stepped
        ensures { result ≡ go_wipe self }
    {
        if 0 < self.job.wipes {
            return self.enter(Stage::Wipe);
        }
        self.enter_open()
    }
}

// A job accepted: no step is taken yet.
pub fn begin(rest: Rest, job: Job, cursor: Cursor) -> Stepped
    ensures { result ≡ begins rest job cursor }
{
    let n = Numbers {
        phase: Phase::Busy(Stage::Wipe),
        rest,
        job,
        cursor,
    };
    n.enter_wipe()
}
