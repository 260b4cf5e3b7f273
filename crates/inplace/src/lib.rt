// The store's calls over a board record that is lent and changed in place. Document 01 has a step and a request take the record
// apart, call the function by value and store what it gives (DECISIONS 80, 82): so they don't hand on `*board` whole.
#![tactic(auto)]

ghost use Rattle.std.specs.Prelude.{◌≡◌};
ghost use Rattle.board.specs.Record.{Out};
ghost use Rattle.board.specs.Step.{step_on};
ghost use Rattle.board.specs.Queue.{asking, request_on};
ghost use Rattle.board.specs.Mount.{mount_on, format_on};

use board::Record;
use frame::Host;
use job::Outcome;
use wire::Answer;

// A step call.
pub fn step_in_place(image: &mut [u8], blocks: u8, board: &mut Record) -> Answer
    ensures { (let o : Out = step_on blocks image.old board.old in
        (image.new ≡ o.image) × (result ≡ o.answer) × (board.new ≡ o.board)) }
{
    let Record {
        phase,
        rest,
        places,
        job,
        cursor,
        unit,
        frame,
    } = *board;
    let out = job::step(
        image,
        blocks,
        Record {
            phase,
            rest,
            places,
            job,
            cursor,
            unit,
            frame,
        },
    );
    *board = out.board;
    out.answer
}

// A queue request.
pub fn request_in_place(
    image: &[u8],
    blocks: u8,
    board: &mut Record,
    host: Host,
    message: &[u8],
    reply: &mut [u8],
) -> Answer
    ensures { (let o : Out = request_on (asking blocks image.now board.old host message.now reply.old) in
        (result ≡ o.answer) × (board.new ≡ o.board) × (reply.new ≡ o.reply)) }
{
    let Record {
        phase,
        rest,
        places,
        job,
        cursor,
        unit,
        frame,
    } = *board;
    let out = queue::request(
        image,
        blocks,
        Record {
            phase,
            rest,
            places,
            job,
            cursor,
            unit,
            frame,
        },
        host,
        message,
        reply,
    );
    *board = out.board;
    out.answer
}

// A mount: what stood in the record is lost, also where the mount is refused.
pub fn mount_in_place(image: &[u8], blocks: u8, board: &mut Record) -> Answer
    ensures { (let o : Out = mount_on blocks image.now in (result ≡ o.answer) × (board.new ≡ o.board)) }
{
    let out = store::mount(image, blocks);
    *board = out.board;
    out.answer
}

// A format, likewise: two calls of one form stand apart, since a function that is given which to call is no shorter.
pub fn format_in_place(image: &[u8], blocks: u8, board: &mut Record) -> Answer
    ensures { (let o : Out = format_on blocks image.now in (result ≡ o.answer) × (board.new ≡ o.board)) }
{
    let out = store::format(image, blocks);
    *board = out.board;
    out.answer
}

// ---- for callers that hold the record by value: it is lent here

pub fn step_lent(image: &mut [u8], blocks: u8, mut board: Record) -> Outcome
    ensures { (let o : Out = step_on blocks image.old board in
        (image.new ≡ o.image) × (result.answer ≡ o.answer) × (result.board ≡ o.board)) }
{
    let answer = step_in_place(image, blocks, &mut board);
    Outcome { answer, board }
}

pub fn request_lent(
    image: &[u8],
    blocks: u8,
    mut board: Record,
    host: Host,
    message: &[u8],
    reply: &mut [u8],
) -> Outcome
    ensures { (let o : Out = request_on (asking blocks image.now board host message.now reply.old) in
        (result.answer ≡ o.answer) × (result.board ≡ o.board) × (reply.new ≡ o.reply)) }
{
    let answer = request_in_place(image, blocks, &mut board, host, message, reply);
    Outcome { answer, board }
}
