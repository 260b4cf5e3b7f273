// Queue requests: the refusals in document 01's order.
ghost use Rattle.std.specs.Prelude.{◌≡◌};
ghost use Rattle.board.specs.Record.{resting, Out};
ghost use Rattle.board.specs.Queue.{asking, request_on};
ghost use Rattle.job.specs.Code.{outcome};
ghost use Rattle.serving.specs.Calls.{kept_or, begun_or};
ghost use Rattle.queue.specs.Calls.{left, Asked};

use crate::{gate, held, reads};
use board::{Phase, Record, Rest};
use frame::{BUFFER_LEN, Host};
use job::records::Stepped;
use job::{Outcome, records};
use wire::{Answer, Refusal};

// The record after a request: as it was, unless a job began.
fn kept_or(s: Stepped, board: Record, places: [u16; 256], frame: [u8; BUFFER_LEN]) -> Outcome
    ensures { result ≡ outcome s.answer (kept_or s.answer board s.next places frame) }
{
    match s.answer {
        Answer::More => Outcome {
            answer: s.answer,
            board: records::assemble(s.next, places, records::no_frame(), frame),
        },
        Answer::Done | Answer::Refused(_) => Outcome {
            answer: s.answer,
            board,
        },
    }
}

// What a request comes to, or the first refusal: a read goes by its place, any other by the block read afresh.
fn try_request(
    image: &[u8],
    blocks: u8,
    phase: Phase,
    rest: Rest,
    recorded: &[u16; 256],
    host: Host,
    message: &[u8],
    reply: &mut [u8],
    places: &mut [u16; 256],
    frame: &mut [u8; BUFFER_LEN],
) -> Result<Stepped, Refusal>
    ensures { Asked
        (asking blocks image.now (resting phase recorded.now rest) host message.now reply.old)
        (begun_or rest result) (left places.new frame.new reply.new) }
{
    let image = gate::check(image, blocks, phase, host)?;
    if wire::is_read_kind(message) {
        let place = serving::place_of(recorded, wire::id_in(message));
        reads::hear(&image, rest, place, message)?;
        return Ok(serving::done(rest));
    }
    if !held::same_image(&image, rest) {
        return Err(Refusal::Stale);
    }
    let block = image.block(rest.block);
    let s = survey::survey_block(block, places);
    if !held::is_fresh(block.len(), rest, recorded, s, places) {
        return Err(Refusal::Stale);
    }
    let ask = wire::parse(message).ok_or(Refusal::Malformed)?;
    serving::serve(block, rest, host, message, reply, s, places, frame, ask)
}

// A request by the record's phase, where it stands and its places. Where a job began the answer is more, and the arrays that are lent have
// its places and frame; else they hold nothing of use.
pub fn request_core(
    image: &[u8],
    blocks: u8,
    phase: Phase,
    rest: Rest,
    recorded: &[u16; 256],
    host: Host,
    message: &[u8],
    reply: &mut [u8],
    places: &mut [u16; 256],
    frame: &mut [u8; BUFFER_LEN],
) -> Stepped
    ensures { Asked
        (asking blocks image.now (resting phase recorded.now rest) host message.now reply.old)
        result (left places.new frame.new reply.new) }
{
    try_request(
        image, blocks, phase, rest, recorded, host, message, reply, places, frame,
    )
    .unwrap_or_else(|why| serving::refused(why, rest))
}

pub fn request(
    image: &[u8],
    blocks: u8,
    board: Record,
    host: Host,
    message: &[u8],
    reply: &mut [u8],
) -> Outcome
    ensures { (let o : Out = request_on (asking blocks image.now board host message.now reply.old) in
        (result.answer ≡ o.answer) × (result.board ≡ o.board) × (reply.new ≡ o.reply)) }
{
    let mut places = records::no_places();
    let mut frame = records::no_frame();
    let s = request_core(
        image,
        blocks,
        board.phase,
        board.rest,
        &board.places,
        host,
        message,
        reply,
        &mut places,
        &mut frame,
    );
    kept_or(s, board, places, frame)
}
