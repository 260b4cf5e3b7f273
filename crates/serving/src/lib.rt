// The requests, once nothing earlier refuses them.
#![tactic(auto)]

ghost use Rattle.std.specs.Prelude.{◌≡◌, ◌≤◌, length, take, get_or};
ghost use Rattle.frame.specs.declared.Edition.TheVariants as edition;
ghost use Rattle.frame.specs.Frame.{value_max};
ghost use Rattle.frame.specs.Code.{frame_of};
ghost use Rattle.journal.specs.Block.{block_max};
ghost use Rattle.wire.specs.Message.{parse};
ghost use Rattle.board.specs.Record.{counting};
ghost use Rattle.serving.specs.Calls.{done, refused, begun_or, append_in, change_in, end_in, committed, log_in, convert_in, convert_by};
ghost use Rattle.serving.specs.Calls.{serve_in, places_by, reply_in, reply_log, bytes_of, frame_in};

pub mod room;

use board::{Job, Phase, Rest};
use frame::{BUFFER_LEN, Edition, Head, Host, ObjectId};
use job::records;
use job::records::Stepped;
use looks::{image, surveys};
use survey::Survey;
use wire::{Answer, Page, Refusal, Request};

// A summary page's length, as wire writes it, whose own constant is private.
const PAGE_LEN: usize = 14;

// Nothing began: what is to be answered.
pub fn done(rest: Rest) -> Stepped
    ensures { result ≡ done rest }
{
    records::at_rest(Answer::Done, Phase::Idle, rest)
}

pub fn refused(why: Refusal, rest: Rest) -> Stepped
    ensures { result ≡ refused why rest }
{
    records::at_rest(Answer::Refused(why), Phase::Idle, rest)
}

// An id's place; 0 for an id that isn't there. `get_or` at its callers would be no plainer: each would take the id's number out.
pub fn place_of(places: &[u16], id: ObjectId) -> u16
    ensures { result ≡ get_or places.now id.0 0 }
{
    flash::get_or(places, usize::from(id.0), 0)
}

// The same place, with so much pending.
fn counting(rest: Rest, pending: [u16; 4]) -> Rest
    ensures { result ≡ counting rest pending }
{
    Rest { pending, ..rest }
}

// The store that a request meets: its block's size, where its record stands, and what is known of the block.
#[derive(Clone, Copy)]
struct Held {
    size: u16,
    rest: Rest,
    survey: Survey,
}

impl Held {
    // A frame of n bytes appended, after a transfer if it goes past the block's end. With it the hosts have so much pending.
    #[tactic(auto, unfolding(crate::specs::Calls::append_in))]
    fn append(self, n: u8, pending: [u16; 4]) -> Result<Stepped, Refusal>
        ensures { begun_or self.rest result ≡ append_in self.size self.rest self.survey n pending }
    {
        let Held { size, rest, survey } = self;
        let Survey {
            edition,
            time,
            since,
            ..
        } = survey;
        let moves = usize::from(size) < usize::from(rest.end) + usize::from(n);
        let time = surveys::next_time(moves, time)?;
        let job = Job {
            moves,
            drops: true,
            target: image::next_block(rest.blocks, rest.block),
            time,
            since,
            size: n,
            edition: u8::from(edition),
            ..records::no_job()
        };
        let started = records::starting(0, records::START);
        Ok(records::begin(counting(rest, pending), job, started))
    }

    // A put or delete, which leaves so much besides.
    #[tactic(auto, unfolding(crate::specs::Calls::change_in))]
    fn serve_change(self, host: Host, n: u8, spare: u8) -> Result<Stepped, Refusal>
        ensures { begun_or self.rest result ≡ change_in self.size self.rest self.survey host n spare }
    {
        let room = usize::from(self.size);
        let pending = self.survey.pending;
        let bytes = usize::from(fetch::of_host(pending, host)) + usize::from(n);
        if room < 2 * bytes {
            return Err(Refusal::HostFull);
        }
        if room::no_room(room, self.survey, host, n, spare) {
            return Err(Refusal::NoRoom);
        }
        self.append(n, fetch::with_host(pending, host, bytes as u16))
    }

    // A commit or an abort: with nothing pending it is done at once.
    #[tactic(auto, unfolding(crate::specs::Calls::end_in))]
    fn serve_end(self, host: Host) -> Result<Stepped, Refusal>
        ensures { begun_or self.rest result ≡ end_in self.size self.rest self.survey host }
    {
        let Survey {
            edition,
            pending,
            ..
        } = self.survey;
        if fetch::of_host(pending, host) == 0 {
            return Ok(done(self.rest));
        }
        self.append(room::end_len(edition), fetch::with_host(pending, host, 0))
    }

    // A commit. Its list is applied to the places, unless a transfer is to place what it copies.
    fn serve_commit(
        self,
        block: &[u8],
        host: Host,
        places: &mut [u16; 256],
    ) -> Result<Stepped, Refusal>
        requires { length block.now ≤ block_max }
        ensures { (begun_or self.rest result ≡ end_in self.size self.rest self.survey host)
            × (places.new ≡ committed block.now self.survey host (begun_or self.rest result) places.old) }
    {
        let begun = self.serve_end(host)?;
        if !begun.ended && !begun.next.job.moves {
            survey::commit(block, self.survey, host, places);
        }
        Ok(begun)
    }

    #[tactic(auto, unfolding(crate::specs::Calls::log_in, wire::specs::Code::page_into))]
    fn serve_log(self, page: Page, reply: &mut [u8]) -> Result<Stepped, Refusal>
        ensures { (begun_or self.rest result ≡ log_in self.rest reply.old)
            × (reply.new ≡ reply_log self.size self.survey reply.old) }
    {
        match page {
            Page::Summary => {
                if reply.len() < PAGE_LEN {
                    return Err(Refusal::ShortReply);
                }
                let Survey {
                    time,
                    count,
                    used,
                    ..
                } = self.survey;
                wire::write_page(reply, time, count, used, self.size);
                Ok(done(self.rest))
            }
        }
    }

    // A transfer takes the store to the second edition. Nothing is pending: it starts to look for pending frames at the end.
    #[tactic(auto, unfolding(crate::specs::Calls::convert_by))]
    fn convert(self) -> Result<Stepped, Refusal>
        ensures { begun_or self.rest result ≡ convert_by self.rest self.survey edition.First }
    {
        let Held { rest, survey, .. } = self;
        let time = surveys::next_time(true, survey.time)?;
        let job = Job {
            moves: true,
            drops: true,
            target: image::next_block(rest.blocks, rest.block),
            time,
            edition: u8::from(Edition::Second),
            ..records::no_job()
        };
        Ok(records::begin(rest, job, records::starting(0, survey.end)))
    }

    // With something pending a store stays as it is.
    #[tactic(auto, unfolding(crate::specs::Calls::convert_in, crate::specs::Calls::convert_by))]
    fn serve_convert(self) -> Result<Stepped, Refusal>
        ensures { begun_or self.rest result ≡ convert_in self.size self.rest self.survey }
    {
        if 0 < surveys::sum(self.survey.pending) {
            return Err(Refusal::Pending);
        }
        if usize::from(self.size) < room::used_second(self.survey) {
            return Err(Refusal::NoRoom);
        }
        match self.survey.edition {
            Edition::First => self.convert(),
            Edition::Second => Ok(done(self.rest)),
        }
    }
}

// A frame's bytes. Of its own, so that the stack has them once and not for each kind.
fn lay(edition: Edition, head: Head, value: &[u8], frame: &mut [u8; BUFFER_LEN])
    ensures { frame.new ≡ bytes_of edition (frame_of head (take value_max value.now)) }
{
    *frame = frame::encode_frame(edition, head, value);
}

// The frame that a message asks to append, none for a convert; for a read or a log the buffer stays.
fn lay_frame(
    edition: Edition,
    host: Host,
    message: &[u8],
    ask: Request,
    frame: &mut [u8; BUFFER_LEN],
)
    ensures { frame.new ≡ frame_in edition host message.now ask frame.old }
{
    let value = wire::value(message);
    match ask {
        Request::Put(id) => lay(edition, Head::Put(host, id, 0), value, frame),
        Request::Delete(id) => lay(edition, Head::Delete(host, id), value, frame),
        Request::Commit => lay(edition, Head::Commit(host), value, frame),
        Request::Abort => lay(edition, Head::Abort(host), value, frame),
        Request::Read(_) | Request::Log(_) => {}
        Request::Convert => *frame = records::no_frame(),
    }
}

// What a message asks for, done: the job's numbers, its places and its frame. A read goes by its place: it is not for here.
// What is held and asked comes in parts, the block as a slice whose length is required: docs name `serve` so, and survey's `commit` asks the same.
pub fn serve(
    block: &[u8],
    rest: Rest,
    host: Host,
    message: &[u8],
    reply: &mut [u8],
    s: Survey,
    places: &mut [u16; 256],
    frame: &mut [u8; BUFFER_LEN],
    ask: Request,
) -> Result<Stepped, Refusal>
    requires { (parse message.now ≡ Some ask) × (length block.now ≤ block_max) }
    ensures { (begun_or rest result ≡ serve_in (length block.now) rest reply.old host message.now s ask)
        × (reply.new ≡ reply_in (length block.now) s reply.old ask)
        × (places.new ≡ places_by block.now s host (begun_or rest result) ask places.old)
        × (frame.new ≡ frame_in s.edition host message.now ask frame.old) }
{
    let n = room::change_len(s.edition);
    lay_frame(s.edition, host, message, ask, frame);
    let held = Held {
        size: block.len() as u16,
        rest,
        survey: s,
    };
    match ask {
        Request::Put(_) => {
            let v = wire::value(message).len() as u8;
            // it leaves room for a delete and a commit
            held.serve_change(host, n + v, n + room::end_len(s.edition))
        }
        Request::Delete(_) => held.serve_change(host, n, 0),
        Request::Commit => held.serve_commit(block, host, places),
        Request::Abort => held.serve_end(host),
        Request::Read(_) => Ok(done(rest)),
        Request::Log(page) => held.serve_log(page, reply),
        Request::Convert => held.serve_convert(),
    }
}
