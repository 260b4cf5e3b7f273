// Messages, answers and the log page: what hosts send, and what they get.
#![tactic(auto)]

ghost use Rattle.std.specs.Prelude.{◌≡◌, ◌+◌, ◌<◌, get_or};
ghost use Rattle.wire.specs.Answer.{refusal_number, edge_number, refused_number, field_number, spot, refusal_spot, spot_of};
ghost use Rattle.wire.specs.Message.{word_at, id_in, value_in_of, only_id, no_body, id_and_value, summary_page, of_kind, parse, of_read_kind, log_page};
ghost use Rattle.wire.specs.Code.{overlay, page_into, value_place};

use frame::{BODY_AT, Fault, Field, ID_MAX, KIND_AT, ObjectId, VALUE_MAX};

// What a log request asks for.
#[derive(Clone, Copy, PartialEq, Eq)]
pub enum Page {
    Summary,
}

// What a host asks for. A put's value is the message past its id.
#[derive(Clone, Copy, PartialEq, Eq)]
pub enum Request {
    Put(ObjectId),
    Delete(ObjectId),
    Commit,
    Abort,
    Read(ObjectId),
    Log(Page),
    Convert,
}

// Why a call is refused. A mount names the half that it can't take, and in it the first bad field.
#[derive(Clone, Copy, PartialEq, Eq)]
pub enum Refusal {
    Malformed,
    NoStore,
    Foreign(u8, Fault),
    ImageLength,
    Busy,
    Worn,
    NoRoom,
    NoObject,
    ShortReply,
    HostRange,
    Stale,
    HostFull,
    Pending,
}

// What a call answers.
#[derive(Clone, Copy, PartialEq, Eq)]
pub enum Answer {
    Done,
    More,
    Refused(Refusal),
}

// What a refused mount names: a half, the number of a field (0 for none) and its offset in the half.
#[derive(Clone, Copy, Default)]
pub struct Spot {
    pub half: u8,
    pub field: u8,
    pub place: usize,
}

// Where a message's id ends, a put's value starts; and the longest put.
const ID_END: usize = BODY_AT + 2;

const PUT_MAX: usize = ID_END + VALUE_MAX;

// The length of a log request.
const LOG_LEN: usize = BODY_AT + 1;

// The length of log page 1.
const PAGE_LEN: u8 = 14;

// Offsets and the greatest id, as words of a message are counted.
const KIND: u8 = KIND_AT as u8;

const BODY: u8 = BODY_AT as u8;

const LAST_ID: u16 = ID_MAX as u16;

// The number that two bytes are, each 0 past the message's end.
pub fn word_at(m: &[u8], i: u8) -> u16
    ensures { result ≡ word_at m.now i }
{
    let at = i as usize;
    u16::from_le_bytes([flash::get_or(m, at, 0), flash::get_or(m, at + 1, 0)])
}

pub fn id_in(m: &[u8]) -> ObjectId
    ensures { result ≡ id_in m.now }
{
    ObjectId(word_at(m, BODY))
}

// A message of a read's kind, malformed or not.
pub fn is_read_kind(m: &[u8]) -> bool
    ensures { result ≡ of_read_kind m.now }
{
    BODY_AT <= m.len() && word_at(m, KIND) == 0x0105
}

fn only_id(m: &[u8]) -> bool
    ensures { result ≡ only_id m.now }
{
    m.len() == ID_END && word_at(m, BODY) <= LAST_ID
}

fn no_body(m: &[u8]) -> bool
    ensures { result ≡ no_body m.now }
{
    m.len() == BODY_AT
}

fn id_and_value(m: &[u8]) -> bool
    ensures { result ≡ id_and_value m.now }
{
    (ID_END..=PUT_MAX).contains(&m.len()) && word_at(m, BODY) <= LAST_ID
}

fn summary_page(m: &[u8]) -> bool
    ensures { result ≡ summary_page m.now }
{
    m.len() == LOG_LEN && flash::get_or(m, BODY_AT, 0) == 1
}

// The request that a message of a kind is, if its body is as the kind asks.
fn of_kind(kind: u16, m: &[u8]) -> Option<Request>
    ensures { result ≡ of_kind kind m.now }
{
    match kind {
        0x0101 => id_and_value(m).then_some(Request::Put(id_in(m))),
        0x0102 => only_id(m).then_some(Request::Delete(id_in(m))),
        0x0103 => no_body(m).then_some(Request::Commit),
        0x0104 => no_body(m).then_some(Request::Abort),
        0x0105 => only_id(m).then_some(Request::Read(id_in(m))),
        0x0106 => summary_page(m).then_some(Request::Log(Page::Summary)),
        0x0108 => no_body(m).then_some(Request::Convert),
        _ => None,
    }
}

// What a message asks for; none of a malformed one.
#[tactic(auto, unfolding(crate::specs::Message::parse))]
pub fn parse(message: &[u8]) -> Option<Request>
    ensures { result ≡ parse message.now }
{
    if BODY_AT <= message.len() && word_at(message, 0) as usize == message.len() {
        of_kind(word_at(message, KIND), message)
    } else {
        None
    }
}

impl From<Refusal> for u8 {
    ghost from_gives = { λ why n. n ≡ refusal_number why };

    fn from(why: Refusal) -> u8 {
        match why {
            Refusal::Malformed => 1,
            Refusal::NoStore => 2,
            Refusal::Foreign(_, _) => 3,
            Refusal::ImageLength => 4,
            Refusal::Busy => 5,
            Refusal::Worn => 6,
            Refusal::NoRoom => 7,
            Refusal::NoObject => 8,
            Refusal::ShortReply => 9,
            Refusal::HostRange => 10,
            Refusal::Stale => 11,
            Refusal::HostFull => 12,
            Refusal::Pending => 16,
        }
    }
}

// An answer's number; "more", which has none, is 255.
pub fn number(answer: Answer) -> u8
    ensures { result ≡ edge_number answer }
{
    match answer {
        Answer::Done => 0,
        Answer::More => 255,
        Answer::Refused(why) => u8::from(why),
    }
}

// A refusal's number; 0 for any other answer.
pub fn refused(answer: Answer) -> u8
    ensures { result ≡ refused_number answer }
{
    match answer {
        Answer::Done | Answer::More => 0,
        Answer::Refused(why) => u8::from(why),
    }
}

// A field's number in C's header. No `From`: both types are other crates', so the impl can't stand here.
fn field_number(field: Field) -> u8
    ensures { result ≡ field_number field }
{
    match field {
        Field::Length => 1,
        Field::Kind => 2,
        Field::Host => 3,
        Field::Id => 4,
        Field::Finish => 5,
        Field::Created => 6,
        Field::State => 7,
        Field::Spare => 8,
        Field::Crc => 9,
    }
}

// What an answer names: only a mount's 3 names something.
pub fn spot_of(answer: Answer) -> Spot
    ensures { result ≡ spot_of answer }
{
    match answer {
        Answer::Refused(Refusal::Foreign(half, fault)) => Spot {
            half,
            field: field_number(fault.field),
            place: fault.place,
        },
        _ => Spot::default(),
    }
}

// A put's value: a part of the message itself, empty where the message is too short.
pub fn value(message: &[u8]) -> &[u8]
    ensures value { result.now ≡ value_in_of message.now }
    ensures place { (result.ref_ptr.0 ≡ message.entry.ref_ptr.0) × (result.ref_ptr.1 ≡ value_place message.now + message.entry.ref_ptr.1) }
{
    &message[message.len().min(ID_END)..]
}

// Lays a source over the first bytes of a slice that is no shorter.
#[tactic(auto, unfolding(crate::specs::Code::overlay))]
pub fn lay(bytes: &mut [u8], source: &[u8])
    ensures { bytes.new ≡ overlay source.now bytes.old }
{
    let n = source.len();
    if n <= bytes.len() {
        bytes[..n].copy_from_slice(source);
    }
}

// Writes log page 1 to a reply that has room for it; later bytes stay.
pub fn write_page(reply: &mut [u8], time: u32, count: u16, used: u16, size: u16)
    ensures { reply.new ≡ page_into (log_page time count used size) reply.old }
{
    let [t0, t1, t2, t3] = time.to_le_bytes();
    let [c0, c1] = count.to_le_bytes();
    let [u0, u1] = used.to_le_bytes();
    let [s0, s1] = size.to_le_bytes();
    let page = [
        PAGE_LEN, 0, 0x01, 0x02, t0, t1, t2, t3, c0, c1, u0, u1, s0, s1,
    ];
    lay(reply, &page);
}
