// Frames: what a journal is made of.
#![tactic(auto)]

ghost use Rattle.std.specs.Prelude.{◌≡◌};
ghost use Rattle.frame.specs.Frame.{edition_number, edition_by, check_len};
ghost use Rattle.frame.specs.Code.{head_len, value_len_of, value_start};

mod bytes;

pub use bytes::encode_frame;

// A host's number: the port that a message came in by.
#[derive(Clone, Copy, PartialEq, Eq)]
pub struct Host(pub u8);

// An object's number. Neither number may ever stand in for the other.
#[derive(Clone, Copy, PartialEq, Eq)]
pub struct ObjectId(pub u16);

// The fields of a frame and of a block's header, by which a fault is told.
#[derive(Clone, Copy, PartialEq, Eq)]
pub enum Field {
    Length,
    Kind,
    Host,
    Id,
    Crc,
    Finish,
    Created,
    State,
    Spare,
}

// The editions of the format: in the second each frame has a CRC-32.
#[derive(Clone, Copy, PartialEq, Eq)]
pub enum Edition {
    First,
    Second,
}

// The first bad field, and its offset in the block.
#[derive(Clone, Copy, PartialEq, Eq)]
pub struct Fault {
    pub field: Field,
    pub place: usize,
}

// The greatest host and the greatest id.
pub const HOST_MAX: usize = 3;

pub const ID_MAX: usize = 255;

// The most bytes that a value has.
pub const VALUE_MAX: usize = 240;

// The offsets in a frame: kind, body, and the value, a put's past its host and id, a settled frame's past its id.
pub const KIND_AT: usize = 2;

pub const BODY_AT: usize = 4;

pub const PUT_VALUE_AT: usize = BODY_AT + 3;

pub const SETTLED_VALUE_AT: usize = BODY_AT + 2;

// The kinds' numbers in a frame. `Head` is the enum of kinds; these are bytes, of which a reader tests ranges and which any byte may stand for: as
// an enum beside it, each use would turn into its number again.
pub const CLOSED_KIND: u8 = 0;

pub const PUT_KIND: u8 = 1;

pub const DELETE_KIND: u8 = 2;

pub const COMMIT_KIND: u8 = 3;

pub const ABORT_KIND: u8 = 4;

pub const SETTLED_KIND: u8 = 5;

pub const RESET_KIND: u8 = 7;

// A frame's last byte.
pub const FINISH: u8 = 254;

// The lengths by kind, without the check and the value; a commit and an abort are ends.
pub const PUT_LEN: u8 = 8;

pub const DELETE_LEN: u8 = 8;

pub const END_LEN: u8 = 6;

pub const SETTLED_LEN: u8 = 7;

// A reset's, and a closed frame's without what it ignores.
pub const RESET_LEN: u8 = 5;

// The longest frame: a put of the longest value, in the second edition.
pub const BUFFER_LEN: usize = PUT_LEN as usize + 4 + VALUE_MAX;

// A frame without its value's bytes: how many there are.
#[derive(Clone, Copy, PartialEq, Eq)]
pub enum Head {
    Put(Host, ObjectId, u8),
    Delete(Host, ObjectId),
    Commit(Host),
    Abort(Host),
    Settled(ObjectId, u8),
    Closed(u8),
    Reset,
}

// What stands at a place: of a torn frame its length, of wrong bytes the first bad field. Four outcomes, each its own: no Option or Result says them.
#[derive(Clone, Copy)]
pub enum FrameRead {
    Blank,
    Whole(Head),
    Torn(usize),
    Wrong(Fault),
}

// How many bytes a frame's check has.
pub fn check_len(edition: Edition) -> u8
    ensures { result ≡ check_len edition }
{
    match edition {
        Edition::First => 0,
        Edition::Second => 4,
    }
}

// An edition's number.
impl From<Edition> for u8 {
    ghost from_gives = { λ edition n. n ≡ edition_number edition };

    fn from(edition: Edition) -> u8 {
        match edition {
            Edition::First => 1,
            Edition::Second => 2,
        }
    }
}

// The edition that has a number: 2 is the second's, any other the first's.
impl From<u8> for Edition {
    ghost from_gives = { λ n edition. edition ≡ edition_by n };

    fn from(n: u8) -> Edition {
        match n {
            2 => Edition::Second,
            _ => Edition::First,
        }
    }
}

// The length of a frame.
pub fn frame_len(edition: Edition, head: Head) -> usize
    ensures { result ≡ head_len edition head }
{
    let check = check_len(edition) as usize;
    match head {
        Head::Put(_, _, n) => PUT_LEN as usize + check + n as usize,
        Head::Delete(_, _) => DELETE_LEN as usize + check,
        Head::Commit(_) | Head::Abort(_) => END_LEN as usize + check,
        Head::Settled(_, n) => SETTLED_LEN as usize + check + n as usize,
        Head::Closed(n) => RESET_LEN as usize + n as usize,
        Head::Reset => RESET_LEN as usize + check,
    }
}

// How many bytes a frame's value has.
pub fn value_len(head: Head) -> usize
    ensures { result ≡ value_len_of head }
{
    match head {
        Head::Put(_, _, n) | Head::Settled(_, n) | Head::Closed(n) => n as usize,
        Head::Delete(_, _) | Head::Commit(_) | Head::Abort(_) | Head::Reset => 0,
    }
}

// Where in a frame its value starts.
pub fn value_offset(head: Head) -> usize
    ensures { result ≡ value_start head }
{
    match head {
        Head::Put(_, _, _) => PUT_VALUE_AT,
        Head::Settled(_, _) => SETTLED_VALUE_AT,
        Head::Closed(_) => BODY_AT,
        Head::Delete(_, _) | Head::Commit(_) | Head::Abort(_) | Head::Reset => 0,
    }
}
