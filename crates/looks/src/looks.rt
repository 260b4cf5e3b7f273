// One look at each block of an image, the last first: what mount and format have to know of them.
ghost use Rattle.std.specs.Prelude.{◌≡◌, ◌<◌};
ghost use Rattle.flash.specs.Flash.{max_blocks};
ghost use Rattle.looks.specs.Surveys.{is_blank_kind, or_foreign_kind};
ghost use Rattle.looks.specs.Seen.{takes_over, newer, same_above, seeing, none_seen_of, Sees};

use crate::image::Image;
use crate::surveys;
use flash::MAX_BLOCKS;
use frame::Edition;
use job::records;
use survey::{BlockKind, Survey};
use wire::Refusal;

// The valid block with the largest time, the lowest of several.
#[derive(Clone, Copy)]
pub struct Newest {
    pub number: u8,
    pub time: u32,
    pub end: u16,
    // the length of a torn frame after its whole ones, 0 for none: no frame is so short, and sums go by it
    pub torn: u16,
    // something is pending
    pub pends: bool,
    // another valid block has its time
    pub shared: bool,
    pub edition: Edition,
}

#[derive(Clone, Copy)]
pub struct Seen {
    // each block's creation time, and whether it is blank: two arrays, since the one is searched and the other passed on, each alone.
    // A time is 0 if the block isn't valid: no valid one has that, and Options would take twice as much of the stack
    pub times: [u32; MAX_BLOCKS],
    pub blanks: [bool; MAX_BLOCKS],
    // why no block is taken, if none is valid
    pub why: Refusal,
    pub newest: Option<Newest>,
    // the lowest block whose time another valid one has
    pub tie: Option<u8>,
}

fn is_blank(kind: BlockKind) -> bool
    ensures { result ≡ is_blank_kind kind }
{
    kind == BlockKind::Blank
}

// A foreign block is named, with its fault.
fn or_foreign(number: u8, kind: BlockKind, why: Refusal) -> Refusal
    ensures { result ≡ or_foreign_kind number kind why }
{
    match kind {
        BlockKind::Foreign(fault) => Refusal::Foreign(number, fault),
        _ => why,
    }
}

// A valid block no older than the newest so far.
fn takes_over(newest: Option<Newest>, s: Survey) -> bool
    ensures { result ≡ takes_over newest s }
{
    surveys::is_valid(s.kind) && newest.is_none_or(|w| w.time <= s.time)
}

fn newer(newest: Option<Newest>, number: u8, s: Survey, shared: bool) -> Option<Newest>
    ensures { result ≡ newer newest number s shared }
{
    if !takes_over(newest, s) {
        return newest;
    }
    Some(Newest {
        number,
        time: s.time,
        end: s.end,
        torn: s.torn,
        pends: 0 < surveys::sum(s.pending),
        shared,
        edition: s.edition,
    })
}

impl Seen {
    // No block yet.
    fn new() -> Seen
        ensures { result ≡ none_seen_of }
    {
        Seen {
            times: [0; MAX_BLOCKS],
            blanks: [false; MAX_BLOCKS],
            why: Refusal::NoStore,
            newest: None,
            tie: None,
        }
    }

    // A valid block has the time of one above it.
    fn shares_time(&self, number: u8, s: Survey) -> bool
        requires { number < max_blocks }
        ensures { result ≡ same_above number s self.now.times }
    {
        surveys::is_valid(s.kind)
            && self.times[usize::from(number) + 1..]
                .iter()
                .any(|time| *time == s.time)
    }

    // One block more, below those seen so far.
    fn add(&mut self, number: u8, s: Survey)
        requires { number < max_blocks }
        ensures { self.new ≡ seeing number s self.old }
    {
        let shared = self.shares_time(number, s);
        self.newest = newer(self.newest, number, s, shared);
        self.tie = shared.then_some(number).or(self.tie);
        self.why = or_foreign(number, s.kind, self.why);
        self.times[usize::from(number)] = s.time;
        self.blanks[usize::from(number)] = is_blank(s.kind);
    }
}

// All blocks, and the newest one's places.
pub fn look(image: &Image<'_>, places: &mut [u16; 256]) -> Seen
    ensures { Sees image.now.blocks image.now.bytes.now places.old result places.new }
{
    let mut table = records::no_places();
    let mut seen = Seen::new();
    for k in (0..image.blocks).rev() {
        let s = survey::survey_block(image.block(k), &mut table);
        if takes_over(seen.newest, s) {
            *places = table;
        }
        seen.add(k, s);
    }
    seen
}
