// A block surveyed: all that a board has to know of it, in one pass.
ghost use Rattle.std.specs.Prelude.{◌≡◌, ◌≤◌, ◌<◌, length, replicate, unwrap_or};
ghost use Rattle.std.proofs.Math.Option.{none};
ghost use Rattle.frame.specs.Code.{peek_at, value_len_of};
ghost use Rattle.journal.specs.Block.{header_len, block_max, edition_in, of_header};
ghost use Rattle.journal.specs.Index.{places_of};
ghost use Rattle.survey.specs.Survey.{survey_of, places_in, state_of, Judged};
ghost use Rattle.survey.specs.Pass.{scan_block, lengths_at, tally_of, walk_of, empty_survey, found_survey, commit_in};

use crate::{BlockKind, Progress, Survey, Tally, Walk, header, pass};
use frame::{Edition, Fault, Field, FrameRead, Host, SETTLED_LEN};
use journal::{BLOCK_MAX, HEADER_LEN, IN_TRANSFER, STATE_AT};

// Where a block's frames start, as offsets are counted.
pub const START: u16 = HEADER_LEN as u16;

// A block by its edition, short enough that its offsets fit a u16.
#[derive(Clone, Copy)]
pub struct Block<'a> {
    pub bytes: &'a [u8],
    pub edition: Edition,
    pub ghost short: { length bytes.now ≤ block_max },
}

impl<'a> Block<'a> {
    // The frames up to the tail, which may be at fault. No id has a place yet.
    fn walk(self, places: &mut [u16; 256]) -> Result<Walk, Fault>
        requires { places.old ≡ replicate 256 0 }
        ensures { (result ≡ walk_of self.entry.edition (scan_block self.entry.edition self.entry.bytes.now))
            × (places.new ≡ places_of self.entry.edition (scan_block self.entry.edition self.entry.bytes.now).frames) }
    {
        let mut p = Progress::start();
        // three of the four answers end it, each in its own way
        loop {
            match reader::read_frame(self.bytes, self.edition, p.end as usize, p.next) {
                FrameRead::Whole(head) => p = p.take(self, head, places),
                FrameRead::Blank => {
                    return Ok(Walk {
                        progress: p,
                        torn: None,
                    });
                }
                FrameRead::Torn(n) => {
                    return Ok(Walk {
                        progress: p,
                        torn: Some(n),
                    });
                }
                FrameRead::Wrong(fault) => return Err(fault),
            }
        }
    }

    // How long the value of the frame at a place is, which was found whole before.
    fn length_at(self, place: u16) -> usize
        ensures { result ≡ value_len_of (peek_at self.entry.edition self.entry.bytes.now place) }
    {
        frame::value_len(reader::peek(self.bytes, self.edition, place as usize))
    }

    // The settled objects that the places tell of, whose U is at most a block's length.
    fn tally(self, places: &[u16; 256]) -> Tally
        requires { (tally_of self.edition (lengths_at self.edition self.bytes.now places.now 256 0)).used ≤ block_max }
        ensures { result ≡ tally_of self.entry.edition (lengths_at self.entry.edition self.entry.bytes.now places.now 256 0) }
    {
        let least = usize::from(SETTLED_LEN) + usize::from(frame::check_len(self.edition));
        let mut count = 0;
        let mut used = START;
        for place in places {
            if *place != 0 {
                count += 1;
                used += (least + self.length_at(*place)) as u16;
            }
        }
        Tally { count, used }
    }

    // A valid block, with its places.
    fn found(self, places: &[u16; 256], walk: Walk) -> Survey
        requires { (unwrap_or walk.torn 0 ≤ block_max) × ((tally_of self.edition (lengths_at self.edition self.bytes.now places.now 256 0)).used ≤ block_max) }
        ensures { result ≡ found_survey self.entry.edition self.entry.bytes.now places.now walk.progress (unwrap_or walk.torn 0) }
    {
        let Progress {
            end,
            since,
            pending,
            ..
        } = walk.progress;
        let Tally { count, used } = self.tally(places);
        Survey {
            kind: BlockKind::Valid,
            edition: self.edition,
            time: header::created(self.bytes),
            end,
            torn: walk.torn.unwrap_or(0) as u16,
            since,
            pending,
            count,
            used,
        }
    }

    // A block whose header is without fault. It has one; no id has a place yet.
    fn survey(self, places: &mut [u16; 256]) -> Result<Survey, Fault>
        requires { (header_len ≤ length self.bytes.now) × (self.edition ≡ edition_in self.bytes.now) × (places.old ≡ replicate 256 0) }
        ensures { Judged (of_header self.entry.bytes.now none) result places.new }
    {
        match self.walk(places) {
            Ok(walk) => Ok(self.found(places, walk)),
            Err(fault) => {
                places.fill(0);
                Err(fault)
            }
        }
    }
}

// A block that isn't valid.
fn empty(kind: BlockKind) -> Survey
    ensures { result ≡ empty_survey kind }
{
    Survey {
        kind,
        edition: Edition::First,
        time: 0,
        end: START,
        torn: 0,
        since: [START; 4],
        pending: [0; 4],
        count: 0,
        used: START,
    }
}

// A block and the place of every id, or a foreign block's fault. The table is cleared at the start, and again only where frames were walked.
#[tactic(auto, unfolding(crate::specs::Survey::state_of, journal::specs::Block::block_state))]
fn judge(block: &[u8], places: &mut [u16; 256]) -> Result<Survey, Fault>
    ensures { Judged (state_of block.now) result places.new }
{
    places.fill(0);
    if block.len() < HEADER_LEN || BLOCK_MAX < block.len() {
        return Err(Fault {
            field: Field::Length,
            place: 0,
        });
    }
    if flash::is_blank(block) {
        return Ok(empty(BlockKind::Blank));
    }
    if flash::byte_at(block, STATE_AT) == IN_TRANSFER {
        return Ok(empty(BlockKind::InProgress));
    }
    header::header_fault(block)?;
    let block = Block {
        bytes: block,
        edition: header::edition_in(block),
    };
    block.survey(places)
}

// All that there is to know of a block, and the place of every id.
pub fn survey_block(block: &[u8], places: &mut [u16; 256]) -> Survey
    ensures { (result ≡ survey_of (state_of block.now)) × (places.new ≡ places_in (state_of block.now)) }
{
    match judge(block, places) {
        Ok(survey) => survey,
        Err(fault) => empty(BlockKind::Foreign(fault)),
    }
}

// A host's commit after the frames of a block with this survey: its list applied to the places.
pub fn commit(block: &[u8], s: Survey, host: Host, places: &mut [u16; 256])
    requires { length block.now ≤ block_max }
    ensures { places.new ≡ commit_in block.now s host places.old }
{
    let block = Block {
        bytes: block,
        edition: s.edition,
    };
    pass::commit(block, s.end, s.since, host, places);
}
