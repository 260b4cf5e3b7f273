// What each frame of a block adds to what was found before it.
ghost use Rattle.std.specs.Prelude.{◌≡◌, ℕ, ◌+◌, ◌≤◌, ◌<◌, length, get_or, set, take};
ghost use Rattle.frame.specs.Code.{head_len};
ghost use Rattle.journal.specs.Block.{header_len, block_max};
ghost use Rattle.journal.specs.Room.{per_host};
ghost use Rattle.survey.specs.Pass.{progress, place_head, recommit, took_frame, took_places};

use crate::Progress;
use crate::block::{Block, START};
use frame::{Head, Host};

// A host's put or delete at an offset, as its commit applies it.
#[tactic(auto, unfolding(crate::specs::Pass::place_head))]
fn place_own(places: &mut [u16; 256], host: Host, at: u16, head: Head)
    ensures { places.new ≡ place_head host at head places.old }
{
    match head {
        Head::Put(h, id, _) if h == host => flash::set_at(places, usize::from(id.0), at),
        Head::Delete(h, id) if h == host => flash::set_at(places, usize::from(id.0), 0),
        _ => (),
    }
}

// A commit of a host where a block's frames end, which were found whole before: its puts and deletes from its `since` on, by their heads.
pub fn commit(block: Block, end: u16, since: [u16; 4], host: Host, places: &mut [u16; 256])
    ensures { places.new ≡ recommit block.entry.edition (take end block.entry.bytes.now) host (get_or since host.0 0) places.old }
{
    let part = flash::front(block.bytes, end as usize);
    let mut at = usize::from(fetch::of_host(since, host));
    // a frame's length at a time: no iterator of std does
    while at < part.len() {
        let head = reader::peek(part, block.edition, at);
        place_own(places, host, at as u16, head);
        at += frame::frame_len(block.edition, head);
    }
}

impl Progress {
    // Before the first frame.
    pub(crate) fn start() -> Self
        ensures { result ≡ progress header_len 0 (per_host (λ h. header_len)) (per_host (λ h. 0)) }
    {
        Progress {
            end: START,
            next: 0,
            since: [START; 4],
            pending: [0; 4],
        }
    }

    // A host's change of n bytes, which end at `end`.
    fn grow(self, host: Host, n: u16, end: u16) -> Self
        requires { get_or self.pending host.0 0 + n ≤ end }
        ensures { result ≡ progress end 256 self.since (set self.pending host.0 (get_or self.pending host.0 0 + n)) }
    {
        let own = fetch::of_host(self.pending, host) + n;
        let pending = fetch::with_host(self.pending, host, own);
        Progress {
            end,
            next: 256,
            pending,
            ..self
        }
    }

    // A host's commit or abort.
    fn end_list(self, host: Host, end: u16) -> Self
        ensures { result ≡ progress end 256 (set self.since host.0 end) (set self.pending host.0 0) }
    {
        let since = fetch::with_host(self.since, host, end);
        let pending = fetch::with_host(self.pending, host, 0);
        Progress {
            end,
            next: 256,
            since,
            pending,
        }
    }

    // One frame more. It lies in the block; what is pending lies there too.
    #[tactic(auto, unfolding(crate::specs::Pass::took_frame, crate::specs::Pass::took_places, crate::specs::Pass::grown, crate::specs::Pass::ended, crate::specs::Pass::ended_all, crate::specs::Pass::passed))]
    pub(crate) fn take(self, block: Block, head: Head, places: &mut [u16; 256]) -> Self
        requires { (self.end + head_len block.edition head ≤ length block.bytes.now) × ((k : ℕ) → get_or self.pending k 0 ≤ self.end) }
        ensures { (result ≡ took_frame block.entry.edition self head)
            × (places.new ≡ took_places block.entry.edition block.entry.bytes.now self head places.old) }
    {
        let size = frame::frame_len(block.edition, head) as u16;
        let end = self.end + size;
        match head {
            Head::Put(host, _, _) | Head::Delete(host, _) => self.grow(host, size, end),
            Head::Commit(host) => {
                commit(block, self.end, self.since, host, places);
                self.end_list(host, end)
            }
            Head::Abort(host) => self.end_list(host, end),
            Head::Settled(id, _) => {
                flash::set_at(places, usize::from(id.0), self.end);
                Progress {
                    end,
                    next: usize::from(id.0) + 1,
                    ..self
                }
            }
            Head::Closed(_) => Progress {
                end,
                next: 256,
                ..self
            },
            Head::Reset => Progress {
                end,
                next: 256,
                since: [end; 4],
                pending: [0; 4],
            },
        }
    }
}
