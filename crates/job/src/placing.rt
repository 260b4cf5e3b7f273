// Where an id stands once its frame is copied.
ghost use Rattle.std.specs.Prelude.{◌≡◌, List, ℕ};
ghost use Rattle.frame.specs.Code.{frame_of};
ghost use Rattle.journal.specs.Index.{place_copied};
ghost use Rattle.job.specs.Code.{ends_by, committer};

use frame::{COMMIT_KIND, Head, Host};

// The host whose commit a frame is, by its bytes for kind and host.
pub fn committer(kind: u8, host: u8) -> Option<Host>
    ensures { result ≡ committer kind host }
{
    (kind == COMMIT_KIND).then_some(Host(host))
}

// The places once a frame is copied to an offset: a pending change counts already where the job ends with its host's commit.
pub fn place_copied(committer: Option<Host>, at: u16, head: Head, places: &mut [u16; 256])
    ensures { (v : List ℕ) → places.new ≡ place_copied (ends_by committer) at (frame_of head v) places.old }
{
    match head {
        Head::Put(host, id, _) if committer == Some(host) => {
            flash::set_at(places, id.0 as usize, at);
        }
        Head::Delete(host, id) if committer == Some(host) => {
            flash::set_at(places, id.0 as usize, 0);
        }
        Head::Settled(id, _) => flash::set_at(places, id.0 as usize, at),
        _ => {}
    }
}
