// The short way: a whole frame of kinds 1 to 5, told by plain comparisons.
ghost use Rattle.std.specs.Prelude.{◌≡◌, ◌+◌, ◌<◌, length};
ghost use Rattle.frame.specs.Frame.{check_len};
ghost use Rattle.reader.specs.Whole.{checked, sealed, is_change, is_end, is_settled, is_whole};

use crate::front::Front;
use crate::{ID_HIGH, KIND_HIGH, LENGTH_HIGH, MAX_PUT, MAX_SETTLED, SETTLED_HIGH};
use crc::crc32;
use frame::{
    ABORT_KIND, BODY_AT, COMMIT_KIND, DELETE_KIND, DELETE_LEN, END_LEN, Edition, FINISH, HOST_MAX,
    KIND_AT, PUT_KIND, PUT_LEN, SETTLED_KIND, SETTLED_LEN, check_len,
};

// The last host, as a byte.
const LAST_HOST: u8 = HOST_MAX as u8;

impl Front<'_> {
    // The check of the first m bytes.
    fn is_checked(&self, m: usize) -> bool
        requires { m + 4 < length self.now.bytes.now }
        ensures { result ≡ checked m self.now.bytes.now }
    {
        // a short name: the next line has it five times
        let t = self.bytes;
        crc32(&t[..m]) == u32::from_le_bytes([t[m], t[m + 1], t[m + 2], t[m + 3]])
    }

    // The check and the finish byte.
    fn is_sealed(&self) -> bool
        requires { check_len self.now.edition < self.now.len }
        ensures { result ≡ sealed self.now.edition self.now.len self.now.bytes.now }
    {
        let n = self.len as usize;
        self.bytes[n - 1] == FINISH
            && match self.edition {
                Edition::First => true,
                Edition::Second => self.is_checked(n - 5),
            }
    }

    // The body of a put or a delete, and its seal. The length's bounds, here and below, are a u8 and a usize: one range of usize would be longer.
    #[tactic(auto, unfolding(crate::specs::Whole::is_change))]
    fn is_change(&self) -> bool
        ensures { result ≡ is_change self.now.edition self.now.len self.now.bytes.now }
    {
        let check = check_len(self.edition);
        PUT_LEN + check <= self.len
            && self.len as usize <= MAX_PUT + check as usize
            && self.bytes[BODY_AT] <= LAST_HOST
            && self.bytes[ID_HIGH] == 0
            && self.is_sealed()
    }

    // The host of a commit or an abort, and its seal.
    #[tactic(auto, unfolding(crate::specs::Whole::is_end))]
    fn is_end(&self) -> bool
        ensures { result ≡ is_end self.now.edition self.now.len self.now.bytes.now }
    {
        self.len == END_LEN + check_len(self.edition)
            && self.bytes[BODY_AT] <= LAST_HOST
            && self.is_sealed()
    }

    // The id of a settled frame, which is at least next, and its seal.
    #[tactic(auto, unfolding(crate::specs::Whole::is_settled))]
    fn is_settled(&self, next: usize) -> bool
        ensures { result ≡ is_settled self.now.edition next self.now.len self.now.bytes.now }
    {
        let check = check_len(self.edition);
        SETTLED_LEN + check <= self.len
            && self.len as usize <= MAX_SETTLED + check as usize
            && next <= self.bytes[BODY_AT] as usize
            && self.bytes[SETTLED_HIGH] == 0
            && self.is_sealed()
    }

    // It is a whole frame of kinds 1 to 5.
    #[tactic(auto, unfolding(crate::specs::Whole::is_whole))]
    fn is_whole(&self, next: usize) -> bool
        ensures { result ≡ is_whole self.now.edition next self.now.bytes.now }
    {
        END_LEN as usize <= self.bytes.len()
            && self.bytes[LENGTH_HIGH] == 0
            && self.bytes[KIND_HIGH] == 0
            && match self.bytes[KIND_AT] {
                PUT_KIND => self.is_change(),
                DELETE_KIND => self.len == DELETE_LEN + check_len(self.edition) && self.is_change(),
                COMMIT_KIND | ABORT_KIND => self.is_end(),
                SETTLED_KIND => self.is_settled(next),
                _ => false,
            }
    }
}

// A whole frame of kinds 1 to 5 is at the front of some bytes.
#[tactic(auto, unfolding(crate::specs::Whole::is_whole))]
pub fn is_whole(bytes: &[u8], edition: Edition, next: usize) -> bool
    ensures { result ≡ is_whole edition next bytes.now }
{
    Front::of(bytes, edition).is_some_and(|front| front.is_whole(next))
}
