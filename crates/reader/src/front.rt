// The front of a block's rest: where a frame may be.
ghost use Rattle.std.specs.Prelude.{ℕ, ◌≡◌, ◌≤◌, ◌<◌, length, get_or, MatchOption};
ghost use Rattle.frame.specs.Frame.{kind_at};

use flash::byte_at;
use frame::{Edition, KIND_AT};

// Some bytes in which a frame ends, by the length that their first byte says.
#[derive(Clone, Copy)]
pub struct Front<'a> {
    pub bytes: &'a [u8],
    pub edition: Edition,
    pub len: u8,
    ghost first: { len ≡ get_or bytes.now 0 0 },
    ghost within: { len ≤ length bytes.now },
    // true of any u8: the check sees it of a slice in a local, but not in a field
    ghost small: { (i : ℕ) → get_or bytes.now i 0 < 256 },
}

impl<'a> Front<'a> {
    // None where the length runs past the bytes' end.
    pub fn of(bytes: &'a [u8], edition: Edition) -> Option<Front<'a>>
        ensures { MatchOption result (length bytes.now < get_or bytes.now 0 0) (λ f. (f.bytes.now ≡ bytes.now) × (f.edition ≡ edition)) }
    {
        let len = byte_at(bytes, 0);
        if bytes.len() < len as usize {
            return None;
        }
        Some(Front {
            bytes,
            edition,
            len,
        })
    }

    // The low byte of the kind.
    pub fn kind(&self) -> u8
        ensures { result ≡ get_or self.now.bytes.now kind_at 0 }
    {
        byte_at(self.bytes, KIND_AT)
    }
}
