// What may be torn.
ghost use Rattle.std.specs.Prelude.{◌≡◌, not, get_or};
ghost use Rattle.frame.specs.Frame.{kind_at};
ghost use Rattle.frame.specs.Reader.{layout_of, being_closed};

use crate::front::Front;
use crate::lengths::only_settled;
use crate::{KIND_HIGH, LENGTH_HIGH};
use flash::byte_at;
use frame::{CLOSED_KIND, SETTLED_LEN, check_len};

impl Front<'_> {
    // Settled frames and closed ones are never cut short.
    pub fn tears(&self, next: usize) -> bool
        ensures { result ≡ (layout_of self.now.edition next self.now.len (get_or self.now.bytes.now kind_at 0)).tears }
    {
        let kind = self.kind();
        kind != CLOSED_KIND && !only_settled(self.edition, next, self.len, kind)
    }

    // The frame is being closed: its finish byte and what follows are blank.
    pub fn being_closed(&self) -> bool
        ensures { result ≡ being_closed self.now.edition self.now.len self.now.bytes.now }
    {
        self.kind() == CLOSED_KIND
            && byte_at(self.bytes, LENGTH_HIGH) == 0
            && matches!(byte_at(self.bytes, KIND_HIGH), 0 | 255)
            && self.len != SETTLED_LEN + check_len(self.edition)
            && flash::is_blank(flash::rest(self.bytes, self.len.saturating_sub(1) as usize))
    }
}
