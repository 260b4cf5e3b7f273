// The first byte that does not fit a layout.
ghost use Rattle.std.specs.Prelude.{◌≡◌, ◌+◌, ◌≤◌, ◌<◌, eqb, length, get_or, true};
ghost use Rattle.frame.specs.declared.Field.TheVariants.{Host};
ghost use Rattle.frame.specs.Frame.{host_max, body_at, put_len, delete_len, end_len, settled_len, closed_len, reset_len, kind_at, ClosedLength, check_len};
ghost use Rattle.frame.specs.Reader.{has_length, layout_of, slot, change_layout, end_layout, settled_layout, closed_layout, reset_layout, host_layout, last_kind};
ghost use Rattle.reader.specs.Misfits.{one_misfit, front_misfit, seal_misfit, laid_misfit};

use crate::front::Front;
use crate::lengths::only_settled;
use crate::{ID_AT, ID_HIGH, KIND_HIGH, LENGTH_HIGH, SETTLED_HIGH};
use crc::crc32;
use flash::byte_at;
use frame::{
    ABORT_KIND, BODY_AT, CLOSED_KIND, COMMIT_KIND, DELETE_KIND, DELETE_LEN, END_LEN, Edition,
    FINISH, Fault, Field, HOST_MAX, ID_MAX, KIND_AT, PUT_KIND, RESET_KIND, RESET_LEN, SETTLED_KIND,
    check_len,
};

// The first byte of a frame that does not fit: its offset, and what is wrong if the frame isn't cut short there.
#[derive(Clone, Copy)]
pub struct Misfit {
    pub at: usize,
    pub fault: Fault,
}

impl Front<'_> {
    // Tests the byte at an offset: lo to hi, in a field that starts at `place`.
    #[tactic(auto, unfolding(crate::specs::Misfits::one_misfit))]
    fn test(&self, at: usize, lo: usize, hi: usize, field: Field, place: usize) -> Option<Misfit>
        ensures { result ≡ one_misfit at (slot field place lo hi) (get_or self.now.bytes.now at 0) }
    {
        let byte = byte_at(self.bytes, at) as usize;
        if (lo..=hi).contains(&byte) {
            return None;
        }
        Some(Misfit {
            at,
            fault: Fault { field, place },
        })
    }

    // The same of a byte that can be only one.
    fn exact(&self, at: usize, byte: u8, field: Field, place: usize) -> Option<Misfit>
        ensures { result ≡ one_misfit at (slot field place byte byte) (get_or self.now.bytes.now at 0) }
    {
        self.test(at, byte as usize, byte as usize, field, place)
    }

    // Length's high byte, and a kind from lo to hi: of a put and a delete, or a commit and an abort, a length may be either's, and their numbers
    // follow each other.
    fn front_misfit(&self, lo: u8, hi: u8) -> Option<Misfit>
        ensures { result ≡ front_misfit lo hi self.now.bytes.now }
    {
        self.exact(LENGTH_HIGH, 0, Field::Length, 0)
            .or(self.test(KIND_AT, lo as usize, hi as usize, Field::Kind, KIND_AT))
            .or(self.exact(KIND_HIGH, 0, Field::Kind, KIND_AT))
    }

    // The host of a put, a delete, a commit or an abort.
    fn test_host(&self) -> Option<Misfit>
        ensures { result ≡ one_misfit body_at (slot Host body_at 0 host_max) (get_or self.now.bytes.now body_at 0) }
    {
        self.test(BODY_AT, 0, HOST_MAX, Field::Host, BODY_AT)
    }

    // The check and the finish byte, after m bytes.
    fn seal_misfit(&self, m: usize) -> Option<Misfit>
        requires { m + check_len self.now.edition < length self.now.bytes.now }
        ensures { result ≡ seal_misfit self.now.edition m self.now.bytes.now }
    {
        match self.edition {
            Edition::First => self.exact(m, FINISH, Field::Finish, m),
            Edition::Second => {
                let check = crc32(&self.bytes[..m]).to_le_bytes();
                self.exact(m, check[0], Field::Crc, m)
                    .or(self.exact(m + 1, check[1], Field::Crc, m))
                    .or(self.exact(m + 2, check[2], Field::Crc, m))
                    .or(self.exact(m + 3, check[3], Field::Crc, m))
                    .or(self.exact(m + 4, FINISH, Field::Finish, m + 4))
            }
        }
    }

    // Only a frame of a delete's length can be a delete.
    fn last_kind(&self) -> u8
        ensures { result ≡ last_kind (eqb self.now.len (delete_len self.now.edition)) }
    {
        if self.len == DELETE_LEN + check_len(self.edition) {
            DELETE_KIND
        } else {
            PUT_KIND
        }
    }

    // A put or a delete.
    fn change_misfit(&self) -> Option<Misfit>
        requires { put_len self.now.edition 0 ≤ self.now.len }
        ensures { result ≡ laid_misfit self.now.len (change_layout self.now.edition self.now.len) self.now.bytes.now }
    {
        self.front_misfit(PUT_KIND, self.last_kind())
            .or(self.test_host())
            .or(self.exact(ID_HIGH, 0, Field::Id, ID_AT))
            .or(self.seal_misfit((self.len - 1 - check_len(self.edition)) as usize))
    }

    // A commit or an abort.
    fn end_misfit(&self) -> Option<Misfit>
        requires { self.now.len ≡ end_len self.now.edition }
        ensures { result ≡ laid_misfit self.now.len (end_layout self.now.edition) self.now.bytes.now }
    {
        self.front_misfit(COMMIT_KIND, ABORT_KIND)
            .or(self.test_host())
            .or(self.seal_misfit(BODY_AT + 1))
    }

    // A settled frame whose id is at least next.
    fn settled_misfit(&self, next: usize) -> Option<Misfit>
        requires { settled_len self.now.edition 0 ≤ self.now.len }
        ensures { result ≡ laid_misfit self.now.len (settled_layout self.now.edition next self.now.len) self.now.bytes.now }
    {
        self.front_misfit(SETTLED_KIND, SETTLED_KIND)
            .or(self.test(BODY_AT, next, ID_MAX, Field::Id, BODY_AT))
            .or(self.exact(SETTLED_HIGH, 0, Field::Id, BODY_AT))
            .or(self.seal_misfit((self.len - 1 - check_len(self.edition)) as usize))
    }

    // A closed frame: its check is part of what it ignores.
    fn closed_misfit(&self) -> Option<Misfit>
        requires { closed_len 0 ≤ self.now.len }
        ensures { result ≡ laid_misfit self.now.len (closed_layout self.now.len) self.now.bytes.now }
    {
        let last = self.len as usize - 1;
        self.front_misfit(CLOSED_KIND, CLOSED_KIND)
            .or(self.exact(last, FINISH, Field::Finish, last))
    }

    // A reset.
    fn reset_misfit(&self) -> Option<Misfit>
        requires { self.now.len ≡ reset_len self.now.edition }
        ensures { result ≡ laid_misfit self.now.len (reset_layout self.now.edition) self.now.bytes.now }
    {
        self.front_misfit(RESET_KIND, RESET_KIND)
            .or(self.seal_misfit(BODY_AT))
    }

    // A frame that is neither closed nor settled, by its length.
    fn host_misfit(&self) -> Option<Misfit>
        requires { ClosedLength self.now.edition self.now.len }
        ensures { result ≡ laid_misfit self.now.len (host_layout self.now.edition self.now.len) self.now.bytes.now }
    {
        let check = check_len(self.edition);
        if self.len == RESET_LEN + check {
            self.reset_misfit()
        } else if self.len == END_LEN + check {
            self.end_misfit()
        } else {
            self.change_misfit()
        }
    }

    // The first byte that does not fit the layout of its length and kind.
    pub fn layout_misfit(&self, next: usize) -> Option<Misfit>
        requires { has_length self.now.edition next self.now.len ≡ true }
        ensures { result ≡ laid_misfit self.now.len (layout_of self.now.edition next self.now.len (get_or self.now.bytes.now kind_at 0)) self.now.bytes.now }
    {
        let kind = self.kind();
        if only_settled(self.edition, next, self.len, kind) {
            self.settled_misfit(next)
        } else if kind == CLOSED_KIND {
            self.closed_misfit()
        } else {
            self.host_misfit()
        }
    }
}
