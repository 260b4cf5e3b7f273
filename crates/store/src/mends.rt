// What a mount does with the block that is taken: a torn frame closed and a reset appended, or a transfer.
ghost use Rattle.std.specs.Prelude.{◌≡◌, suc, ◌+◌, ◌≤◌, ◌<◌};
ghost use Rattle.flash.specs.Flash.{write};
ghost use Rattle.frame.specs.Frame.{reset_len};
ghost use Rattle.journal.specs.Block.{block_max};
ghost use Rattle.store.specs.Mends.{noted, closes_of, torn_writes, moves_in, due_len, mend_in, reset_in};

use board::Job;
use frame::{BUFFER_LEN, Edition, FINISH, Head, RESET_LEN};
use job::records;
use looks::Newest;
use looks::lists::Counted;

// The bytes that close a torn frame, by their offsets in the block.
pub type Closes = Counted<u16, 4>;

#[derive(Clone, Copy)]
pub enum Mend {
    // a block is made in place of all else
    Transfer,
    // where the record stands: past a frame that is closed. The reset's length is 0 for none, as in the job that it goes to
    Append { end: u16, closes: Closes, size: u8 },
}

// One byte more at the end, if it must change.
fn note(closes: &mut Closes, block: &[u8], at: u16, byte: u8)
    requires { closes.old.count < 4 }
    ensures { (closes.new ≡ noted block.now closes.old (write at byte)) × (closes.new.count ≤ suc closes.old.count) }
{
    if flash::byte_at(block, usize::from(at)) != byte {
        closes.push(at);
    }
}

// A torn frame closed: its length's high byte, its kind, and last its finish byte.
fn closing(block: &[u8], end: u16, torn: u16) -> Closes
    requires { end + torn ≤ block_max }
    ensures { result ≡ closes_of (torn_writes block.now end torn) }
{
    let mut closes = Closes::new(0);
    if torn == 0 {
        return closes;
    }
    note(&mut closes, block, end + 1, 0);
    note(&mut closes, block, end + 2, 0);
    note(&mut closes, block, end + 3, 0);
    note(&mut closes, block, end + torn - 1, FINISH);
    closes
}

// The length of a reset.
fn reset_len(edition: Edition) -> u8
    ensures { (result ≡ reset_len edition) × (result ≤ 9) }
{
    RESET_LEN + frame::check_len(edition)
}

// A reset is due, and goes past the block's end.
fn moves(size: usize, w: Newest) -> bool
    ensures { result ≡ moves_in size w }
{
    w.pends && size < usize::from(w.end) + usize::from(w.torn) + usize::from(reset_len(w.edition))
}

// A reset is due where something is pending.
fn due_len(w: Newest) -> u8
    ensures { result ≡ due_len w }
{
    if w.pends { reset_len(w.edition) } else { 0 }
}

// What is done with the block. Its room for a torn frame stands in three contracts, and is no ghost field of Newest:
// the definitions make a Newest of any survey or store, and each would have to carry the proof.
pub fn mending(block: &[u8], w: Newest) -> Mend
    requires { w.end + w.torn ≤ block_max }
    ensures { result ≡ mend_in block.now w }
{
    if moves(block.len(), w) {
        return Mend::Transfer;
    }
    Mend::Append {
        end: w.end + w.torn,
        closes: closing(block, w.end, w.torn),
        size: due_len(w),
    }
}

// The frame to append: a reset, if the job has one.
pub fn lay_reset(job: Job, frame: &mut [u8; BUFFER_LEN])
    ensures { frame.new ≡ reset_in job }
{
    if 0 < job.size {
        *frame = frame::encode_frame(Edition::from(job.edition), Head::Reset, b"");
    } else {
        *frame = records::no_frame();
    }
}
