// The record written back after a step: its numbers, over the arrays that stand in the buffer.
ghost use Rattle.std.specs.Prelude.{◌≡◌};
ghost use Rattle.pack.specs.Code.{numbers_into, loaded_in, left_in, Holds};

use crate::{cursor_bytes, head_bytes, lay_at, lay_words, plan_bytes};
use frame::BUFFER_LEN;
use job::records::{Numbers, Stepped};

// The numbers laid over the bytes.
pub(crate) fn lay_numbers(n: Numbers, bytes: &mut [u8])
    ensures { bytes.new ≡ numbers_into n bytes.old }
{
    // an array of its own: a copy looks at where its source lies, and one within n would keep all of n in memory
    let wipe = n.job.wipe;
    lay_at(bytes, 0, &head_bytes(n));
    lay_at(bytes, lent::JOB_AT, &wipe);
    lay_at(bytes, lent::PLAN_AT, &plan_bytes(n.job));
    lay_at(bytes, lent::CURSOR_AT, &cursor_bytes(n.cursor));
}

// The record that a step leaves, in a buffer of its size; any other buffer stays, which is promised of each length that C lends: so the test
// here, in write_loaded and in encode_parts, and no array of that size.
pub fn write_step(s: Stepped, bytes: &mut [u8])
    ensures { Holds (left_in s bytes.old) bytes.old bytes.new }
{
    if bytes.len() != lent::RECORD_SIZE {
        return;
    }
    if s.ended {
        bytes[lent::UNIT_AT..].fill(0);
    }
    lay_numbers(s.next, bytes);
}

// The same with other places and another frame that is copied.
pub fn write_loaded(s: Stepped, places: &[u16; 256], unit: &[u8; BUFFER_LEN], bytes: &mut [u8])
    ensures { Holds (loaded_in s places.now unit.now bytes.old) bytes.old bytes.new }
{
    if bytes.len() != lent::RECORD_SIZE {
        return;
    }
    lay_words(bytes, lent::PLACES_AT, places);
    lay_at(bytes, lent::UNIT_AT, unit);
    write_step(s, bytes);
}
