// The bytes of a frame that is copied or appended, programmed one after the other.
ghost use Rattle.std.specs.Prelude.{◌≡◌, true, List, ℕ, ◌+◌, ◌<◌, ◌≤◌, length};
ghost use Rattle.flash.specs.Flash.{size_in, within, program, writes, write_all};
ghost use Rattle.board.specs.declared.Stage.TheVariants.{Copy, Append};
ghost use Rattle.job.specs.Code.{assemble, staged};
ghost use Rattle.drive.specs.Code.{on_by, steps_by, copy_lane, append_lane, Short, laid, Bursts};

use board::{Cursor, Phase, Rest, Stage};
use flash::Shape;
use frame::BUFFER_LEN;
use job::records::Numbers;

// The numbers after some steps, and how many there were.
#[derive(Clone, Copy)]
pub struct Stride {
    pub next: Numbers,
    pub steps: usize,
}

// Where a frame's next bytes go, by block and offset; how many are done, of how many.
#[derive(Clone, Copy)]
pub struct Lane {
    pub block: u8,
    pub at: usize,
    pub done: u8,
    pub size: u8,
}

// Programs bytes from a place on: bits only clear.
fn program_all(image: &mut [u8], at: usize, bytes: &[u8])
    requires { at + length bytes.now ≤ length image.old }
    ensures { image.new ≡ write_all image.old (writes at bytes.now) }
{
    for i in 0..bytes.len() {
        image[at + i] &= bytes[i];
    }
}

// How many bytes can be programmed before the frame's last one.
fn burst_len(shape: Shape, rest: Rest, lane: Lane, most: usize) -> usize
    requires { within shape.blocks (size_in shape.blocks shape.len) (program lane.block lane.at 0) ≡ true }
    ensures { (result ≤ most) × (0 < result → Short shape.blocks shape.len rest lane result) }
{
    if job::same_shape(shape, rest) {
        let end = BUFFER_LEN.min(lane.size as usize);
        let ahead = end.saturating_sub(lane.done as usize + 1);
        return most.min(shape.size() - lane.at).min(ahead);
    }
    0
}

// Programs them, none where the next one's place is not in the image, and says how many they were.
fn lay(
    image: &mut [u8],
    blocks: u8,
    rest: Rest,
    lane: Lane,
    frame: &[u8; BUFFER_LEN],
    most: usize,
) -> usize
    ensures { (result ≤ most) × (0 < result → Short blocks (length image.old) rest lane result)
        × (0 < result → (image.new ≡ laid blocks lane frame.now result image.old) × (result + lane.done ≤ length frame.now))
        × (result ≡ 0 → image.new ≡ image.old) }
{
    let shape = Shape::of(image, blocks);
    let Some(at) = shape.place(lane.block, lane.at) else {
        return 0;
    };
    let k = burst_len(shape, rest, lane, most);
    if k == 0 {
        return 0;
    }
    let done = lane.done as usize;
    program_all(image, at, &frame[done..done + k]);
    k
}

// ---- a job some steps on

fn copied(n: Numbers, k: usize) -> Numbers
    requires { (n.cursor.at + k < 65536) × (n.cursor.off + k < 256) }
    ensures { result ≡ staged Copy (on_by k n.cursor) n }
{
    let cursor = Cursor {
        at: n.cursor.at + k as u16,
        off: n.cursor.off + k as u8,
        ..n.cursor
    };
    Numbers {
        phase: Phase::Busy(Stage::Copy),
        cursor,
        ..n
    }
}

fn appended(n: Numbers, k: usize) -> Numbers
    requires { n.cursor.index + k < 256 }
    ensures { result ≡ staged Append (steps_by k n.cursor) n }
{
    let cursor = Cursor {
        index: n.cursor.index + k as u8,
        ..n.cursor
    };
    Numbers {
        phase: Phase::Busy(Stage::Append),
        cursor,
        ..n
    }
}

fn copy_lane(n: Numbers) -> Lane
    ensures { result ≡ copy_lane n }
{
    Lane {
        block: n.job.target,
        at: n.cursor.at as usize,
        done: n.cursor.off,
        size: n.cursor.size,
    }
}

fn append_lane(n: Numbers) -> Lane
    ensures { result ≡ append_lane n }
{
    Lane {
        block: n.rest.block,
        at: n.rest.end as usize + n.cursor.index as usize,
        done: n.cursor.index,
        size: n.job.size,
    }
}

// Steps of a job that are made faster together, at most so many; maybe none. A frame's last byte is not among them: after it another frame is loaded,
// or the job is over.
pub fn burst(
    image: &mut [u8],
    blocks: u8,
    n: Numbers,
    unit: &[u8; BUFFER_LEN],
    frame: &[u8; BUFFER_LEN],
    most: usize,
) -> Stride
    ensures { (result.steps ≤ most) × ((p : List ℕ) → Bursts blocks result.steps image.old
        (assemble n p unit.now frame.now) image.new
        (assemble result.next p unit.now frame.now)) }
{
    match n.phase {
        Phase::Busy(Stage::Copy) => {
            let steps = lay(image, blocks, n.rest, copy_lane(n), unit, most);
            Stride {
                next: copied(n, steps),
                steps,
            }
        }
        Phase::Busy(Stage::Append) => {
            let steps = lay(image, blocks, n.rest, append_lane(n), frame, most);
            Stride {
                next: appended(n, steps),
                steps,
            }
        }
        _ => Stride { next: n, steps: 0 },
    }
}
