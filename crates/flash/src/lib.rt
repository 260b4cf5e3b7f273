// The flash: an image of bytes in blocks of one size. A step programs one byte or erases one block.
#![tactic(auto)]

ghost use Rattle.std.specs.Prelude.{◌≡◌, ◌+◌, ◌*◌, ◌-◌, min, get_or};
ghost use Rattle.flash.specs.Bytes.{all_ff};
ghost use Rattle.flash.specs.Flash.{size_in, block, program_at, erase_block};

mod shape;
mod slices;

pub use shape::Shape;
pub use slices::{front, get_or, rest, set_at};
use std::ops::Range;

// The most blocks that an image has.
pub const MAX_BLOCKS: usize = 16;

// The size of a block, where an image has so many; 0 where it has none.
#[tactic(auto, unfolding(crate::specs::Flash::size_in))]
pub fn size_of(blocks: u8, len: usize) -> usize
    ensures { result ≡ size_in blocks len }
{
    len.checked_div(usize::from(blocks)).unwrap_or(0)
}

// The byte at a place, 0 past the end.
pub fn byte_at(bytes: &[u8], i: usize) -> u8
    ensures { result ≡ get_or bytes.now i 0 }
{
    get_or(bytes, i, 0)
}

// Every byte is 0xFF: eight at a time, the last ones one by one.
pub fn is_blank(s: &[u8]) -> bool
    ensures { result ≡ all_ff s.now }
{
    let (eights, rest) = s.as_chunks::<8>();
    eights.iter().all(|eight| *eight == [0xFF; 8]) && rest.iter().all(|byte| *byte == 0xFF)
}

// Programs one byte, where there is one: bits only clear.
pub fn program(image: &mut [u8], at: usize, byte: u8)
    ensures { image.new ≡ program_at image.old at byte }
{
    if at < image.len() {
        image[at] &= byte;
    }
}

// Where a block starts, or the image's end if it isn't there. By a division: a product that saturates would call for 128 bits, which
// WebAssembly has no instruction for.
fn start_of(size: usize, number: usize, end: usize) -> usize
    ensures { result ≡ min end (number * size) }
{
    if size == 0 {
        0
    } else if number <= end / size {
        number * size
    } else {
        end
    }
}

// Where a block starts and where it ends, as far as the image goes.
fn bounds(size: usize, number: usize, end: usize) -> Range<usize>
    ensures start { result.start ≡ min end (number * size) }
    ensures end { result.end ≡ result.start + min size (end - result.start) }
{
    let start = start_of(size, number, end);
    start..start + size.min(end - start)
}

// A block of the image by its size and number, as much of it as there is.
pub fn block_of(image: &[u8], size: usize, number: u8) -> &[u8]
    ensures { result.now ≡ block size number image.now }
{
    &image[bounds(size, usize::from(number), image.len())]
}

// Erases one block, as much of it as there is.
pub fn erase_block(image: &mut [u8], size: usize, number: usize)
    ensures { image.new ≡ erase_block size number image.old }
{
    let block = bounds(size, number, image.len());
    image[block].fill(0xFF);
}
