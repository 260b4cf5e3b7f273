// Lists in a record's arrays, and the list of blocks to erase.
ghost use Rattle.std.specs.Prelude.{◌≡◌, ◌≤◌, ◌<◌};
ghost use Rattle.flash.specs.Flash.{max_blocks, block_numbers};
ghost use Rattle.looks.specs.Seen.{none_of, one_more, erases_of, others_in};

use flash::MAX_BLOCKS;

// An array that is filled from its front, and how much of it is, as a record's job has them.
// The kit's ArrayVec isn't Copy, as what goes into a record is, and the library rests on no crate of the kit.
#[derive(Clone, Copy)]
pub struct Counted<T, const N: usize> {
    pub items: [T; N],
    pub count: u8,
}

// Blocks to erase, in order.
pub type Erases = Counted<u8, MAX_BLOCKS>;

impl<T: Copy, const N: usize> Counted<T, N> {
    pub fn new(filler: T) -> Counted<T, N>
        ensures { result ≡ none_of filler }
    {
        Counted {
            items: [filler; N],
            count: 0,
        }
    }

    // One more at the end.
    pub fn push(&mut self, item: T)
        requires room { self.old.count < N }
        requires few { N ≤ 255 }
        ensures { self.new ≡ one_more self.old item }
    {
        self.items[usize::from(self.count)] = item;
        self.count += 1;
    }
}

// All blocks in number order, but the current one and those that are skipped.
pub fn others(blocks: u8, current: u8, skips: [bool; MAX_BLOCKS]) -> Erases
    requires { blocks ≤ max_blocks }
    ensures { result ≡ erases_of (others_in current skips (block_numbers blocks)) }
{
    let mut list = Erases::new(0);
    for k in 0..blocks {
        if k != current && !skips[usize::from(k)] {
            list.push(k);
        }
    }
    list
}
