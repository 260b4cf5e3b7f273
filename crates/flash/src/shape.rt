// An image without its bytes: how many they are, in how many blocks.
ghost use Rattle.std.specs.Prelude.{◌≡◌, true, false, length, MatchOption, ◌+◌, ◌*◌};
ghost use Rattle.flash.specs.Flash.{size_in, is_count, within, program};

use crate::MAX_BLOCKS;

#[derive(Clone, Copy)]
pub struct Shape {
    pub len: usize,
    pub blocks: u8,
}

impl Shape {
    pub fn of(image: &[u8], blocks: u8) -> Shape
        ensures { result ≡ record { len = length image.now; blocks = blocks } }
    {
        Shape {
            len: image.len(),
            blocks,
        }
    }

    // The size of a block; 0 where there is none.
    pub fn size(self) -> usize
        ensures { result ≡ size_in self.blocks self.len }
    {
        crate::size_of(self.blocks, self.len)
    }

    // A number of blocks that an image can have.
    pub fn is_count_allowed(self) -> bool
        ensures { result ≡ is_count self.blocks }
    {
        2 <= self.blocks && usize::from(self.blocks) <= MAX_BLOCKS
    }

    // Where an offset of a block is in the image, if it is there.
    pub fn place(self, block: u8, at: usize) -> Option<usize>
        ensures { MatchOption result (within self.blocks (size_in self.blocks self.len) (program block at 0) ≡ false)
            (λ i. (within self.blocks (size_in self.blocks self.len) (program block at 0) ≡ true)
            × (i ≡ block * size_in self.blocks self.len + at)) }
    {
        let size = self.size();
        if self.is_count_allowed() && block < self.blocks && at < size {
            return Some(usize::from(block) * size + at);
        }
        None
    }
}
