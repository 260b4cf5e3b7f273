// The image: which lengths are allowed, and its blocks.
ghost use Rattle.std.specs.Prelude.{◌≡◌, ◌&&◌, true, ℕ, ◌-◌, ◌*◌, ◌%◌, ◌<◌, eqb, leb, length, get_or};
ghost use Rattle.flash.specs.Flash.{block, size_in, size_of};
ghost use Rattle.board.specs.Record.{allowed};
ghost use Rattle.board.specs.Mount.{next_block};

use flash::Shape;
use wire::Refusal;

// The bytes of an image whose length is allowed, and how many blocks they are.
#[derive(Clone, Copy)]
pub struct Image<'a> {
    pub bytes: &'a [u8],
    pub blocks: u8,
    // the size of each block, divided once: a read is as short as two divisions
    pub size: usize,
    ghost is_allowed: { allowed blocks (length bytes.now) ≡ true },
    ghost are_bytes: { (i : ℕ) → get_or bytes.now i 0 < 256 },
    ghost is_size: { size ≡ size_of blocks bytes.now },
}

impl<'a> Image<'a> {
    ghost use Rattle.looks.specs.Images.{Opens};

    // The one place that refuses a length.
    pub fn try_new(bytes: &'a [u8], blocks: u8) -> Result<Image<'a>, Refusal>
        ensures { Opens bytes.now blocks result }
    {
        let shape = Shape::of(bytes, blocks);
        if is_allowed(shape) {
            Ok(Image {
                bytes,
                blocks,
                size: shape.size(),
            })
        } else {
            Err(Refusal::ImageLength)
        }
    }

    // The size of each block.
    pub fn size(&self) -> usize
        ensures { result ≡ size_of self.now.blocks self.now.bytes.now }
    {
        self.size
    }

    pub fn block(&self, number: u8) -> &'a [u8]
        ensures { result.now ≡ block (size_of self.now.blocks self.now.bytes.now) number self.now.bytes.now }
    {
        flash::block_of(self.bytes, self.size(), number)
    }

    // Its length less one, as a record holds it.
    pub fn last(&self) -> u16
        ensures { result ≡ length self.now.bytes.now - 1 }
    {
        (self.bytes.len() - 1) as u16
    }
}

// The blocks are the whole image, and as long as blocks may be.
fn is_size_allowed(shape: Shape) -> bool
    ensures { result ≡ (eqb (shape.blocks * size_in shape.blocks shape.len) shape.len
        && (eqb (size_in shape.blocks shape.len % 128) 0 && leb 256 (size_in shape.blocks shape.len))) }
{
    let size = shape.size();
    usize::from(shape.blocks) * size == shape.len && size % 128 == 0 && 256 <= size
}

// The length is tested before it is divided: so the division is of 32 bits, as the one that then gives the size, and is made once.
pub fn is_allowed(shape: Shape) -> bool
    ensures { result ≡ allowed shape.blocks shape.len }
{
    shape.is_count_allowed() && shape.len <= 65536 && is_size_allowed(shape)
}

// The block that a transfer goes to.
pub fn next_block(blocks: u8, number: u8) -> u8
    ensures { result ≡ next_block blocks number }
{
    match number.checked_add(1) {
        Some(next) if next < blocks => next,
        _ => 0,
    }
}
