// The store changed by hand, and images of other lengths.
use crate::calls::byte;
use crate::shown::{answered, judge, reply_kept, unmounted};
use board::Record;
use frame::Host;
use job::Outcome;
use lent::RECORD_SIZE;
use scene::{Bench, say};

// ---- changes

fn lay_at(bytes: &mut [u8], at: usize, source: &[u8]) {
    match bytes.get_mut(at..) {
        Some(rest) => wire::lay(rest, source),
        None => say(b"? no room "),
    }
}

// Bytes of the image, from an offset on.
pub fn image(d: Bench, at: usize, bytes: &[u8]) -> Bench {
    let mut image = d.image;
    lay_at(&mut image, at, bytes);
    Bench { image, ..d }
}

// Block 0's bytes at an offset too.
pub fn double(d: Bench, at: usize) -> Bench {
    let size = flash::size_of(d.blocks, d.size);
    image(d, at, flash::block_of(&d.image, size, 0))
}

// Bytes of the board record, from an offset on, as lent has them.
pub fn board(d: Bench, at: usize, bytes: &[u8]) -> Bench {
    let mut record = [0; RECORD_SIZE];
    pack::encode(d.board, &mut record);
    lay_at(&mut record, at, bytes);
    Bench {
        board: unpack::decode(&record),
        ..d
    }
}

// ---- images of other lengths

// A call on an image of zeros: a format, a mount, or 3 bytes of a commit from host 4.
#[derive(Clone, Copy)]
pub enum Tried {
    Format,
    Mount,
    Request,
}

impl Tried {
    // By the script's number, of which any past 1 is the request.
    pub fn new(which: usize) -> Tried {
        match which {
            0 => Tried::Format,
            1 => Tried::Mount,
            _ => Tried::Request,
        }
    }

    fn call(self, zeros: &[u8], blocks: u8, board: Record, reply: &mut [u8]) -> Outcome {
        match self {
            Tried::Format => store::format(zeros, blocks),
            Tried::Mount => store::mount(zeros, blocks),
            Tried::Request => queue::request(zeros, blocks, board, Host(4), &[4, 0, 3], reply),
        }
    }

    fn left(self, old: Record, new: Record, reply: [u8; 16]) {
        match self {
            Tried::Format | Tried::Mount => unmounted(new),
            Tried::Request => {
                judge(b", record", old == new);
                reply_kept(reply);
                say(b"\n");
            }
        }
    }
}

// A call on an image of so many bytes 0, with so many blocks.
pub fn zeros(d: Bench, size: usize, blocks: usize, tried: Tried, text: &[u8]) {
    let image = [0; 66048];
    let old = [0; 66048];
    let mut reply = [0xEE; 16];
    let after = tried.call(
        flash::front(&image, size),
        byte(blocks),
        d.board,
        &mut reply,
    );
    say(text);
    answered(after.answer);
    judge(
        b"; image",
        flash::front(&old, size) == flash::front(&image, size),
    );
    tried.left(d.board, after.board, reply);
}

// A step call on 768 bytes of 0xFF.
pub fn elsewhere(d: Bench, text: &[u8]) {
    let mut image = [0xFF; 768];
    let after = job::step(&mut image, d.blocks, d.board);
    say(text);
    answered(after.answer);
    judge(b"; image", image == [0xFF; 768]);
    judge(b", record", d.board == after.board);
    say(b"\n");
}
