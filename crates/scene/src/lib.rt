// What the programs that run the store share: a call with its steps, and a line that says what it came to. They print by the
// kit's io: std's print! can fail, which no function here may, and would assume more functions of C.
#![tactic(auto)]

ghost use Rattle.std.specs.Prelude.{◌≡◌, ◌∷◌, [], ◌++◌, take, drop};
ghost use Rattle.scene.specs.Runs.{run_on_of, new_bench, image_of, bench_of, call_on, fresh, ask_on, put_message};
ghost use Rattle.board.specs.Mount.{mount_on, format_on};

use board::Record;
use frame::Host;
use job::{Outcome, records};
use wire::Answer;

// The longest image of a bench: 16 blocks of 256 bytes.
pub const ROOM: usize = 4096;

// What a call and the steps after it came to: the last answer, and how many steps there were.
#[derive(Clone, Copy)]
pub struct Ran {
    pub board: Record,
    pub answer: Answer,
    pub steps: usize,
}

// An image, the first bytes of a buffer; the number of blocks that calls are told; the record, and what the last call came to.
// The size stands beside the buffer since there is no heap, and a bench is copied whole to go back to: the kit's ArrayVec isn't Copy.
#[derive(Clone, Copy)]
pub struct Bench {
    pub image: [u8; ROOM],
    pub size: usize,
    pub blocks: u8,
    pub board: Record,
    pub answer: Answer,
    pub steps: usize,
    pub reply: [u8; 16],
}

// ---- printing

pub fn say(text: &[u8]) {
    io::write_all(1, text);
}

pub fn number(n: usize) {
    io::print_decimal(1, n as u64);
}

pub fn hex(bytes: &[u8]) {
    for byte in bytes {
        say(b" ");
        io::print_hex(1, u64::from(*byte), 2);
    }
}

pub fn blank(part: &[u8]) {
    if flash::is_blank(part) {
        say(b"ff only\n");
    } else {
        say(b"other bytes\n");
    }
}

impl Ran {
    // The last answer and the number of steps.
    pub fn result(self) {
        say(b": answer ");
        match self.answer {
            Answer::More => say(b"more"),
            answer => number(usize::from(wire::number(answer))),
        }
        say(b", ");
        number(self.steps);
        say(b" steps");
    }

    // What a call and its steps came to, and where a record in no job stands.
    pub fn tell(self, what: &[u8]) {
        say(what);
        self.result();
        if self.answer != Answer::More {
            say(b"; block ");
            number(usize::from(self.board.rest.block));
            say(b", end ");
            number(usize::from(self.board.rest.end));
        }
        say(b"\n");
    }
}

// ---- steps

// Does a job's steps, at most so many.
pub fn run(image: &mut [u8], blocks: u8, begun: Outcome, most: usize) -> Ran
    ensures { (image.new ≡ (run_on_of blocks most image.old begun).image)
        × (result.board ≡ (run_on_of blocks most image.old begun).board)
        × (result.answer ≡ (run_on_of blocks most image.old begun).answer) × (result.steps ≡ (run_on_of blocks most image.old begun).steps) }
{
    let mut now = begun;
    for steps in 0..most {
        let Answer::More = now.answer else {
            return Ran {
                board: now.board,
                answer: now.answer,
                steps,
            };
        };
        now = job::step(image, blocks, now.board);
    }
    Ran {
        board: now.board,
        answer: now.answer,
        steps: most,
    }
}

// The same on the first bytes of a buffer.
fn run_front(buffer: &mut [u8], size: usize, blocks: u8, begun: Outcome, most: usize) -> Ran
    ensures { (buffer.new ≡ (run_on_of blocks most (take size buffer.old) begun).image ++ drop size buffer.old)
        × (result.board ≡ (run_on_of blocks most (take size buffer.old) begun).board)
        × (result.answer ≡ (run_on_of blocks most (take size buffer.old) begun).answer)
        × (result.steps ≡ (run_on_of blocks most (take size buffer.old) begun).steps) }
{
    let size = size.min(buffer.len());
    run(&mut buffer[..size], blocks, begun, most)
}

impl Bench {
    // An image of so many bytes of one value, unmounted.
    pub fn new(value: u8, size: usize, blocks: u8) -> Bench
        ensures { result ≡ new_bench value size blocks }
    {
        Bench {
            image: [value; ROOM],
            size,
            blocks,
            board: records::unmounted(),
            answer: Answer::Done,
            steps: 0,
            reply: [0xEE; 16],
        }
    }

    // The image alone.
    pub fn as_image(&self) -> &[u8]
        ensures { result.now ≡ image_of self.now }
    {
        flash::front(&self.image, self.size)
    }

    // ---- calls

    // A call on the image, and its steps.
    pub fn went(self, begun: Outcome, reply: [u8; 16], most: usize) -> Bench
        ensures { result ≡ bench_of self (run_on_of self.blocks most (image_of self) begun) reply }
    {
        let mut image = self.image;
        let ran = run_front(&mut image, self.size, self.blocks, begun, most);
        Bench {
            image,
            board: ran.board,
            answer: ran.answer,
            steps: ran.steps,
            reply,
            ..self
        }
    }

    // Asks, and does so many steps at most: the cut is then what follows.
    pub fn ask_some(self, host: u8, message: &[u8], most: usize) -> Bench
        ensures { result ≡ ask_on self host message.now most }
    {
        let mut reply = [0xEE; 16];
        let begun = queue::request(
            self.as_image(),
            self.blocks,
            self.board,
            Host(host),
            message,
            &mut reply,
        );
        self.went(begun, reply, most)
    }

    pub fn ask(self, host: u8, message: &[u8]) -> Bench
        ensures { result ≡ ask_on self host message.now 65536 }
    {
        self.ask_some(host, message, 65536)
    }

    // Puts so many bytes of one value.
    pub fn put(self, host: u8, id: u16, value: u8, count: u8) -> Bench
        ensures { result ≡ ask_on self host (put_message id value count) 65536 }
    {
        let size = 6 + u16::from(count);
        let [size_low, size_high] = size.to_le_bytes();
        let [id_low, id_high] = id.to_le_bytes();
        let mut message = [value; 261];
        wire::lay(&mut message, &[size_low, size_high, 1, 1, id_low, id_high]);
        self.ask(host, &message[..usize::from(size)])
    }

    pub fn commit(self, host: u8) -> Bench
        ensures { result ≡ ask_on self host (4 ∷ 0 ∷ 3 ∷ 1 ∷ []) 65536 }
    {
        self.ask(host, &[4, 0, 3, 1])
    }

    pub fn mount(self) -> Bench
        ensures { result ≡ call_on self 65536 (mount_on self.blocks (image_of self)) fresh }
    {
        let begun = store::mount(self.as_image(), self.blocks);
        self.went(begun, [0xEE; 16], 65536)
    }

    // A format, with so many steps at most. It and the mount are of one form: a function that is given which to call is no shorter.
    pub fn format(self, most: usize) -> Bench
        ensures { result ≡ call_on self most (format_on self.blocks (image_of self)) fresh }
    {
        let begun = store::format(self.as_image(), self.blocks);
        self.went(begun, [0xEE; 16], most)
    }

    // ---- what a bench holds

    // What the last call came to.
    pub fn ran(self) -> Ran
        ensures { (result.board ≡ self.board) × (result.answer ≡ self.answer) × (result.steps ≡ self.steps) }
    {
        Ran {
            board: self.board,
            answer: self.answer,
            steps: self.steps,
        }
    }

    pub fn tell(self, what: &[u8]) {
        self.ran().tell(what);
    }

    // Bytes of the image, and whether all later ones are 0xFF.
    pub fn bytes(self, from: usize, to: usize) {
        let Some((head, tail)) = self.as_image().split_at_checked(to) else {
            return;
        };
        let Some(part) = head.get(from..) else {
            return;
        };
        say(b"   at ");
        number(from);
        say(b":");
        hex(part);
        say(b", then ");
        blank(tail);
    }

    // Log page 1, by its numbers.
    pub fn log(self) {
        let page = self.ask(0, &[5, 0, 6, 1, 1]).reply;
        let word = |low: u8, high: u8| usize::from(u16::from_le_bytes([low, high]));
        say(b"   log: time ");
        number(u32::from_le_bytes([page[4], page[5], page[6], page[7]]) as usize);
        say(b", count ");
        number(word(page[8], page[9]));
        say(b", U ");
        number(word(page[10], page[11]));
        say(b", S ");
        number(word(page[12], page[13]));
        say(b"\n");
    }

    // An object, if it is held; whether it is.
    fn object(self, id: u8) -> bool {
        let message = [6, 0, 5, 1, id, 0];
        if self.ask(0, &message).answer != Answer::Done {
            return false;
        }
        say(b" ");
        number(usize::from(id));
        say(b" of ");
        number(queue::read(self.as_image(), self.blocks, self.board, Host(0), &message).len());
        say(b" bytes");
        true
    }

    // Log page 1, which counts all objects, and those of the ids that the programs use.
    pub fn objects(self) {
        self.log();
        say(b"   holds");
        let mut held = false;
        for id in 0..8 {
            held |= self.object(id);
        }
        if !held {
            say(b" nothing");
        }
        say(b"\n");
    }
}
