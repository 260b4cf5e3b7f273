// A tour of what document 01's rows leave out: every refusal, aborts, hosts, transfers, cuts and the last times. The file stdin
// is its script: the calls, a line each, and the sums as comments. The file stdout has what it must print, worked out from
// documents 01 and 02.
#![tactic(auto)]

ghost use Rattle.std.specs.Prelude.{◌<◌};

use calls::byte;
use lines::{Call, Unread, cut, message, numbers};
use scene::{Bench, number, say};

mod calls;
mod hand;
mod lines;
mod shown;

// A slot's number; a larger one shows.
fn slot(n: usize) -> usize
    ensures { result < 4 }
{
    if 3 < n {
        say(b"? no slot ");
        return 0;
    }
    n
}

// A line that changes the store, by a call or by hand.
fn next(d: Bench, call: Call, message: &[u8], text: &[u8]) -> Bench {
    match call {
        Call::Ask { host } => calls::asked(d, host, message, 65536, text),
        Call::Cut { host, most } => calls::asked(d, host, message, most, text),
        Call::Put { host, id, count } => {
            calls::puts(d, host, id, count, flash::byte_at(message, 0), text)
        }
        Call::With { room } => calls::with_reply(d, message, room, text),
        Call::Format { most } => calls::formats(d, most, text),
        Call::Mount => calls::mounts(d, text),
        Call::Go => calls::goes_on(d, text),
        Call::Try => calls::tries(d, text),
        Call::New { size, blocks } => Bench::new(0xFF, size, byte(blocks)),
        Call::Quantity { blocks } => Bench {
            blocks: byte(blocks),
            ..d
        },
        Call::Double { at } => hand::double(d, at),
        Call::Image { at } => hand::image(d, at, message),
        Call::Board { at } => hand::board(d, at, message),
        _ => d,
    }
}

// A line that shows something.
fn show(d: Bench, call: Call, message: &[u8], text: &[u8]) {
    match call {
        Call::Say => shown::title(text),
        Call::View { from, to } => d.bytes(from, to),
        Call::Log => d.log(),
        Call::Objects => d.objects(),
        Call::Handed => shown::reply_shown(d),
        Call::Read => calls::reads(d, message, text),
        Call::Zeros {
            size,
            blocks,
            tried,
        } => hand::zeros(d, size, blocks, tried, text),
        Call::Elsewhere => hand::elsewhere(d, text),
        _ => (),
    }
}

// The store as it stands, and those that the script goes back to.
#[derive(Drop)]
struct Tour {
    now: Bench,
    kept: [Bench; 4],
}

impl Tour {
    fn new() -> Tour {
        let now = Bench::new(0xFF, 512, 2);
        Tour {
            now,
            kept: [now; 4],
        }
    }

    fn run(&mut self, call: Call, message: &[u8], text: &[u8]) {
        match call {
            Call::Keep { slot: n } => self.kept[slot(n)] = self.now,
            Call::Use { slot: n } => self.now = self.kept[slot(n)],
            Call::Judge { slot: n } => {
                let old = self.kept[slot(n)];
                say(text);
                shown::judged(old, self.now);
            }
            _ => {
                show(self.now, call, message, text);
                self.now = next(self.now, call, message, text);
            }
        }
    }

    // A line: a word, numbers, a message in hex after `x`, and after `|` a text.
    fn line(&mut self, s: &[u8]) -> Result<(), Unread> {
        let [word, ..] = s else {
            return Ok(());
        };
        if matches!(word, 0 | b'#') {
            return Ok(());
        }
        let (head, text) = cut(s, b'|');
        let (call, hex) = cut(head, b'x');
        let call = Call::new(*word, &numbers(call)?)?;
        self.run(call, &message(hex)?, text);
        Ok(())
    }
}

fn script(s: &[u8]) {
    let mut tour = Tour::new();
    for (i, line) in s.split(|b| *b == b'\n').enumerate() {
        if tour.line(line).is_err() {
            say(b"? line ");
            number(i + 1);
            say(b"\n");
        }
    }
}

fn main() {
    let mut buffer = io::large_buffer();
    let n = io::read_full(0, &mut buffer);
    script(&buffer[..n]);
}
