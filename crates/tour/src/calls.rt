// Calls, each with a line that says what it came to.
use crate::shown::{answered, came, compare, judge, judged, stretch, unmounted};
use frame::Host;
use job::Outcome;
use scene::{Bench, say};
use wire::Answer;

// ---- requests

// A number as a byte; a larger one shows.
pub fn byte(n: usize) -> u8 {
    u8::try_from(n).unwrap_or_else(|_| {
        say(b"? above 255 ");
        255
    })
}

pub fn asked(d: Bench, host: usize, message: &[u8], most: usize, text: &[u8]) -> Bench {
    let after = d.ask_some(byte(host), message, most);
    came(d, after, text);
    after
}

// A host puts to an id so many bytes of one value.
pub fn puts(before: Bench, host: usize, id: usize, count: usize, value: u8, text: &[u8]) -> Bench {
    let after = before.put(byte(host), (id % 65536) as u16, value, byte(count));
    came(before, after, text);
    after
}

// A request of host 0's with a reply of so many bytes, at most 16.
pub fn with_reply(d: Bench, message: &[u8], room: usize, text: &[u8]) -> Bench {
    let mut reply = [0xEE; 16];
    let Some(lent) = reply.get_mut(..room) else {
        say(b"? above 16 ");
        return d;
    };
    let begun = queue::request(d.as_image(), d.blocks, d.board, Host(0), message, lent);
    let after = d.went(begun, reply, 65536);
    came(d, after, text);
    after
}

// A read by host 0: its answer and its stretch.
pub fn reads(d: Bench, message: &[u8], text: &[u8]) {
    let after = d.ask(0, message);
    say(text);
    after.ran().result();
    compare(d, after);
    stretch(d, message);
}

// ---- the board's calls

pub fn formats(d: Bench, most: usize, text: &[u8]) -> Bench {
    let after = d.format(most);
    after.tell(text);
    after
}

// A refused mount hands back an unmounted record.
pub fn mounts(d: Bench, text: &[u8]) -> Bench {
    let after = d.mount();
    if after.answer == Answer::Done {
        after.tell(text);
        return after;
    }
    say(text);
    after.ran().result();
    judge(b"; image", d.image == after.image);
    unmounted(after.board);
    after
}

fn steps(d: Bench, most: usize) -> Bench {
    let more = Outcome {
        answer: Answer::More,
        board: d.board,
    };
    d.went(more, [0xEE; 16], most)
}

// The steps that a job has left.
pub fn goes_on(d: Bench, text: &[u8]) -> Bench {
    let after = steps(d, 65536);
    after.tell(text);
    after
}

// One step call that may not change anything.
pub fn tries(d: Bench, text: &[u8]) -> Bench {
    let after = steps(d, 1);
    say(text);
    answered(after.answer);
    judged(d, after);
    after
}
