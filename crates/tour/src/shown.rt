// What a call came to, and whether image, record and reply are as they were before it.
use board::{Phase, Record};
use frame::Host;
use scene::{Bench, hex, number, say};
use wire::Answer;

pub fn title(text: &[u8]) {
    say(text);
    say(b"\n");
}

// Whether something is as it was.
pub fn judge(what: &[u8], same: bool) {
    say(what);
    if same {
        say(b" same");
    } else {
        say(b" CHANGED");
    }
}

// Every reply is lent as bytes 0xEE.
pub fn reply_kept(reply: [u8; 16]) {
    judge(b", reply", reply == [0xEE; 16]);
}

pub fn compare(before: Bench, after: Bench) {
    judge(b"; image", before.image == after.image);
    judge(b", record", before.board == after.board);
    reply_kept(after.reply);
}

// The end of a line, with a comparison.
pub fn judged(before: Bench, after: Bench) {
    compare(before, after);
    say(b"\n");
}

// A refusal, or another call that is done without a step, is compared with what was before.
pub fn came(before: Bench, after: Bench, text: &[u8]) {
    if 0 < after.steps || after.answer == Answer::More {
        return after.tell(text);
    }
    say(text);
    after.ran().result();
    judged(before, after);
}

pub fn answered(answer: Answer) {
    say(b": answer ");
    number(usize::from(wire::number(answer)));
}

pub fn unmounted(board: Record) {
    if board.phase == Phase::Unmounted {
        say(b", record unmounted\n");
    } else {
        say(b", record MOUNTED\n");
    }
}

pub fn stretch(d: Bench, message: &[u8]) {
    let found = queue::read(d.as_image(), d.blocks, d.board, Host(0), message);
    say(b"; stretch [");
    hex(found);
    say(b" ] of length ");
    number(found.len());
    say(b"\n");
}

pub fn reply_shown(d: Bench) {
    say(b"   reply:");
    hex(&d.reply);
    say(b"\n");
}
