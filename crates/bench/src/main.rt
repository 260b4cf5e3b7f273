// Document 01's bench rows, run on the code. The file stdout has what they must print.
#![tactic(auto)]

use board::Record;
use frame::Host;
use job::Outcome;
use scene::{Bench, hex, number, run, say};

// The rows are of two blocks.
const BLOCKS: u8 = 2;

// A format erases whatever was there.
fn row_a() -> Bench {
    let a = Bench::new(0, 512, BLOCKS).format(65536);
    a.tell(b"a  format");
    a.bytes(0, 9);
    a
}

fn row_b(a: Bench) -> Bench {
    let b = a.ask(2, &[8, 0, 1, 1, 5, 0, 0x41, 0x42]);
    b.tell(b"b  host 2 puts 41 42 to 5");
    b.bytes(16, 26);
    b
}

fn row_c(b: Bench) -> Bench {
    let c = b.commit(2);
    c.tell(b"c  host 2 commits");
    c.bytes(26, 32);
    c
}

const READ_FIVE: [u8; 6] = [6, 0, 5, 1, 5, 0];

fn read_five(what: &[u8], d: Bench) {
    say(what);
    hex(queue::read(d.as_image(), d.blocks, d.board, Host(0), &READ_FIVE));
    say(b"\n");
}

// That the stretch is the image's own bytes 23 and 24 shows when these two change.
fn row_d(c: Bench) {
    let mut changed = c;
    c.ask(0, &READ_FIVE).tell(b"d  read 5");
    read_five(b"   stretch:", c);
    changed.image[23] = 1;
    changed.image[24] = 2;
    read_five(b"   once bytes 23 and 24 are 01 02:", changed);
}

// The reply was 16 bytes of 0xEE; the last two stay.
fn row_e(c: Bench) {
    let e = c.ask(1, &[5, 0, 6, 1, 1]);
    e.tell(b"e  log");
    say(b"   reply:");
    hex(&e.reply);
    say(b"\n");
}

fn row_f(b: Bench) {
    let f = b.mount();
    f.tell(b"f  after b, cut, mount");
    f.bytes(26, 31);
    f.objects();
}

fn rows_g_h(b: Bench) {
    let five = b.ask_some(2, &[4, 0, 3, 1], 5);
    five.tell(b"g  in c, cut");
    let g = five.mount();
    g.tell(b"   mount");
    g.bytes(26, 37);
    g.objects();
    let six = b.ask_some(2, &[4, 0, 3, 1], 6);
    six.tell(b"h  in c, cut");
    let h = six.mount();
    h.tell(b"   mount");
    h.objects();
}

// A put of host 0's, and its commit.
fn settle(what: &[u8], d: Bench, id: u16, value: u8, count: u8) -> Bench {
    let pending = d.put(0, id, value, count);
    let settled = pending.commit(0);
    pending.tell(what);
    settled.tell(b"   commit");
    settled
}

// Two frames of 72 would be more than S/2, so each gets its commit. C is then U: 16 + 3 * 71 = 229.
fn row_i(a: Bench) -> Bench {
    let one = settle(b"i  host 0 puts 64 bytes to 1", a, 1, 11, 64);
    let two = settle(b"   to 2", one, 2, 22, 64);
    let i = settle(b"   to 3", two, 3, 33, 64);
    i.log();
    a.put(0, 1, 11, 64)
        .put(0, 2, 22, 64)
        .tell(b"   to 2, without 1's commit");
    i
}

// 229 + 8 + 6 + 14 = 257; with 63 bytes in 3 it is 256. Then a frame of 8 goes past 249, after a transfer of 228 - 5 steps.
fn rows_j_k(a: Bench, i: Bench) {
    i.put(0, 4, 0, 0).tell(b"j  put of an empty value to 4");
    let k = i.commit(0);
    k.tell(b"k  commit");
    k.log();
    k.put(0, 4, 0, 0).tell(b"   put of an empty value to 4");
    let two = a.put(0, 1, 11, 64).commit(0).put(0, 2, 22, 64).commit(0);
    let settled = settle(b"   with 63 bytes in 3", two, 3, 33, 63);
    settled.log();
    settled
        .put(0, 4, 0, 0)
        .tell(b"   put of an empty value to 4");
}

// 250 + 8 goes past S: the delete's transfer has 229 - 5 = 224 steps, its frame 8. The put's frame stands at 256 + 243.
fn row_l(i: Bench) -> Bench {
    let before = i.commit(0);
    let gone = before.ask(0, &[6, 0, 2, 1, 1, 0]);
    let settled = gone.commit(0);
    before.tell(b"l  commit");
    gone.tell(b"   delete 1");
    settled.tell(b"   commit");
    let l = settled.put(0, 4, 0, 0);
    l.tell(b"   put of an empty value to 4");
    l.bytes(499, 507);
    l.objects();
    before
}

// Step 223 makes the new block valid, step 224 erases the old one.
fn row_m(before: Bench, most: usize) {
    let cut = before.ask_some(0, &[6, 0, 2, 1, 1, 0], most);
    cut.tell(b"m  in that delete, cut");
    let m = cut.mount();
    m.tell(b"   mount");
    m.objects();
}

fn row_n(a: Bench) {
    a.ask(0, &[5, 0, 3, 1]).tell(b"n  05 00 03 01");
}

// A frame of 248 bytes is at most S/2 where S is 512: 16 + 248 + 6 + 14 = 284, and it ends at 16 + 248 = 264.
fn long_values() {
    let wide = Bench::new(0, 1024, BLOCKS).format(65536);
    wide.put(0, 9, 7, 240).tell(b"   of 240 bytes, S = 512");
    wide.put(0, 9, 7, 241).tell(b"   of 241 bytes, S = 512");
}

fn row_o(a: Bench) {
    a.put(0, 255, 7, 2).tell(b"o  put of 2 bytes to 255");
    a.put(0, 256, 7, 2).tell(b"   to 256");
    a.put(0, 9, 7, 240).tell(b"   of 240 bytes, S = 256");
    long_values();
    a.put(3, 9, 7, 2).tell(b"   by host 3");
    a.put(4, 9, 7, 2).tell(b"   by host 4");
}

// A call on an image of any length, and its steps.
fn finish(image: &mut [u8], what: &[u8], begun: Outcome) -> Record {
    let ran = run(image, BLOCKS, begun, 65536);
    say(what);
    ran.result();
    ran.board
}

// Format, mount and a put of one byte on an image of a length.
fn row_p(image: &mut [u8]) {
    say(b"p  length ");
    number(image.len());
    finish(image, b"; format", store::format(image, BLOCKS));
    let board = finish(image, b"; mount", store::mount(image, BLOCKS));
    let message = [7, 0, 1, 1, 0, 0, 9];
    let asked = queue::request(image, BLOCKS, board, Host(0), &message, &mut [0; 14]);
    finish(image, b"; put", asked);
    say(b"\n");
}

fn lengths() {
    row_p(&mut [0; 512]);
    row_p(&mut [0; 768]);
    row_p(&mut [0; 65536]);
    row_p(&mut [0; 256]);
    row_p(&mut [0; 511]);
}

fn main() {
    let a = row_a();
    let b = row_b(a);
    let c = row_c(b);
    row_d(c);
    row_e(c);
    row_f(b);
    rows_g_h(b);
    let i = row_i(a);
    rows_j_k(a, i);
    let before = row_l(i);
    row_m(before, 222);
    row_m(before, 223);
    row_n(a);
    row_o(a);
    lengths();
}
