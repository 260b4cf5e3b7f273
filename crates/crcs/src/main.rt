// 1,159 CRCs. The file stdout has what a second program, scripts/crcs, says of the same inputs.
// It prints by the kit's io: std's print! would assume more functions of C.
#![tactic(auto)]

// Sixteen in a line.
fn show(at: usize, crc: u32) {
    io::write_all(1, if at % 16 == 0 { b"\n" } else { b" " });
    io::print_hex(1, u64::from(crc), 8);
}

// Of the first bytes, for each length below all.
fn fronts(what: &[u8], s: &[u8]) {
    io::write_all(1, what);
    for n in 0..s.len() {
        show(n, crc::crc32(&s[..n]));
    }
    io::write_all(1, b"\n");
}

fn singles() {
    io::write_all(1, b"single bytes");
    for byte in 0..=u8::MAX {
        show(usize::from(byte), crc::crc32(&[byte]));
    }
    io::write_all(1, b"\n");
}

fn mixed() -> [u8; 301] {
    let mut s = [0; 301];
    let mut x = 1u32;
    for byte in &mut s {
        x = (x * 75 + 74) % 65537;
        *byte = x.to_le_bytes()[0];
    }
    s
}

fn main() {
    fronts(b"0 to 300 mixed bytes", &mixed());
    fronts(b"0 to 300 bytes 00", &[0x00; 301]);
    fronts(b"0 to 300 bytes ff", &[0xFF; 301]);
    singles();
}
