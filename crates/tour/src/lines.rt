// A line of the script, taken apart.
ghost use Rattle.std.specs.Prelude.{◌≡◌, ◌==◌, ◌+◌, ◌<◌, [], length, take, drop, position, IfSome, MatchOption};

use crate::hand::Tried;
use arrayvec::ArrayVec;

// A line that can't be read.
#[derive(Clone, Copy)]
pub struct Unread;

// What a line asks for, with its numbers.
#[derive(Clone, Copy)]
pub enum Call {
    Ask {
        host: usize,
    },
    Board {
        at: usize,
    },
    Cut {
        host: usize,
        most: usize,
    },
    Double {
        at: usize,
    },
    Elsewhere,
    Format {
        most: usize,
    },
    Go,
    Handed,
    Image {
        at: usize,
    },
    Judge {
        slot: usize,
    },
    Keep {
        slot: usize,
    },
    Log,
    Mount,
    New {
        size: usize,
        blocks: usize,
    },
    Objects,
    Put {
        host: usize,
        id: usize,
        count: usize,
    },
    Quantity {
        blocks: usize,
    },
    Read,
    Say,
    Try,
    Use {
        slot: usize,
    },
    View {
        from: usize,
        to: usize,
    },
    With {
        room: usize,
    },
    Zeros {
        size: usize,
        blocks: usize,
        tried: Tried,
    },
}

impl Call {
    // A word goes by its first letter, and takes so many numbers.
    pub fn new(word: u8, numbers: &[usize]) -> Result<Call, Unread> {
        Ok(match (word, numbers) {
            (b'a', &[host]) => Call::Ask { host },
            (b'b', &[at]) => Call::Board { at },
            (b'c', &[host, most]) => Call::Cut { host, most },
            (b'd', &[at]) => Call::Double { at },
            (b'e', []) => Call::Elsewhere,
            (b'f', &[most]) => Call::Format { most },
            (b'g', []) => Call::Go,
            (b'h', []) => Call::Handed,
            (b'i', &[at]) => Call::Image { at },
            (b'j', &[slot]) => Call::Judge { slot },
            (b'k', &[slot]) => Call::Keep { slot },
            (b'l', []) => Call::Log,
            (b'm', []) => Call::Mount,
            (b'n', &[size, blocks]) => Call::New { size, blocks },
            (b'o', []) => Call::Objects,
            (b'p', &[host, id, count]) => Call::Put { host, id, count },
            (b'q', &[blocks]) => Call::Quantity { blocks },
            (b'r', []) => Call::Read,
            (b's', []) => Call::Say,
            (b't', []) => Call::Try,
            (b'u', &[slot]) => Call::Use { slot },
            (b'v', &[from, to]) => Call::View { from, to },
            (b'w', &[room]) => Call::With { room },
            (b'z', &[size, blocks, which]) => Call::Zeros {
                size,
                blocks,
                tried: Tried::new(which),
            },
            _ => return Err(Unread),
        })
    }
}

// Where a byte stands first.
fn find(s: &[u8], byte: u8) -> Option<usize>
    ensures place { result ≡ position (λ b. b == byte) s.now }
    ensures within { IfSome result (λ at. at < length s.now) }
{
    s.iter().position(|b| *b == byte)
}

// What stands before a byte's first place, and after it.
pub fn cut(s: &[u8], byte: u8) -> (&[u8], &[u8])
    ensures { MatchOption (position (λ b. b == byte) s.now) ((result.0.now ≡ s.now) × (result.1.now ≡ []))
        (λ at. (result.0.now ≡ take at s.now) × (result.1.now ≡ drop (at + 1) s.now)) }
{
    match find(s, byte) {
        Some(at) => (&s[..at], &s[at + 1..]),
        None => (s, &[]),
    }
}

// ---- numbers

// A number of at most 5 digits, zeros before it aside.
fn decimal(digits: &[u8]) -> Result<usize, Unread> {
    let mut n = 0;
    for b in digits {
        if 9999 < n || !b.is_ascii_digit() {
            return Err(Unread);
        }
        n = 10 * n + usize::from(*b - b'0');
    }
    Ok(n)
}

// The numbers after a word, at most three.
pub fn numbers(s: &[u8]) -> Result<ArrayVec<usize, 3>, Unread> {
    let mut numbers = ArrayVec::new();
    let start = s.iter().position(|b| b.is_ascii_digit()).unwrap_or(s.len());
    for digits in s[start..].split(|b| *b == b' ') {
        if !digits.is_empty() {
            numbers.try_push(decimal(digits)?).map_err(|_| Unread)?;
        }
    }
    Ok(numbers)
}

// ---- messages

fn nibble(b: u8) -> Result<u8, Unread> {
    match b {
        b'0'..=b'9' => Ok(b - b'0'),
        b'a'..=b'f' => Ok(b - b'a' + 10),
        _ => Err(Unread),
    }
}

// A message in hex, two digits a byte, of at most 16 bytes.
pub fn message(s: &[u8]) -> Result<ArrayVec<u8, 16>, Unread> {
    let mut bytes = ArrayVec::new();
    let mut high = None;
    for b in s.iter().filter(|b| **b != b' ') {
        let low = nibble(*b)?;
        high = match high {
            None => Some(low),
            Some(high) => {
                bytes.try_push(high << 4 | low).map_err(|_| Unread)?;
                None
            }
        };
    }
    if high.is_some() {
        return Err(Unread);
    }
    Ok(bytes)
}
