// Slices read and written at places that may lie past their end.
ghost use Rattle.std.specs.Prelude.{◌≡◌, get_or, take, drop, set};

// The element at a place, another value past the end.
pub fn get_or<T: Copy>(s: &[T], i: usize, none: T) -> T
    ensures { result ≡ get_or s.now i none }
{
    if i < s.len() { s[i] } else { none }
}

// An element stored at a place; nothing past the end.
pub fn set_at<T: Copy>(s: &mut [T], i: usize, x: T)
    ensures { s.new ≡ set s.old i x }
{
    if i < s.len() {
        s[i] = x;
    }
}

// The bytes from a place on, none past the end.
pub fn rest(s: &[u8], at: usize) -> &[u8]
    ensures { result.now ≡ drop at s.now }
{
    &s[at.min(s.len())..]
}

// The first bytes, as many as there are.
pub fn front(s: &[u8], n: usize) -> &[u8]
    ensures { result.now ≡ take n s.now }
{
    &s[..n.min(s.len())]
}
