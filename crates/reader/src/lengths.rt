// Which lengths frames have.
ghost use Rattle.std.specs.Prelude.{◌≡◌};
ghost use Rattle.frame.specs.Reader.{has_length, only_settled};

use crate::{MAX_PUT, MAX_SETTLED};
use frame::{END_LEN, Edition, ID_MAX, PUT_LEN, RESET_LEN, SETTLED_KIND, SETTLED_LEN, check_len};

// Some frame that may stand has n bytes.
pub fn has_length(edition: Edition, next: usize, n: u8) -> bool
    ensures { result ≡ has_length edition next n }
{
    let check = check_len(edition);
    n == RESET_LEN + check
        || n == END_LEN + check
        || (PUT_LEN + check <= n && n as usize <= MAX_PUT + check as usize)
        || (next <= ID_MAX && n == SETTLED_LEN + check)
}

// The bytes can only be a settled frame's.
pub fn only_settled(edition: Edition, next: usize, n: u8, k: u8) -> bool
    ensures { result ≡ only_settled edition next n k }
{
    let check = check_len(edition);
    next <= ID_MAX
        && SETTLED_LEN + check <= n
        && n as usize <= MAX_SETTLED + check as usize
        && (k == SETTLED_KIND || n == SETTLED_LEN + check)
}
