// What a survey tells of the room in its block.
ghost use Rattle.std.specs.Prelude.{◌≡◌, ◌||◌, ◌≤◌, eqb, ltb};
ghost use Rattle.frame.specs.Frame.{delete_len, end_len};
ghost use Rattle.journal.specs.Room.{one};
ghost use Rattle.serving.specs.Calls.{claimed_in, second_in, open_in, open_with, no_room_in};

use frame::{DELETE_LEN, END_LEN, Edition, Host};
use looks::surveys;
use survey::Survey;

// The length of a commit or an abort. One function of any length would be no plainer: it would have to require that the sum is a u8.
pub fn end_len(edition: Edition) -> u8
    ensures { (result ≡ end_len edition) × (result ≤ 10) }
{
    END_LEN + frame::check_len(edition)
}

// The length of a delete, and of a put without its value.
pub fn change_len(edition: Edition) -> u8
    ensures { (result ≡ delete_len edition) × (result ≤ 12) }
{
    DELETE_LEN + frame::check_len(edition)
}

// C.
pub fn claimed(s: Survey) -> usize
    ensures { (result ≡ claimed_in s) × (result ≤ 327675) }
{
    usize::from(s.used) + surveys::sum(s.pending)
}

// U in the second edition, in which each object's frame has a check.
pub fn used_second(s: Survey) -> usize
    ensures { result ≡ second_in s.edition s }
{
    match s.edition {
        Edition::First => usize::from(s.used) + 4 * usize::from(s.count),
        Edition::Second => usize::from(s.used),
    }
}

// How many hosts have something pending.
pub fn open_hosts(p: [u16; 4]) -> usize
    ensures { (result ≡ open_in p) × (result ≤ 4) }
{
    p.iter().filter(|n| 0 < **n).count()
}

// How many will have, where a host has a change more.
fn open_with(host: Host, p: [u16; 4]) -> usize
    ensures { (result ≡ open_with host p) × (result ≤ 4) }
{
    (0..4)
        .filter(|j| host == Host(*j) || 0 < fetch::of_host(p, Host(*j)))
        .count()
}

// The room rule, for a change of n bytes of a host.
#[tactic(auto, unfolding(crate::specs::Calls::no_room_in))]
pub fn no_room(size: usize, s: Survey, host: Host, n: u8, spare: u8) -> bool
    ensures { result ≡ no_room_in size s host n spare }
{
    let open = usize::from(end_len(s.edition)) * open_with(host, s.pending);
    size < claimed(s) + usize::from(n) + open + usize::from(spare)
}
