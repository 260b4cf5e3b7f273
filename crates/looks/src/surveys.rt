// What a survey tells.
ghost use Rattle.std.specs.Prelude.{◌≡◌, ◌&&◌, ◌≤◌, eqb};
ghost use Rattle.journal.specs.Block.{last_time};
ghost use Rattle.looks.specs.Surveys.{is_valid, sum_of, time_for, next_time};

use job::records::LAST_TIME;
use survey::BlockKind;
use wire::Refusal;

pub fn is_valid(kind: BlockKind) -> bool
    ensures { result ≡ is_valid kind }
{
    kind == BlockKind::Valid
}

// All hosts' pending bytes.
pub fn sum(p: [u16; 4]) -> usize
    ensures { (result ≡ sum_of p) × (result ≤ 262140) }
{
    let [a, b, c, d] = p;
    usize::from(a) + usize::from(b) + usize::from(c) + usize::from(d)
}

// A transfer is needed, and there is no later time.
pub fn is_worn(moves: bool, time: u32) -> bool
    ensures { result ≡ (moves && eqb time last_time) }
{
    moves && time == LAST_TIME
}

// The creation time of the block that is made; 0 for none, also where there is no later time.
pub fn new_time(moves: bool, time: u32) -> u32
    ensures { result ≡ time_for moves time }
{
    if !moves || is_worn(moves, time) {
        return 0;
    }
    time + 1
}

// The same, or that there is no later time.
pub fn next_time(moves: bool, time: u32) -> Result<u32, Refusal>
    ensures { result ≡ next_time moves time }
{
    if is_worn(moves, time) {
        return Err(Refusal::Worn);
    }
    Ok(new_time(moves, time))
}
