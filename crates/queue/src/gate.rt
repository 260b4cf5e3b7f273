// The refusals for which no byte of the image is looked at.
ghost use Rattle.queue.specs.Calls.{Gated};

use board::Phase;
use frame::{HOST_MAX, Host};
use looks::image::Image;
use wire::Refusal;

// The image of a request that is to be heard, or why it isn't: by the image's length and number of blocks, the host, and the record's phase.
#[tactic(auto, unfolding(crate::specs::Calls::gate_of))]
pub fn check(bytes: &[u8], blocks: u8, phase: Phase, host: Host) -> Result<Image<'_>, Refusal>
    ensures { Gated blocks bytes.now phase host result }
{
    let image = Image::try_new(bytes, blocks)?;
    if HOST_MAX < usize::from(host.0) {
        return Err(Refusal::HostRange);
    }
    match phase {
        Phase::Idle => Ok(image),
        Phase::Busy(_) => Err(Refusal::Busy),
        Phase::Unmounted => Err(Refusal::NoStore),
    }
}
