// 11: the image read afresh, and what of it an idle record has.
ghost use Rattle.std.specs.Prelude.{◌≡◌, ◌&&◌};
ghost use Rattle.flash.specs.Bytes.{same_bytes_of};
ghost use Rattle.flash.specs.Flash.{block_numbers};
ghost use Rattle.board.specs.Record.{no_places, idle};
ghost use Rattle.board.specs.Queue.{others_blank, same_image};
ghost use Rattle.queue.specs.Calls.{as_recorded};

use board::Rest;
use flash::Shape;
use looks::image::Image;
use looks::surveys;
use serving::room;
use survey::Survey;

// Every block but one is blank.
fn others_blank(image: &Image<'_>, number: u8) -> bool
    ensures { result ≡ others_blank image.now.blocks number image.now.bytes.now (block_numbers image.now.blocks) }
{
    (0..image.blocks).all(|k| number == k || flash::is_blank(image.block(k)))
}

// The image has the recorded length and number of blocks, the recorded block is there, and the others are blank.
pub fn same_image(image: &Image<'_>, rest: Rest) -> bool
    ensures { result ≡ same_image image.now.blocks image.now.bytes.now (idle no_places rest) }
{
    job::same_shape(Shape::of(image.bytes, image.blocks), rest)
        && rest.block < image.blocks
        && others_blank(image, rest.block)
}

// The current block and its places are as an idle record has them.
#[tactic(auto, using(crate::proofs::Counts::same_is), unfolding(crate::specs::Calls::as_recorded))]
pub fn is_fresh(
    size: usize,
    rest: Rest,
    recorded: &[u16; 256],
    s: Survey,
    places: &[u16; 256],
) -> bool
    ensures { result ≡ (as_recorded size rest s && same_bytes_of places.now recorded.now) }
{
    surveys::is_valid(s.kind)
        && s.torn == 0
        && u8::from(s.edition) == rest.edition
        && s.end == rest.end
        && s.pending == rest.pending
        && room::claimed(s) + usize::from(room::end_len(s.edition)) * room::open_hosts(s.pending)
            <= size
        && places == recorded
}
