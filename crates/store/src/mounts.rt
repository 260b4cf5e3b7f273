// Mount and format.
ghost use Rattle.std.specs.Prelude.{◌≡◌, ◌+◌, ◌≤◌, length, IfSome};
ghost use Rattle.flash.specs.Flash.{max_blocks};
ghost use Rattle.journal.specs.Block.{block_max};
ghost use Rattle.board.specs.Record.{no_places, no_frame, Out};
ghost use Rattle.board.specs.Mount.{tied_times, mount_on, format_order, format_on};
ghost use Rattle.looks.specs.Seen.{erases_of};
ghost use Rattle.store.specs.Calls.{Gives, made, places_after, or_refused, refused};
ghost use Rattle.store.specs.Mounts.{mount_in, mount_seen, Comes, last_erased, order_by};

use crate::mends;
use crate::mends::Mend;
use board::{Job, Phase};
use flash::MAX_BLOCKS;
use frame::{BUFFER_LEN, Edition, Fault, Field, ID_MAX};
use job::records::Stepped;
use job::{Outcome, records};
use journal::TIME_AT;
use looks::image::Image;
use looks::lists::Erases;
use looks::{Newest, Seen, image, lists, surveys};
use wire::{Answer, Refusal};

// Past the last id: nothing is copied.
const PAST_IDS: u16 = ID_MAX as u16 + 1;

// A refusal: the record is unmounted.
fn refused(why: Refusal) -> Stepped
    ensures { result ≡ refused why }
{
    let rest = records::standing(0, 0, 0, 0, 0);
    records::at_rest(Answer::Refused(why), Phase::Unmounted, rest)
}

// What a mount or format came to, as a record: no frame is copied yet.
fn made(s: Stepped, places: [u16; 256], frame: [u8; BUFFER_LEN]) -> Outcome
    ensures { result ≡ made places frame s }
{
    Outcome {
        answer: s.answer,
        board: records::assemble(s.next, places, records::no_frame(), frame),
    }
}

// ---- mount

// Equal times: the lowest such block is named, at its time.
fn tied_times(number: u8) -> Refusal
    ensures { result ≡ tied_times number }
{
    let fault = Fault {
        field: Field::Created,
        place: TIME_AT,
    };
    Refusal::Foreign(number, fault)
}

// The block that is taken, the blocks to erase, and what is done with the one.
fn mount_at(blocks: u8, last: u16, w: Newest, list: Erases, m: Mend) -> Result<Stepped, Refusal>
    ensures { result ≡ mount_in blocks last w list m }
{
    let edition = u8::from(w.edition);
    // names of their own, here and in a format: the borrow checker refuses an array field put straight into another value
    let wipe = list.items;
    let mut job = Job {
        wipe,
        wipes: list.count,
        drops: true,
        target: image::next_block(blocks, w.number),
        edition,
        ..records::no_job()
    };
    let end = match m {
        Mend::Transfer => {
            job.moves = true;
            job.time = surveys::next_time(true, w.time)?;
            w.end
        }
        Mend::Append { end, closes, size } => {
            let close = closes.items;
            job.close = close;
            job.closes = closes.count;
            job.size = size;
            end
        }
    };
    let rest = records::standing(blocks, last, w.number, end, edition);
    Ok(records::begin(rest, job, records::starting(0, w.end)))
}

// The torn frame of the block that is taken lies in it.
fn mount_seen(image: &Image<'_>, z: Seen) -> Result<Stepped, Refusal>
    requires { IfSome z.newest (λ w. w.end + w.torn ≤ block_max) }
    ensures { result ≡ mount_seen image.now.blocks image.now.bytes.now z }
{
    let w = z.newest.ok_or(z.why)?;
    if let Some(lowest) = z.tie {
        return Err(tied_times(lowest));
    }
    let list = lists::others(image.blocks, w.number, z.blanks);
    let m = mends::mending(image.block(w.number), w);
    mount_at(image.blocks, image.last(), w, list, m)
}

// By one look at the blocks, which leaves the places of the block that is taken.
fn mount_image(bytes: &[u8], blocks: u8, places: &mut [u16; 256]) -> Result<Stepped, Refusal>
    ensures { Comes places.new result (mount_on blocks bytes.now) }
{
    let image = Image::try_new(bytes, blocks)?;
    let seen = looks::look(&image, places);
    mount_seen(&image, seen)
}

// A refused mount leaves no places.
fn drop_places(answer: Answer, places: &mut [u16; 256])
    ensures { places.new ≡ places_after answer places.old }
{
    if let Answer::Refused(_) = answer {
        *places = records::no_places();
    }
}

// A mount, with its places and the frame to append lent.
pub fn mount_core(
    image: &[u8],
    blocks: u8,
    places: &mut [u16; 256],
    frame: &mut [u8; BUFFER_LEN],
) -> Stepped
    ensures { Gives places.new frame.new result (mount_on blocks image.now) }
{
    let s = mount_image(image, blocks, places).unwrap_or_else(refused);
    drop_places(s.answer, places);
    mends::lay_reset(s.next.job, frame);
    s
}

pub fn mount(image: &[u8], blocks: u8) -> Outcome
    ensures { (let o : Out = mount_on blocks image.now in (result.answer ≡ o.answer) × (result.board ≡ o.board)) }
{
    let mut places = records::no_places();
    let mut frame = records::no_frame();
    let s = mount_core(image, blocks, &mut places, &mut frame);
    made(s, places, frame)
}

// ---- format

// The current block; past the blocks if there is none.
fn last_erased(blocks: u8, newest: Option<Newest>) -> u8
    ensures { result ≡ last_erased blocks newest }
{
    match newest {
        Some(w) if !w.shared => w.number,
        _ => blocks,
    }
}

// All blocks in number order, but the one that comes last.
fn format_list(blocks: u8, last: u8) -> Erases
    requires { blocks ≤ max_blocks }
    ensures { result ≡ erases_of (order_by blocks last) }
{
    let mut list = lists::others(blocks, last, [false; MAX_BLOCKS]);
    if last < blocks {
        list.push(last);
    }
    list
}

// The places that a look gives are not kept.
fn format_order(image: &Image<'_>) -> Erases
    ensures { result ≡ erases_of (format_order image.now.blocks image.now.bytes.now) }
{
    let mut places = records::no_places();
    let seen = looks::look(image, &mut places);
    format_list(image.blocks, last_erased(image.blocks, seen.newest))
}

// Every block erased, and the first one made.
fn format_image(bytes: &[u8], blocks: u8) -> Result<Stepped, Refusal>
    ensures { Gives no_places no_frame (or_refused result) (format_on blocks bytes.now) }
{
    let image = Image::try_new(bytes, blocks)?;
    let order = format_order(&image);
    let wipe = order.items;
    let edition = u8::from(Edition::First);
    let job = Job {
        wipe,
        wipes: order.count,
        moves: true,
        time: 1,
        edition,
        ..records::no_job()
    };
    let rest = records::standing(
        image.blocks,
        image.last(),
        image::next_block(image.blocks, 0),
        records::START,
        edition,
    );
    let cursor = records::starting(PAST_IDS, records::START);
    Ok(records::begin(rest, job, cursor))
}

// A format, which leaves no places and appends no frame.
pub fn format_core(image: &[u8], blocks: u8) -> Stepped
    ensures { Gives no_places no_frame result (format_on blocks image.now) }
{
    format_image(image, blocks).unwrap_or_else(refused)
}

pub fn format(image: &[u8], blocks: u8) -> Outcome
    ensures { (let o : Out = format_on blocks image.now in (result.answer ≡ o.answer) × (result.board ≡ o.board)) }
{
    made(
        format_core(image, blocks),
        records::no_places(),
        records::no_frame(),
    )
}
