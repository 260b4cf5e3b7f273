// The library for C: include/grommetide.h. The record crosses as bytes, and the answers as C's numbers. C may lend a buffer of any length, and the
// header promises 254 for one of another size than the record's: so each call tests it first.
#![tactic(auto)]

mod next;
mod steps;

ghost use Rattle.std.specs.Prelude.{◌≡◌};
ghost use Rattle.board.specs.Mount.{mount_on, format_on};
ghost use Rattle.board.specs.Queue.{asking, request_on};
ghost use Rattle.lent.specs.Layout.{record_size, record_in};
ghost use Rattle.edge.specs.Edge.{Edge, edge_mount, edge_format, edge_request, ReadsBack};
ghost use Rattle.edge.specs.Edge.{place, edge_read, broken, edge_fault};

use edge::WRONG_RECORD;
use frame::Host;
use job::records;
use lent::RECORD_SIZE;
pub use next::grommetide_next;
pub use steps::{grommetide_made, grommetide_run, grommetide_step};
use wire::Answer;

#[unsafe(no_mangle)]
pub extern "C" fn grommetide_record_size() -> usize
    ensures { result ≡ record_size }
{
    RECORD_SIZE
}

#[unsafe(no_mangle)]
pub extern "C" fn grommetide_mount(image: &[u8], blocks: u8, board: &mut [u8]) -> u8
    ensures answered { (let e : Edge = edge_mount blocks image.now board.old in
        (result ≡ e.answer) × (board.new ≡ e.board)) }
    ensures back { ReadsBack board.old board.new (mount_on blocks image.now).board }
{
    if board.len() != RECORD_SIZE {
        return WRONG_RECORD;
    }
    let mut places = records::no_places();
    let mut frame = records::no_frame();
    let s = store::mount_core(image, blocks, &mut places, &mut frame);
    pack::new_record(s, &places, &frame, board)
}

#[unsafe(no_mangle)]
pub extern "C" fn grommetide_fault(
    image: &[u8],
    blocks: u8,
    block: &mut usize,
    field: &mut u8,
    place: &mut usize,
) -> u8
    ensures { broken result block.new field.new place.new ≡ edge_fault blocks image.now }
{
    let mut places = records::no_places();
    let mut frame = records::no_frame();
    let answer = store::mount_core(image, blocks, &mut places, &mut frame).answer;
    let spot = wire::spot_of(answer);
    *block = spot.half as usize;
    *field = spot.field;
    *place = spot.place;
    wire::refused(answer)
}

#[unsafe(no_mangle)]
pub extern "C" fn grommetide_format(image: &[u8], blocks: u8, board: &mut [u8]) -> u8
    ensures answered { (let e : Edge = edge_format blocks image.now board.old in
        (result ≡ e.answer) × (board.new ≡ e.board)) }
    ensures back { ReadsBack board.old board.new (format_on blocks image.now).board }
{
    if board.len() != RECORD_SIZE {
        return WRONG_RECORD;
    }
    let places = records::no_places();
    let frame = records::no_frame();
    pack::new_record(store::format_core(image, blocks), &places, &frame, board)
}

#[unsafe(no_mangle)]
pub extern "C" fn grommetide_request(
    image: &[u8],
    blocks: u8,
    board: &mut [u8],
    host: u8,
    message: &[u8],
    reply: &mut [u8],
) -> u8
    ensures answered { (let e : Edge = edge_request blocks image.now board.old host message.now reply.old in
        (result ≡ e.answer) × (board.new ≡ e.board) × (reply.new ≡ e.reply)) }
    ensures back { ReadsBack board.old board.new
        (request_on (asking blocks image.now (record_in board.old) (record { 0 = host })
        message.now reply.old)).board }
{
    if board.len() != RECORD_SIZE {
        return WRONG_RECORD;
    }
    let phase = unpack::phase_of(board);
    let rest = unpack::rest_of(board);
    let mut recorded = records::no_places();
    unpack::read_places(board, &mut recorded);
    let mut places = records::no_places();
    let mut frame = records::no_frame();
    let s = queue::request_core(
        image,
        blocks,
        phase,
        rest,
        &recorded,
        Host(host),
        message,
        reply,
        &mut places,
        &mut frame,
    );
    pack::begun(s, &places, &frame, board)
}

#[unsafe(no_mangle)]
pub extern "C" fn grommetide_read(
    image: &[u8],
    blocks: u8,
    board: &[u8],
    host: u8,
    message: &[u8],
    at: &mut usize,
    len: &mut usize,
) -> u8
    ensures { place result at.new len.new
        ≡ edge_read blocks image.now board.now host message.now at.old len.old }
{
    if board.len() != RECORD_SIZE {
        return WRONG_RECORD;
    }
    let phase = unpack::phase_of(board);
    let rest = unpack::rest_of(board);
    let place = unpack::place_of(board, wire::id_in(message));
    let found = queue::find(image, blocks, phase, rest, place, Host(host), message);
    let stretch = found.unwrap_or_default();
    *at = stretch.at;
    *len = stretch.size;
    match found {
        Ok(_) => wire::number(Answer::Done),
        Err(why) => u8::from(why),
    }
}
