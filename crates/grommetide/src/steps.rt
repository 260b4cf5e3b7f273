// Steps on the record's bytes: one, one that the caller made, or many.
ghost use Rattle.std.specs.Prelude.{◌≡◌};
ghost use Rattle.board.specs.Step.{step_on};
ghost use Rattle.board.specs.Drive.{made_on, run_on_of};
ghost use Rattle.lent.specs.Layout.{record_in};
ghost use Rattle.edge.specs.Edge.{Edge, edge_step, edge_made, run, edge_run, ReadsBack};

use edge::WRONG_RECORD;
use flash::Shape;
use job::records;
use lent::RECORD_SIZE;
use wire::Answer;

#[unsafe(no_mangle)]
pub extern "C" fn grommetide_step(image: &mut [u8], blocks: u8, board: &mut [u8]) -> u8
    ensures answered { (let e : Edge = edge_step blocks image.old board.old in
        (result ≡ e.answer) × (image.new ≡ e.image) × (board.new ≡ e.board)) }
    ensures back { ReadsBack board.old board.new
        (step_on blocks image.old (record_in board.old)).board }
{
    if midframe::try_byte(image, blocks, board) {
        return wire::number(Answer::More);
    }
    edge::step_numbers(image, blocks, board)
}

#[unsafe(no_mangle)]
pub extern "C" fn grommetide_made(image: &[u8], blocks: u8, board: &mut [u8]) -> u8
    ensures answered { (let e : Edge = edge_made blocks image.now board.old in
        (result ≡ e.answer) × (board.new ≡ e.board)) }
    ensures back { ReadsBack board.old board.new
        (made_on blocks image.now (record_in board.old)).board }
{
    let shape = Shape::of(image, blocks);
    if midframe::try_made(shape, board) {
        return wire::number(Answer::More);
    }
    if board.len() != RECORD_SIZE {
        return WRONG_RECORD;
    }
    let n = unpack::numbers(board);
    let m = job::made_of(shape, n);
    edge::go_on(image, blocks, n.phase, m, board)
}

#[unsafe(no_mangle)]
pub extern "C" fn grommetide_run(
    image: &mut [u8],
    blocks: u8,
    board: &mut [u8],
    most: usize,
    steps: &mut usize,
) -> u8
    ensures board_after { run result steps.new image.new board.new
        ≡ edge_run blocks image.old board.old most steps.old }
    ensures back { ReadsBack board.old board.new
        (run_on_of blocks most image.old (record_in board.old)).out.board }
{
    if board.len() != RECORD_SIZE {
        return WRONG_RECORD;
    }
    let mut places = records::no_places();
    unpack::read_places(board, &mut places);
    let mut unit = unpack::unit(board);
    let frame = unpack::append(board);
    let n = unpack::numbers(board);
    let ran = drive::run_core(image, blocks, n, &mut places, &mut unit, &frame, most);
    *steps = ran.steps;
    if ran.steps != 0 {
        pack::write_loaded(ran.stepped, &places, &unit, board);
    }
    wire::number(ran.stepped.answer)
}
