// The next flash step, told in numbers for the caller to make.
ghost use Rattle.std.specs.Prelude.{◌≡◌};
ghost use Rattle.board.specs.Drive.{next_on};
ghost use Rattle.lent.specs.Layout.{record_in};
ghost use Rattle.edge.specs.Edge.{told, edge_next};

use board::Next;
use edge::WRONG_RECORD;
use flash::Shape;
use lent::RECORD_SIZE;

// In the middle of a frame, or by the record's numbers.
fn next_in(shape: Shape, board: &[u8]) -> Next
    ensures { result ≡ next_on shape.blocks shape.len (record_in board.now) }
{
    if let Some(found) = midframe::try_next(shape, board) {
        return Next::Program(found.at, found.byte);
    }
    let n = unpack::numbers(board);
    drive::next_of(shape, n, unpack::in_hand(n, board))
}

#[unsafe(no_mangle)]
pub extern "C" fn grommetide_next(
    len: usize,
    blocks: u8,
    board: &[u8],
    at: &mut usize,
    size: &mut usize,
    byte: &mut u8,
) -> u8
    ensures { told result at.new size.new byte.new
        ≡ edge_next blocks len board.now at.old size.old byte.old }
{
    if board.len() != RECORD_SIZE {
        return WRONG_RECORD;
    }
    let t = edge::tell(next_in(Shape { len, blocks }, board));
    *at = t.at;
    *size = t.size;
    *byte = t.byte;
    t.answer
}
