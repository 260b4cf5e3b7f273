// The record of a job that began: no frame is copied yet. The answers are C's numbers.
ghost use Rattle.std.specs.Prelude.{◌≡◌};
ghost use Rattle.lent.specs.Layout.{record_into};
ghost use Rattle.wire.specs.Answer.{edge_number};
ghost use Rattle.board.specs.Record.{no_frame};
ghost use Rattle.job.specs.Code.{assemble};
ghost use Rattle.pack.specs.Code.{ReadsAs, into_if, ReadsAsIf};

use crate::encode_parts;
use frame::BUFFER_LEN;
use job::records;
use job::records::Stepped;
use wire::Answer;

// What a mount or format left: the record written, and the answer.
pub fn new_record(s: Stepped, places: &[u16; 256], frame: &[u8; BUFFER_LEN], board: &mut [u8]) -> u8
    ensures value { (result ≡ edge_number s.answer) × (board.new
        ≡ record_into (assemble s.next places.now no_frame frame.now) board.old) }
    ensures back { ReadsAs board.old board.new
        (assemble s.next places.now no_frame frame.now) }
{
    encode_parts(s.next, places, &records::no_frame(), frame, board);
    wire::number(s.answer)
}

// What a request left: the record written where a job began, and the answer.
pub fn begun(s: Stepped, places: &[u16; 256], frame: &[u8; BUFFER_LEN], board: &mut [u8]) -> u8
    ensures value { (result ≡ edge_number s.answer) × (board.new
        ≡ into_if s.answer (assemble s.next places.now no_frame frame.now) board.old) }
    ensures back { ReadsAsIf s.answer board.old board.new
        (assemble s.next places.now no_frame frame.now) }
{
    match s.answer {
        Answer::More => new_record(s, places, frame, board),
        Answer::Done | Answer::Refused(_) => wire::number(s.answer),
    }
}
