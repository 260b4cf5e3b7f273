// A job's numbers after a step.
ghost use Rattle.std.specs.Prelude.{◌≡◌, List, cond, ℕ, suc, ◌<◌, ltb, Some, None};
ghost use Rattle.board.specs.declared.Stage.TheVariants as stages;
ghost use Rattle.board.specs.Step.{next_index, advance};
ghost use Rattle.job.specs.Code.{assemble, staged, LeadsTo, Moves, moved_byte, offset_for};

use crate::records::{Numbers, Stepped};
use crate::{header, records};
use board::{Cursor, Phase, Rest, Stage};
use wire::Answer;

// Where a step leaves a job. No array is read: where the next frame is due, enter_copy goes on from there. Both hold the same, at the same
// place: what a step does not change is then not copied.
#[derive(Clone, Copy)]
pub enum Moved {
    Still(Stepped),
    Due(Stepped),
}

// There is a step more, of so many.
fn has_next(index: u8, count: u8) -> bool
    ensures { result ≡ ltb (suc index) count }
{
    index as usize + 1 < count as usize
}

// The cursor at the stage's next step, if it has one more of so many. Without the job's other numbers, which an Option would copy whole.
fn next_cursor(cursor: Cursor, count: u8) -> Option<Cursor>
    ensures { result ≡ cond (ltb (suc cursor.index) count) (Some (next_index cursor)) None }
{
    if !has_next(cursor.index, count) {
        return None;
    }
    Some(Cursor {
        index: cursor.index + 1,
        ..cursor
    })
}

fn after_wipe(n: Numbers) -> Stepped
    ensures { (N : ℕ) (i p u f : List ℕ) → LeadsTo p u f result (advance N stages.Wipe i (assemble n p u f)) }
{
    match next_cursor(n.cursor, n.job.wipes) {
        Some(next) => n.going(Stage::Wipe, next),
        None => n.enter_open(),
    }
}

fn after_open(n: Numbers) -> Moved
    ensures { (N : ℕ) (i p u f : List ℕ) → Moves N i p u f result (advance N stages.Open i (assemble n p u f)) }
{
    match next_cursor(n.cursor, header::OPENING) {
        Some(next) => Moved::Still(n.going(Stage::Open, next)),
        None => Moved::Due(n.staying(Answer::More)),
    }
}

// Past the byte that was copied: to the frame's next, or past the frame.
fn next_byte(n: Numbers) -> Numbers
    requires { n.cursor.at < 32768 }
    ensures { result ≡ staged stages.Copy (moved_byte n.cursor) n }
{
    let c = n.cursor;
    let more = has_next(c.off, c.size);
    let cursor = Cursor {
        at: c.at + 1,
        off: if more { c.off + 1 } else { 0 },
        ..c
    };
    Numbers {
        phase: Phase::Busy(Stage::Copy),
        cursor,
        ..n
    }
}

fn after_copy(n: Numbers) -> Moved
    requires { n.cursor.at < 32768 }
    ensures { (N : ℕ) (i p u f : List ℕ) → Moves N i p u f result (advance N stages.Copy i (assemble n p u f)) }
{
    let next = next_byte(n).staying(Answer::More);
    if has_next(n.cursor.off, n.cursor.size) {
        return Moved::Still(next);
    }
    Moved::Due(next)
}

fn after_seal(n: Numbers) -> Stepped
    ensures { (N : ℕ) (i p u f : List ℕ) → LeadsTo p u f result (advance N stages.Seal i (assemble n p u f)) }
{
    match next_cursor(n.cursor, header::SEALING) {
        Some(next) => n.going(Stage::Seal, next),
        None => n.enter_drop(),
    }
}

fn after_drop(n: Numbers) -> Stepped
    ensures { (N : ℕ) (i p u f : List ℕ) → LeadsTo p u f result (advance N stages.Drop i (assemble n p u f)) }
{
    n.landed().enter_append()
}

fn after_append(n: Numbers) -> Stepped
    requires { n.rest.end < 32768 }
    ensures { (N : ℕ) (i p u f : List ℕ) → LeadsTo p u f result (advance N stages.Append i (assemble n p u f)) }
{
    match next_cursor(n.cursor, n.job.size) {
        Some(next) => n.going(Stage::Append, next),
        None => {
            let end = n.rest.end + u16::from(n.job.size);
            records::over(Rest { end, ..n.rest })
        }
    }
}

fn after_close(n: Numbers) -> Stepped
    ensures { (N : ℕ) (i p u f : List ℕ) → LeadsTo p u f result (advance N stages.Close i (assemble n p u f)) }
{
    match next_cursor(n.cursor, n.job.closes) {
        Some(next) => n.going(Stage::Close, next),
        None => n.enter_append(),
    }
}

// After a step whose place was in the image.
pub fn advance(stage: Stage, n: Numbers) -> Moved
    requires { offset_for stage n < 32768 }
    ensures { (N : ℕ) (i p u f : List ℕ) → Moves N i p u f result (advance N stage i (assemble n p u f)) }
{
    match stage {
        Stage::Wipe => Moved::Still(after_wipe(n)),
        Stage::Open => after_open(n),
        Stage::Copy => after_copy(n),
        Stage::Seal => Moved::Still(after_seal(n)),
        Stage::Drop => Moved::Still(after_drop(n)),
        Stage::Append => Moved::Still(after_append(n)),
        Stage::Close => Moved::Still(after_close(n)),
    }
}
