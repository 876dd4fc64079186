//! Publications and pins.
ghost use Rattle.std.specs.Prelude.{ℕ, ◌≤◌};
ghost use Rattle.hips_http.specs.declared.call.Call.TheVariants as call;
ghost use Rattle.hips_http.specs.Answers.{Asking};
ghost use Rattle.hips_http.specs.Progress.{Serves};

use crate::logging::Publishing;
use crate::reply::TextReply;
use dirty_plan::laws::more_touched_is_more_work;
use log::Log;
use parent_rule::Steps;
use reader_pin::{Board, ChangedWith, Published};
use std::thread::Threads;
use std::time::Clock;
use survey_link::Gate;

/// Answers POST publish: all edits that the board has seen are published, now or already.
pub(crate) fn publish<R: Threads + Sync + Clock + Log, B: ChangedWith<R>, G: Gate + Sync>(
    rt: &R,
    board: &mut B,
    gate: &G,
    steps: &mut Steps,
) -> TextReply
    ensures never_falls { steps.old ≤ steps.new }
    ensures serves { (request : Asking) → Serves request call.Publish (B.content board.old) (B.content board.new) steps.old steps.new result }
{
    // The edits from an earlier tip on are no fewer.
    more_touched_is_more_work();
    // What others published since is none of this publication's.
    board.pin();
    let publishing = Publishing::begin(rt, board.last().tip(), steps.count());
    match board.publish(rt, gate, steps) {
        Ok(Published::New(k)) => {
            publishing.say_done(rt, k, board.last().edits(), steps.count());
            TextReply::published(k)
        }
        Ok(Published::Already(k)) => TextReply::already(k),
        Err(_) => TextReply::no_memory(),
    }
}

/// Answers POST pin: the newest state that the board sees is held.
pub(crate) fn pin<B: Board>(board: &mut B) -> TextReply
    ensures { (request : Asking) (steps : ℕ) → Serves request call.Pin (B.content board.old) (B.content board.new) steps steps result }
{
    board.pin();
    board.hold();
    TextReply::pinned(board.last().tip())
}

/// Answers POST unpin: no state is held.
pub(crate) fn unpin<B: Board>(board: &mut B) -> TextReply
    ensures { (request : Asking) (steps : ℕ) → Serves request call.Unpin (B.content board.old) (B.content board.new) steps steps result }
{
    board.release();
    // For the prover: what a board has seen is a history.
    let _legal = board.last();
    TextReply::released()
}
