//! Calls that are answered by a text, or without a body.
ghost use Rattle.std.specs.Prelude.{◌≡◌, ◌≤◌, ◌<◌, true, ℕ, List, Option};
ghost use Rattle.hips_http.specs.declared.call.Call.TheVariants as call;
ghost use Rattle.hips_http.specs.Answers.{Asking};
ghost use Rattle.hips_http.specs.Progress.{Serves, HasLeaf, is_text};

use crate::call::Call;
use crate::change::{batch, delete, put};
use crate::control::{pin, publish, unpin};
use crate::open_connection::Due;
use crate::reply::TextReply;
use http_frame::Allow;
use log::Log;
use parent_rule::Steps;
use reader_pin::{Board, ChangedWith};
use std::thread::Threads;
use std::time::Clock;
use survey_link::{Gate, Means};

/// Answers a call that isn't that for a file, by the body of its request.
pub(crate) fn answer<R: Threads + Sync + Clock + Log, B: ChangedWith<R>, G: Gate + Sync>(
    means: &Means<'_, R, G>,
    board: &mut B,
    steps: &mut Steps,
    due: &Due,
    body: &[u8],
) -> TextReply
    requires text { is_text due.now.call ≡ true }
    requires leaf { HasLeaf (B.content board.old).conf.shape.top due.now.call }
    ensures serves { (path : Option (List ℕ)) → Serves (record { asked = due.now.request; path = path; body = body.now }) due.now.call (B.content board.old) (B.content board.new) steps.old steps.new result }
    ensures never_falls { steps.old ≤ steps.new }
{
    match due.call {
        Call::NotAllowed(allow) => not_allowed(board, allow),
        Call::Publish => publish(means.rt, board, means.gate, steps),
        Call::Pin => pin(board),
        Call::Unpin => unpin(board),
        Call::Batch => batch(means.rt, means.alloc, board, body, steps),
        Call::Put(leaf) => put(means, board, &due.request, leaf, body, steps),
        Call::Delete(leaf) => delete(means.rt, board, &due.request, leaf),
        Call::File(_) => unreachable!(),
    }
}

// Answers a request whose method doesn't fit its path.
fn not_allowed<B: Board>(board: &B, allow: Allow) -> TextReply
    ensures { (request : Asking) (steps : ℕ) → Serves request (call.NotAllowed allow) (B.content board.now) (B.content board.now) steps steps result }
{
    // For the prover: what a board has seen is a history.
    let _legal = board.last();
    TextReply::not_allowed(allow)
}
