//! Changes of the leaves.
ghost use Rattle.std.specs.Prelude.{◌≡◌, ◌+◌, ◌≤◌, ◌<◌, ◌↔◌, ℕ, List, Ok, IfOk, IfErr, IsTrue, Some, None, option_map, length, Option};
ghost use Rattle.std.specs.Arc.{arc_value};
ghost use Rattle.healpix_nested.specs.Cells.{cell_count};
ghost use Rattle.fits_tile.specs.Reading.{reads};
ghost use Rattle.fits_tile.specs.Refused.{IsRefusedBy};
ghost use Rattle.edit_journal.specs.Edit.{edit_of, leaf_of};
ghost use Rattle.edit_journal.specs.Faults.{has_leaf};
ghost use Rattle.edit_journal.specs.Leaves.{FitsTile, FitsEdit};
ghost use Rattle.survey_core.specs.History.{edits_at};
ghost use Rattle.survey_core.specs.State.{state_edits};
ghost use Rattle.edit_journal.specs.Leaves.{leaves_of};
ghost use Rattle.hips_http.specs.declared.call.Call.TheVariants as call;
ghost use Rattle.hips_http.specs.Verdict.{put_edit, delete_edit, unmet_cause, delete_cause};
ghost use Rattle.hips_http.specs.Replies.{refused_answer};
ghost use Rattle.hips_http.specs.Answers.{Asking};
ghost use Rattle.hips_http.specs.Progress.{Serves};

use crate::reply::TextReply;
use crate::room::{say_batch, say_edit};
use edit_journal::{Edit, EditFault};
use fits_tile::{TileRefusal, decode};
use http_frame::{Request, Tags};
use log::Log;
use parent_rule::Steps;
use reader_pin::{BoardBatch, BoardRefusal, ChangedWith};
use std::alloc::Global;
use std::sync::Arc;
use survey_core::{BatchRead, State, read_batch};
use survey_link::Means;
use tile_pixels::Tile;

/// Answers PUT of a leaf: it has the tile of the body from then on, where the request's preconditions hold.
pub(crate) fn put<R: Log, G, B: ChangedWith<R>>(
    means: &Means<'_, R, G>,
    board: &mut B,
    request: &Request,
    leaf: u64,
    body: &[u8],
    steps: &mut Steps,
) -> TextReply
    requires leaf { leaf < cell_count (B.content board.old).conf.shape.top }
    ensures never_falls { steps.old ≤ steps.new }
    ensures serves { (path : Option (List ℕ)) → Serves (record { asked = request.now; path = path; body = body.now }) (call.Put leaf)
        (B.content board.old) (B.content board.new) steps.old steps.new result }
{
    let tile = match read_tile(means.alloc, board.last(), body, steps) {
        Ok(tile) => tile,
        Err(TileRefusal::Fault(fault)) => return TextReply::tile_refused(fault),
        Err(TileRefusal::OutOfMemory) => return TextReply::no_memory(),
    };
    let edit = match put_edit(request, leaf, tile) {
        Some(edit) => edit,
        None => return TextReply::unmet(board.last().edits()),
    };
    match board.edit(means.rt, edit) {
        Ok(accepted) => {
            say_edit(means.rt, board.last());
            TextReply::edited(!accepted.created, accepted.number)
        }
        Err(BoardRefusal::Fault { fault, edits }) => TextReply::edit_refused(fault, edits),
        Err(BoardRefusal::OutOfMemory) => TextReply::no_memory(),
    }
}

// The tile that a body holds.
fn read_tile(
    alloc: Global,
    state: &State,
    body: &[u8],
    steps: &mut Steps,
) -> Result<Arc<Tile>, TileRefusal>
    ensures numbers { IfOk result (λ tile. reads state.now.conf body.now ≡ Ok (arc_value tile).numbers) }
    ensures fits { IfOk result (λ tile. FitsTile state.now.conf.shape (arc_value tile)) }
    ensures refused { IfErr result (IsRefusedBy (reads state.now.conf body.now)) }
    ensures at_most { steps.new ≤ steps.old + 1 }
    ensures never_falls { steps.old ≤ steps.new }
{
    match decode(alloc, body, state.conf(), steps) {
        Ok(tile) => match Arc::new(alloc, tile) {
            Ok(tile) => return Ok(tile),
            Err(_) => return Err(TileRefusal::OutOfMemory),
        },
        Err(refusal) => return Err(refusal),
    }
}

// The edit of a PUT; `None` where its preconditions are false whatever leaves there are.
fn put_edit(request: &Request, leaf: u64, tile: Arc<Tile>) -> Option<Edit>
    ensures { option_map edit_of result ≡ put_edit request.now.if_match request.now.if_none_any leaf (arc_value tile) }
{
    match (request.if_match, request.if_none_any) {
        (Tags::Absent, false) => Some(Edit::Put { leaf, tile }),
        (Tags::Absent, true) => Some(Edit::Add { leaf, tile }),
        (Tags::Any, false) => Some(Edit::Replace { leaf, tile }),
        (Tags::Any, true) => None,
        (Tags::Listed, _) => None,
    }
}

/// Answers DELETE of a leaf: it is taken away, where it is there and the request's preconditions hold.
pub(crate) fn delete<R: Log, B: ChangedWith<R>>(
    rt: &R,
    board: &mut B,
    request: &Request,
    leaf: u64,
) -> TextReply
    requires leaf { leaf < cell_count (B.content board.old).conf.shape.top }
    ensures { (path : Option (List ℕ)) (body : List ℕ) (steps : ℕ) → Serves (record { asked = request.now; path = path; body = body }) (call.Delete leaf)
        (B.content board.old) (B.content board.new) steps steps result }
{
    let edit = match delete_edit(request, leaf) {
        Some(edit) => edit,
        None => return unmet_delete(board.last(), leaf),
    };
    match board.edit(rt, edit) {
        Ok(accepted) => {
            say_edit(rt, board.last());
            TextReply::edited(true, accepted.number)
        }
        Err(BoardRefusal::Fault { fault, edits }) => delete_refused(fault, edits),
        Err(BoardRefusal::OutOfMemory) => TextReply::no_memory(),
    }
}

// The edit of a DELETE of a leaf that is there; `None` where its preconditions are false.
fn delete_edit(request: &Request, leaf: u64) -> Option<Edit>
    ensures { option_map edit_of result ≡ delete_edit request.now.if_match request.now.if_none_any leaf }
{
    match (request.if_match, request.if_none_any) {
        (Tags::Absent, false) => Some(Edit::Remove { leaf }),
        (Tags::Any, false) => Some(Edit::Remove { leaf }),
        _ => None,
    }
}

// The answer to a DELETE whose preconditions are false.
fn unmet_delete(state: &State, leaf: u64) -> TextReply
    ensures { result ≡ refused_answer (length (state_edits state.now)) (unmet_cause (has_leaf leaf (leaves_of state.now.opening (state_edits state.now)))) }
{
    let edits = state.edits();
    match state.journal().leaves().get(leaf) {
        Some(_) => TextReply::unmet(edits),
        None => TextReply::missing(edits),
    }
}

// The answer to a DELETE that has a fault: the leaf isn't there, or a limit is reached.
fn delete_refused(fault: EditFault, edits: u32) -> TextReply
    ensures { result ≡ refused_answer edits (delete_cause fault) }
{
    match fault {
        EditFault::Absent => TextReply::missing(edits),
        _ => TextReply::edit_refused(fault, edits),
    }
}

/// Answers POST batch: the edits of the body are accepted, all or none.
pub(crate) fn batch<R: Log, B: ChangedWith<R>>(
    rt: &R,
    alloc: Global,
    board: &mut B,
    body: &[u8],
    steps: &mut Steps,
) -> TextReply
    ensures never_falls { steps.old ≤ steps.new }
    ensures serves { (request : Asking) → request.body ≡ body.now → Serves request call.Batch (B.content board.old) (B.content board.new) steps.old steps.new result }
{
    let edits = match read_batch(alloc, body, board.last().conf(), steps) {
        Ok(edits) => edits,
        Err(BatchRead::Entry { at, fault }) => return TextReply::batch_refused(at, fault),
        Err(BatchRead::OutOfMemory) => return TextReply::no_memory(),
    };
    let count = edits.len() as u32;
    match board.batch(rt, edits) {
        Ok(number) => {
            say_batch(rt, board.last(), count);
            TextReply::batch_accepted(count, number)
        }
        Err(BoardBatch::Fault { at, fault, edits }) => TextReply::batch_unmet(at, fault, edits),
        Err(BoardBatch::OutOfMemory) => TextReply::no_memory(),
    }
}
