//! The state after an event, of a survey whose newest state is at hand.
ghost use Rattle.std.specs.Prelude.{◌≡◌, ◌<◌, ◌≤◌, map, length, All, IfOk, IfErr};
ghost use Rattle.edit_journal.specs.Edit.{edit_of};
ghost use Rattle.edit_journal.specs.Leaves.{FitsEdit};
ghost use Rattle.reader_pin.specs.Board.{Publishes};
ghost use Rattle.reader_pin.specs.Next.{Follows, IsPublishable, FollowsEdit, FollowsBatch, TellsRefusedEdit, TellsRefusedBatch};

use crate::answer::{Accepted, BoardBatch, BoardRefusal};
use edit_journal::{BatchRefusal, Edit, EditRefusal};
use generation::Generation;
use std::alloc::{AllocError, Global};
use std::sync::Arc;
use survey_core::{InstallRefusal, State};

/// The state after an edit, and what its board answers.
pub(crate) fn after_edit(last: &State, edit: Edit) -> Result<(State, Accepted), BoardRefusal>
    requires fits { FitsEdit last.now.conf.shape (edit_of edit) }
    ensures next { IfOk result (λ next. FollowsEdit (edit_of edit) last.now next.0 next.1) }
    ensures refused { IfErr result (TellsRefusedEdit (edit_of edit) last.now) }
{
    let created = last.journal().leaves().get(edit.leaf()).is_none();
    let edits = last.edits();
    match last.accept(edit) {
        Ok(next) => {
            let number = next.edits();
            Ok((next, Accepted { number, created }))
        }
        Err(EditRefusal::Fault(fault)) => Err(BoardRefusal::Fault { fault, edits }),
        Err(EditRefusal::OutOfMemory) => Err(BoardRefusal::OutOfMemory),
    }
}

/// The state after a batch, and how many edits it has.
pub(crate) fn after_batch(last: &State, batch: Vec<Edit>) -> Result<(State, u32), BoardBatch>
    requires some { 0 < length batch.items }
    requires most { length batch.items ≤ 1024 }
    requires fits { All (FitsEdit last.now.conf.shape) (map edit_of batch.items) }
    ensures next { IfOk result (λ next. FollowsBatch (map edit_of batch.items) last.now next.0 next.1) }
    ensures refused { IfErr result (TellsRefusedBatch (map edit_of batch.items) last.now) }
{
    let edits = last.edits();
    match last.accept_all(batch) {
        Ok(next) => {
            let number = next.edits();
            Ok((next, number))
        }
        Err(BatchRefusal::Fault(fault)) => Err(BoardBatch::Fault {
            at: fault.at,
            fault: fault.fault,
            edits,
        }),
        Err(BatchRefusal::OutOfMemory) => Err(BoardBatch::OutOfMemory),
    }
}

/// The state with the generation of a longer prefix of its edits published.
pub(crate) fn after_prefix(
    alloc: Global,
    last: &State,
    generation: Generation,
) -> Result<State, AllocError>
    requires { IsPublishable last.now generation }
    ensures { IfOk result (Follows (Publishes generation.prefix) last.now) }
{
    match last.install(Arc::new(alloc, generation)?) {
        Ok(next) => Ok(next),
        Err(InstallRefusal::OutOfMemory) => Err(AllocError),
        Err(InstallRefusal::Already { .. }) => unreachable!(),
    }
}
