//! What all edits so far leave.
ghost use Rattle.std.specs.Prelude.{◌≡◌, ◌+◌, ◌^◌, ◌<◌, ◌≤◌, [], ◌∷◌, ◌++◌, map, length, fold, sum_by, OnOk, IfOk};
ghost use Rattle.edit_journal.specs.Edit.{edit_of};
ghost use Rattle.edit_journal.specs.Leaves.{leaves_after, edit_charge};
ghost use Rattle.edit_journal.specs.Faults.{most_edits};
ghost use Rattle.edit_journal.specs.Kept.{noted};

use crate::edit::Edit;
use crate::notes::{Noted, Notes};
use leaf_store::Store;
use std::alloc::{AllocError, Global};
use tile_pixels::Tile;

/// The notes of all edits, the leaves after them, and what is charged for them and the opening leaves.
#[derive(Drop)]
pub(crate) struct Newest {
    pub(crate) notes: Notes,
    pub(crate) leaves: Store<Tile>,
    pub(crate) charge: u64,
}

impl Newest {
    // The same once more.
    pub(crate) fn share(&self) -> Result<Newest, AllocError>
        ensures { IfOk result (λ other. other ≡ self.now) }
    {
        let notes = self.notes.share()?;
        let leaves = self.leaves.share()?;
        Ok(Newest {
            notes,
            leaves,
            charge: self.charge,
        })
    }

    // What a batch of edits more leaves.
    pub(crate) fn with_all(self, alloc: Global, batch: &[Edit]) -> Result<Newest, AllocError>
        requires count { length self.notes + length batch.now ≤ most_edits }
        requires charge { self.charge + sum_by edit_charge (map edit_of batch.now) < 2 ^ 64 }
        ensures notes { IfOk result (λ next. next.notes ≡ self.notes ++ noted (map edit_of batch.now)) }
        ensures leaves { IfOk result (λ next. next.leaves ≡ fold leaves_after self.leaves (map edit_of batch.now)) }
        ensures charge { IfOk result (λ next. next.charge ≡ self.charge + sum_by edit_charge (map edit_of batch.now)) }
    {
        let mut newest = self;
        for (i, edit) in batch.iter().enumerate() {
            newest = newest.with(alloc, edit.clone()?, i + 1 == batch.len())?;
        }
        Ok(newest)
    }

    // What one edit more leaves, which may close its batch.
    fn with(self, alloc: Global, edit: Edit, closes: bool) -> Result<Newest, AllocError>
        requires count { length self.notes < most_edits }
        requires charge { self.charge + edit_charge (edit_of edit) < 2 ^ 64 }
        ensures notes { IfOk result (λ next. next.notes ≡ self.notes ++ record { edit = edit_of edit; closes = closes } ∷ []) }
        ensures leaves { IfOk result (λ next. next.leaves ≡ leaves_after self.leaves (edit_of edit)) }
        ensures charge { IfOk result (λ next. next.charge ≡ self.charge + edit_charge (edit_of edit)) }
    {
        let Newest {
            notes,
            mut leaves,
            charge,
        } = self;
        let charge = charge + edit.charge();
        apply(&edit, &mut leaves)?;
        let notes = notes.with(alloc, Noted { edit, closes })?;
        Ok(Newest {
            notes,
            leaves,
            charge,
        })
    }
}

// Does the edit to the leaves.
fn apply(edit: &Edit, leaves: &mut Store<Tile>) -> Result<(), AllocError>
    ensures { OnOk result (leaves.new ≡ leaves_after leaves.old (edit_of edit.now)) }
{
    match edit.tile() {
        Some(tile) => leaves.put(edit.leaf(), tile.clone()?)?,
        None => leaves.remove(edit.leaf())?,
    };
    Ok(())
}
