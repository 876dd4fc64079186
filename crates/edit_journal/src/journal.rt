//! The journal of a survey.
ghost use Rattle.std.specs.Prelude.{◌≡◌, ℕ, ◌+◌, ◌<◌, ◌≤◌, ◌↔◌, [], ◌∷◌, ◌++◌, map, length, All, Contains, slice_get, option_map, Some, None, IsTrue, IfOk, IfErr, OnOk, OnErr};
ghost use Rattle.std.specs.Result.{result_err};
ghost use Rattle.std.specs.Arc.{arc_value};
ghost use Rattle.edit_journal.specs.Edit.{edit_of, leaf_of};
ghost use Rattle.edit_journal.specs.Leaves.{leaves_of, charge_of, FitsLeaves, FitsEdit};
ghost use Rattle.edit_journal.specs.Faults.{edit_fault, batch_fault, edit_refused, batch_refused, has_leaf, most_charge};
ghost use Rattle.edit_journal.specs.Batches.{ends};
ghost use Rattle.edit_journal.specs.Journal.{JournalContent, IsJournal, journal_edits};
ghost use Rattle.edit_journal.specs.Refusal.{TellsStartRefusal};

use crate::charge::{MOST_CHARGE, leaf_charge};
use crate::edit::Edit;
use crate::fault::{BatchFault, BatchRefusal, EditFault, EditRefusal, StartRefusal};
use crate::judge::judge;
use crate::newest::Newest;
use crate::notes::Notes;
use leaf_store::Store;
use pyramid_model::Shape;
use std::alloc::{AllocError, Global};
use std::marker::Model;
use std::sync::Arc;
use tile_pixels::Tile;

/// The opening leaves of a survey and the batches of edits that were accepted since. Contracts see these and the survey's
/// shape.
///
/// A journal never changes: `append` and `append_all` answer a new one, which shares its tiles and its list of edits, up to
/// the last few, with the old one.
#[derive(Drop)]
pub struct Journal {
    alloc: Global,
    shape: Shape,
    opening: Arc<Store<Tile>>,
    newest: Newest,
}

impl Model for Journal {
    ghost use Rattle.std.specs.Arc.{arc_value};
    ghost use Rattle.edit_journal.specs.Journal.{JournalContent};
    ghost use Rattle.edit_journal.specs.Kept.{kept_content, IsKeptJournal};

    ghost Value = { JournalContent };

    ghost view = { λ j. kept_content j.shape (arc_value j.opening) j.newest.notes };

    ghost invariant = { λ j. IsKeptJournal j.shape (arc_value j.opening) j.newest.notes j.newest.leaves j.newest.charge };
}

impl Journal {
    /// The journal of these opening leaves, with no edits.
    ///
    /// # Errors
    ///
    /// `TooMany` with the number of leaves if and only if their charge exceeds 2^29 bytes; `OutOfMemory` where there is no
    /// memory for the journal.
    pub fn start(alloc: Global, shape: Shape, leaves: Store<Tile>) -> Result<Journal, StartRefusal>
        requires fits { FitsLeaves shape leaves }
        ensures started { IfOk result (λ journal. journal ≡ record { shape = shape; opening = leaves; batches = [] }) }
        ensures charge { OnOk result (charge_of leaves [] ≤ most_charge) }
        ensures refused { IfErr result (TellsStartRefusal leaves) }
    {
        let charge = (leaves.len() as u64).saturating_mul(leaf_charge(shape));
        if charge > MOST_CHARGE {
            return Err(StartRefusal::TooMany {
                leaves: leaves.len() as u64,
            });
        }
        let newest = Newest {
            notes: Notes::new(alloc)?,
            leaves: leaves.share()?,
            charge,
        };
        let opening = share_whole(alloc, leaves)?;
        Ok(Journal {
            alloc,
            shape,
            opening,
            newest,
        })
    }

    /// Judges an edit by the opening leaves and all edits. It takes no memory.
    ///
    /// # Errors
    ///
    /// The first that stands: `Exists` if and only if an Add's leaf is there, `Absent` if and only if a Replace's or a
    /// Remove's isn't, `Edits` if and only if there are 65,536 edits, `Bytes` if and only if the charge would exceed 2^29.
    pub fn check(&self, edit: &Edit) -> Result<(), EditFault>
        requires fits { FitsEdit self.now.shape (edit_of edit.now) }
        ensures { result_err result ≡ edit_fault self.now.opening (journal_edits self.now) (edit_of edit.now) }
    {
        let there = self.leaves().get(edit.leaf()).is_some();
        let charge = self.charge().saturating_add(edit.charge());
        judge(edit, there, self.len(), charge)
    }

    /// The journal with this edit at its end, as a batch of its own. This journal stays as it is.
    ///
    /// # Errors
    ///
    /// `Fault` exactly as `check` answers it; `OutOfMemory` where there is no memory for the new journal.
    pub fn append(&self, edit: Edit) -> Result<Journal, EditRefusal>
        requires fits { FitsEdit self.now.shape (edit_of edit) }
        ensures appended { IfOk result (λ next. next ≡ record self.now { batches = self.now.batches ++ (edit_of edit ∷ []) ∷ [] }) }
        ensures accepted { OnOk result (edit_fault self.now.opening (journal_edits self.now) (edit_of edit) ≡ None) }
        ensures refused { IfErr result (λ refusal. edit_refused refusal ≡ edit_fault self.now.opening (journal_edits self.now) (edit_of edit)) }
    {
        self.check(&edit)?;
        Ok(self.grown(&[edit])?)
    }

    /// Judges a batch: each of its edits by the opening leaves, all edits and the edits of the batch before it. It takes no
    /// memory.
    ///
    /// # Errors
    ///
    /// The least place of an edit with a fault, and that fault.
    pub fn check_all(&self, edits: &[Edit]) -> Result<(), BatchFault>
        requires some { 0 < length edits.now }
        requires most { length edits.now ≤ 1024 }
        requires fits { All (FitsEdit self.now.shape) (map edit_of edits.now) }
        ensures { result_err result ≡ batch_fault self.now.opening (journal_edits self.now) (map edit_of edits.now) }
    {
        let mut count = self.len();
        let mut charge = self.charge();
        for (at, edit) in edits.iter().enumerate() {
            let there = self.is_there_after(&edits[..at], edit.leaf());
            charge = charge.saturating_add(edit.charge());
            if let Err(fault) = judge(edit, there, count, charge) {
                return Err(BatchFault {
                    at: at as u32,
                    fault,
                });
            }
            count += 1;
        }
        Ok(())
    }

    // Whether the leaf is there after all edits and the first edits of a batch.
    fn is_there_after(&self, first: &[Edit], leaf: u64) -> bool
        ensures { result ≡ has_leaf leaf (leaves_of self.now.opening (journal_edits self.now ++ map edit_of first.now)) }
    {
        let leaves = self.leaves();
        for i in (0..first.len()).rev() {
            let edit = &first[i];
            if edit.leaf() == leaf {
                return edit.tile().is_some();
            }
        }
        leaves.get(leaf).is_some()
    }

    /// The journal with this batch at its end, which no prefix that ends within it splits. This journal stays as it is.
    ///
    /// # Errors
    ///
    /// `Fault` exactly as `check_all` answers it; `OutOfMemory` where there is no memory for the new journal.
    pub fn append_all(&self, edits: Vec<Edit>) -> Result<Journal, BatchRefusal>
        requires some { 0 < length edits.items }
        requires most { length edits.items ≤ 1024 }
        requires fits { All (FitsEdit self.now.shape) (map edit_of edits.items) }
        ensures appended { IfOk result (λ next. next ≡ record self.now { batches = self.now.batches ++ map edit_of edits.items ∷ [] }) }
        ensures accepted { OnOk result (batch_fault self.now.opening (journal_edits self.now) (map edit_of edits.items) ≡ None) }
        ensures refused { IfErr result (λ refusal. batch_refused refusal ≡ batch_fault self.now.opening (journal_edits self.now) (map edit_of edits.items)) }
    {
        self.check_all(&edits)?;
        Ok(self.grown(&edits)?)
    }

    // The journal with this batch, which was judged, at its end.
    fn grown(&self, batch: &[Edit]) -> Result<Journal, AllocError>
        requires some { 0 < length batch.now }
        requires fits { All (FitsEdit self.now.shape) (map edit_of batch.now) }
        requires accepted { batch_fault self.now.opening (journal_edits self.now) (map edit_of batch.now) ≡ None }
        ensures { IfOk result (λ next. next ≡ record self.now { batches = self.now.batches ++ map edit_of batch.now ∷ [] }) }
    {
        let opening = self.opening.clone()?;
        let newest = self.newest.share()?.with_all(self.alloc, batch)?;
        Ok(Journal {
            alloc: self.alloc,
            shape: self.shape,
            opening,
            newest,
        })
    }

    /// Whether the first k edits are whole batches: k is 0, or a batch ends with edit k, counted from 1.
    pub fn is_end(&self, k: u32) -> bool
        ensures { IsTrue result ↔ Contains (ends self.now.batches) k }
    {
        if k == 0 {
            return true;
        }
        match self.newest.notes.get(k as usize - 1) {
            Some(note) => note.closes,
            None => false,
        }
    }

    /// Another journal with the same shape, opening leaves and batches.
    ///
    /// # Errors
    ///
    /// `AllocError` where there is no memory for it.
    pub fn share(&self) -> Result<Journal, AllocError>
        ensures { IfOk result (λ other. other ≡ self.now) }
    {
        let opening = self.opening.clone()?;
        let newest = self.newest.share()?;
        Ok(Journal {
            alloc: self.alloc,
            shape: self.shape,
            opening,
            newest,
        })
    }

    /// The survey's shape.
    pub fn shape(&self) -> Shape
        ensures { result ≡ self.now.shape }
    {
        self.shape
    }

    /// How many edits there are.
    pub fn len(&self) -> u32
        ensures count { result ≡ length (journal_edits self.now) }
        ensures journal { IsJournal self.now }
    {
        self.newest.notes.len() as u32
    }

    /// Edit `i`, from 0; `None` exactly past the last.
    pub fn edit(&self, i: u32) -> Option<&Edit>
        ensures edit { option_map (λ edit. edit_of edit.now) result ≡ slice_get (journal_edits self.now) i }
        ensures journal { IsJournal self.now }
    {
        match self.newest.notes.get(i as usize) {
            Some(note) => Some(&note.edit),
            None => None,
        }
    }

    /// The opening leaves.
    pub fn opening(&self) -> &Store<Tile>
        ensures opening { result.now ≡ self.now.opening }
        ensures journal { IsJournal self.now }
    {
        &self.opening
    }

    /// The leaves after all edits.
    pub fn leaves(&self) -> &Store<Tile>
        ensures leaves { result.now ≡ leaves_of self.now.opening (journal_edits self.now) }
        ensures fits { FitsLeaves self.now.shape result.now }
        ensures journal { IsJournal self.now }
    {
        &self.newest.leaves
    }

    /// What is charged for the opening leaves and all edits, in bytes.
    pub fn charge(&self) -> u64
        ensures charge { result ≡ charge_of self.now.opening (journal_edits self.now) }
        ensures journal { IsJournal self.now }
    {
        self.newest.charge
    }
}

// The store, so that several own it.
fn share_whole(alloc: Global, leaves: Store<Tile>) -> Result<Arc<Store<Tile>>, AllocError>
    ensures { IfOk result (λ shared. arc_value shared ≡ leaves) }
{
    Ok(Arc::new(alloc, leaves)?)
}
