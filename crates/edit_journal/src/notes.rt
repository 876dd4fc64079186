//! The list of edits, kept so that a longer list shares what it can with the one before.
ghost use Rattle.std.specs.Prelude.{◌≡◌, ℕ, ◌+◌, ◌<◌, ◌≤◌, [], ◌∷◌, ◌++◌, length, slice_get, option_map, IfOk};
ghost use Rattle.edit_journal.specs.Kept.{Note};
ghost use Rattle.std.specs.Arc.{arc_value};
ghost use Rattle.edit_journal.specs.Faults.{most_edits};
ghost use Rattle.edit_journal.specs.Chunks.{notes_in, AreFull};

use crate::edit::Edit;
use std::alloc::{AllocError, Global};
use std::marker::Model;
use std::sync::Arc;

/// How many notes a full chunk has.
const CHUNK: usize = 64;

/// An edit, and whether it is the last of its batch.
#[derive(Drop)]
pub(crate) struct Noted {
    pub(crate) edit: Edit,
    pub(crate) closes: bool,
}

impl Model for Noted {
    ghost use Rattle.edit_journal.specs.Edit.{edit_of};
    ghost use Rattle.edit_journal.specs.Kept.{Note};

    ghost Value = { Note };

    ghost view = { λ n. record { edit = edit_of n.edit; closes = n.closes } };
}

impl Clone for Noted {
    ghost is_clone = { λ note clone. clone ≡ note };

    fn clone(&self) -> Result<Noted, AllocError> {
        let edit = self.edit.clone()?;
        Ok(Noted {
            edit,
            closes: self.closes,
        })
    }
}

// Full chunks.
type Chunks = Vec<Arc<Vec<Noted>>>;

/// The notes of all edits: full chunks, which every list that has them shares, and the notes after them. Contracts see the
/// list of the notes.
#[derive(Drop)]
pub(crate) struct Notes {
    full: Arc<Chunks>,
    last: Vec<Noted>,
}

impl Model for Notes {
    ghost use Rattle.std.specs.Prelude.{List, ◌++◌};
    ghost use Rattle.std.specs.Arc.{arc_value};
    ghost use Rattle.edit_journal.specs.Kept.{Note};
    ghost use Rattle.edit_journal.specs.Chunks.{notes_in, IsChunked};

    ghost Value = { List Note };

    ghost view = { λ n. notes_in (arc_value n.full).items ++ n.last.items };

    ghost invariant = { λ n. IsChunked (arc_value n.full).items n.last.items };
}

impl Notes {
    // No note.
    pub(crate) fn new(alloc: Global) -> Result<Notes, AllocError>
        ensures { IfOk result (λ notes. notes ≡ []) }
    {
        let full = Arc::new(alloc, Vec::new(alloc))?;
        Ok(Notes {
            full,
            last: Vec::new(alloc),
        })
    }

    // How many notes there are.
    pub(crate) fn len(&self) -> usize
        ensures { result ≡ length self.now }
    {
        self.full.len() * CHUNK + self.last.len()
    }

    // Note `i`, from 0.
    pub(crate) fn get(&self, i: usize) -> Option<&Noted>
        ensures { option_map (λ note. note.now) result ≡ slice_get self.now i }
    {
        match self.full.get(i / CHUNK) {
            Some(chunk) => chunk.get(i % CHUNK),
            None => self.last.get(i - self.full.len() * CHUNK),
        }
    }

    // The same notes, sharing the full chunks.
    pub(crate) fn share(&self) -> Result<Notes, AllocError>
        ensures { IfOk result (λ other. other ≡ self.now) }
    {
        let full = self.full.clone()?;
        let mut last = self.last.clone()?;
        // Mostly one note more follows.
        last.reserve_exact(1)?;
        Ok(Notes { full, last })
    }

    // The notes with one more at their end.
    pub(crate) fn with(self, alloc: Global, note: Noted) -> Result<Notes, AllocError>
        requires { length self < most_edits }
        ensures { IfOk result (λ notes. notes ≡ self ++ note ∷ []) }
    {
        let Notes { full, mut last } = self;
        if last.len() < CHUNK {
            last.push(note)?;
            return Ok(Notes { full, last });
        }
        let full = with_chunk(alloc, &full, last)?;
        let mut last = Vec::new(alloc);
        last.push(note)?;
        Ok(Notes { full, last })
    }
}

// The chunks with one more at their end.
fn with_chunk(alloc: Global, chunks: &Chunks, chunk: Vec<Noted>) -> Result<Arc<Chunks>, AllocError>
    ensures notes { IfOk result (λ all. notes_in (arc_value all).items ≡ notes_in chunks.now.items ++ chunk.items) }
    ensures full { AreFull chunks.now.items → length chunk.items ≡ 64 → IfOk result (λ all. AreFull (arc_value all).items) }
    ensures count { IfOk result (λ all. length (arc_value all).items ≡ length chunks.now.items + 1) }
{
    let mut all = chunks.clone()?;
    all.push(Arc::new(alloc, chunk)?)?;
    Ok(Arc::new(alloc, all)?)
}
