//! Files of past states.
ghost use Rattle.std.specs.Prelude.{◌≡◌, ◌≤◌, option_map, IfOk, IfErr, OnErr};
ghost use Rattle.std.specs.FinMap.{get};
ghost use Rattle.tile_path.specs.Spelling.{spelling};
ghost use Rattle.generation.specs.Files.{files_in};
ghost use Rattle.past_reads.specs.Past.{GoesOnFrom};
ghost use Rattle.past_reads.specs.Answers.{past_answer, past_answers, IsAnswered, AreAnswered};
ghost use Rattle.past_reads.specs.declared.refusal.PastRefusal.TheVariants.{OutOfMemory};

use crate::past::Past;
use crate::refusal::PastRefusal;
use edit_journal::Journal;
use generation::Generation;
use log::Log;
use parent_rule::Steps;
use std::alloc::{AllocError, Global};
use std::thread::Threads;
use std::time::Clock;
use survey_link::Gate;
use tile_path::Path;

/// A read of a file as of an edit.
#[derive(Clone, Copy, Debug, PartialEq, Eq)]
pub struct PastRead {
    /// How many edits the survey has then.
    pub k: u32,
    /// Which file it is.
    pub path: Path,
}

impl Past {
    /// Answers each read by the first `k` edits of the journal, which begins with the batches that are known: the file at the
    /// path, `None` if there is no such file, or why there is no generation. Each answer is what computing from scratch gives,
    /// whatever was held before and was read in between.
    ///
    /// # Errors
    ///
    /// `AllocError` where there is no memory for the list; then nothing was read. A read that has a generation, but no memory
    /// for it or for the file, is answered by `OutOfMemory`, and the next one as if it hadn't been there.
    pub fn read_all<R: Threads + Sync + Clock + Log, G: Gate + Sync>(
        &mut self,
        rt: &R,
        journal: &Journal,
        reads: &[PastRead],
        gate: &G,
        steps: &mut Steps,
    ) -> Result<Vec<Result<Option<Vec<u8>>, PastRefusal>>, AllocError>
        requires journal { GoesOnFrom self.old journal.now }
        ensures answered { IfOk result (λ answers. AreAnswered (past_answers self.old.conf journal.now reads.now) answers.items) }
        ensures goes_on { GoesOnFrom self.new journal.now }
        ensures kept { OnErr result (self.new ≡ self.old) }
        ensures never_falls { steps.old ≤ steps.new }
    {
        let mut answers = Vec::with_capacity(self.alloc, reads.len())?;
        for read in reads {
            answers.push_reserved(self.answer(rt, journal, read, gate, steps));
        }
        Ok(answers)
    }

    // Answers one read.
    fn answer<R: Threads + Sync + Clock + Log, G: Gate + Sync>(
        &mut self,
        rt: &R,
        journal: &Journal,
        read: &PastRead,
        gate: &G,
        steps: &mut Steps,
    ) -> Result<Option<Vec<u8>>, PastRefusal>
        requires journal { GoesOnFrom self.old journal.now }
        ensures answered { IsAnswered (past_answer self.old.conf journal.now.opening journal.now.batches read.now.k (spelling read.now.path)) result }
        ensures conf { self.new.conf ≡ self.old.conf }
        ensures goes_on { GoesOnFrom self.new journal.now }
        ensures never_falls { steps.old ≤ steps.new }
    {
        match self.at(rt, journal, read.k, gate, steps) {
            Ok(generation) => return copy(self.alloc, &generation, &read.path),
            Err(refusal) => return Err(refusal),
        }
    }
}

// The file at a path, copied.
fn copy(alloc: Global, generation: &Generation, path: &Path) -> Result<Option<Vec<u8>>, PastRefusal>
    ensures file { IfOk result (λ found. option_map (λ bytes. bytes.items) found ≡ get (files_in generation.now) (spelling path.now)) }
    ensures memory { IfErr result (λ refusal. refusal ≡ OutOfMemory) }
{
    let mut front = [0u8; 2880];
    match generation.file_parts(path, &mut front) {
        Some(parts) => {
            let mut bytes = Vec::from_slice(alloc, &front[..parts.front])?;
            bytes.extend_from_slice(parts.kept)?;
            bytes.extend_from_slice(parts.zeros)?;
            Ok(Some(bytes))
        }
        None => Ok(None),
    }
}
