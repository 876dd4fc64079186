//! The summary of a made survey.
ghost use Rattle.std.specs.Prelude.{◌≡◌, ℕ, ◌+◌, ◌*◌, ◌^◌, ◌<◌, ◌≤◌, length, sum, IsSome, Some};
ghost use Rattle.std.specs.FinMap.{get};
ghost use Rattle.tile_path.specs.Spelling.{spelling};
ghost use Rattle.generation.specs.Files.{files_in};
ghost use Rattle.survey_core.specs.State.{survey_state};
ghost use Rattle.survey_commands.specs.Make.{file_sum, files_sum, summary_of, summary_text};

use generation::Generation;
use std::fmt;
use survey_core::State;
use tile_path::Path;

/// A survey's state, summed up. It is shown as in `edits 1 of 1 leaves 1 files 6 prefix 1 sum 103636951`.
#[derive(Drop)]
pub struct Summary {
    /// How many edits were accepted.
    pub edits: u32,
    /// How many were asked for.
    pub asked: u32,
    /// How many leaves there are after them.
    pub leaves: usize,
    /// How many files are published.
    pub files: u64,
    /// How many edits are published.
    pub prefix: u32,
    /// All bytes of all these files, added up.
    pub sum: u128,
}

impl fmt::Display for Summary {
    ghost output = { λ summary. Some (summary_text summary) };

    fn fmt<W: fmt::Write>(&self, f: &mut fmt::Formatter<W>) -> fmt::Result {
        write!(
            f,
            "edits {} of {} leaves {} files {} prefix {} sum {}",
            self.edits, self.asked, self.leaves, self.files, self.prefix, self.sum
        )
    }
}

/// The summary of a state, where so many edits were asked for.
pub fn summary_of(state: &State, asked: u32) -> Summary
    ensures { result ≡ summary_of state.now.conf state.now.opening asked (survey_state state.now) }
{
    let generation = state.generation();
    Summary {
        edits: state.edits(),
        asked,
        leaves: state.journal().leaves().len(),
        files: generation.file_count(),
        prefix: state.tip(),
        sum: sum_files(generation),
    }
}

// All bytes of all files, added up.
fn sum_files(generation: &Generation) -> u128
    ensures { result ≡ files_sum generation.now }
{
    // For the prover: how many paths a description can have.
    let _conf = generation.conf();
    let mut sum = 0;
    for i in 0..generation.file_count() {
        let path = generation.path(i).unwrap();
        sum += sum_file(generation, &path);
    }
    sum
}

// The bytes of the file at a path, added up.
fn sum_file(generation: &Generation, path: &Path) -> u128
    requires { IsSome (get (files_in generation.now) (spelling path.now)) }
    ensures sum { result ≡ file_sum generation.now path.now }
    ensures small { result < 2 ^ 72 }
{
    let mut front = [0; 2880];
    let parts = generation.file_parts(path, &mut front).unwrap();
    let sum = add_bytes(0, &front[..parts.front]);
    let sum = add_bytes(sum, parts.kept);
    add_bytes(sum, parts.zeros)
}

// A sum with more bytes.
fn add_bytes(before: u128, bytes: &[u8]) -> u128
    requires { before + 255 * length bytes.now < 2 ^ 128 }
    ensures sum { result ≡ before + sum bytes.now }
    ensures small { result ≤ before + 255 * length bytes.now }
{
    let mut total = before;
    for byte in bytes {
        total += u128::from(*byte);
    }
    total
}
