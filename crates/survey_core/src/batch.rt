//! The body of a batch.
ghost use Rattle.std.specs.Prelude.{◌≡◌, ℕ, ◌+◌, ◌*◌, ◌^◌, ◌<◌, ◌≤◌, None, map, length, All, IfOk, IfErr, OnOk};
ghost use Rattle.fits_header.specs.Cards.{whole_blocks};
ghost use Rattle.fits_tile.specs.TileFile.{data_len};
ghost use Rattle.dirty_plan.specs.Dirty.{steps_after};
ghost use Rattle.edit_journal.specs.Edit.{edit_of};
ghost use Rattle.edit_journal.specs.Leaves.{FitsEdit};
ghost use Rattle.survey_core.specs.BatchBody.{batch_entries, tile_count, tiles_of, read_so_far};
ghost use Rattle.survey_core.specs.Refusal.{TellsBatchRead};

use crate::entry::read_entry;
use crate::fault::{BatchRead, EntryFault, EntryRefusal};
use edit_journal::Edit;
use fits_tile::body_room;
use parent_rule::Steps;
use std::alloc::Global;
use survey_conf::Conf;

// How many entries a batch may have.
const MOST_ENTRIES: usize = 1024;

/// The length in bytes of the longest body of a batch that is taken: four times that of one tile.
pub fn batch_room(conf: &Conf) -> usize
    ensures room { result ≡ 4 * (106560 + whole_blocks (data_len conf.now.shape)) }
    ensures at_most { result ≤ 2 ^ 30 }
{
    // For the prover: a shape bounds the product.
    let _shape = conf.shape();
    4 * body_room(conf)
}

/// Reads the body of a batch: entries one after another up to its end, from 1 to 1,024 of them. An entry is one of the lines
/// `put LEAF LENGTH`, `add LEAF LENGTH`, `replace LEAF LENGTH` and `remove LEAF`, ended by a line feed, and behind one of
/// the first three a tile file of LENGTH bytes. Numbers are in plain decimals, LEAF is one of the survey's leaves and LENGTH
/// is below 2^32. The steps rise by one for each tile that is read.
///
/// # Errors
///
/// `Entry` with the place of the first entry that has a fault, from 0, and the first of these that applies: `Many` where
/// 1,024 entries come before it, `Line` where what is left doesn't begin with a line, as where the body is empty, `Short`
/// where fewer than LENGTH bytes follow, `Tile` where they are not a tile of the survey. `OutOfMemory` where there is no
/// memory for the edits.
pub fn read_batch(
    alloc: Global,
    body: &[u8],
    conf: &Conf,
    steps: &mut Steps,
) -> Result<Vec<Edit>, BatchRead>
    ensures read { IfOk result (λ edits. batch_entries conf.now body.now ≡ record { edits = map edit_of edits.items; fault = None }) }
    ensures some { IfOk result (λ edits. 0 < length edits.items) }
    ensures most { IfOk result (λ edits. length edits.items ≤ 1024) }
    ensures fits { IfOk result (λ edits. All (FitsEdit conf.now.shape) (map edit_of edits.items)) }
    ensures refused { IfErr result (TellsBatchRead (batch_entries conf.now body.now)) }
    ensures steps { OnOk result (steps.new ≡ steps_after steps.old (tile_count (batch_entries conf.now body.now))) }
    ensures at_most { steps.new ≤ steps.old + tile_count (batch_entries conf.now body.now) }
    ensures never_falls { steps.old ≤ steps.new }
{
    if body.is_empty() {
        return Err(BatchRead::Entry {
            at: 0,
            fault: EntryFault::Line,
        });
    }
    // For the prover: a count fits 64 bits.
    let _count = steps.count();
    let mut edits = Vec::new(alloc);
    let mut left = body;
    while !left.is_empty() {
        left = read_next(alloc, left, conf, steps, &mut edits)?;
    }
    Ok(edits)
}

// Reads the entry at the front of the bytes, puts its edit behind those before it, and answers what follows the entry.
fn read_next<'a>(
    alloc: Global,
    bytes: &'a [u8],
    conf: &Conf,
    steps: &mut Steps,
    edits: &mut Vec<Edit>,
) -> Result<&'a [u8], BatchRead>
    requires some { 0 < length bytes.now }
    requires most { length edits.old.items ≤ 1024 }
    ensures read { IfOk result (λ rest. read_so_far conf.now (map edit_of edits.new.items) rest.now ≡ read_so_far conf.now (map edit_of edits.old.items) bytes.now) }
    ensures one_more { OnOk result (length edits.new.items ≡ length edits.old.items + 1) }
    ensures most { OnOk result (length edits.new.items ≤ 1024) }
    ensures refused { IfErr result (TellsBatchRead (read_so_far conf.now (map edit_of edits.old.items) bytes.now)) }
    ensures counted { OnOk result (steps.new + tiles_of (map edit_of edits.old.items) ≤ steps.old + tiles_of (map edit_of edits.new.items)) }
    ensures steps { OnOk result ((count : ℕ) → steps.old ≡ steps_after count (tiles_of (map edit_of edits.old.items))
        → steps.new ≡ steps_after count (tiles_of (map edit_of edits.new.items))) }
    ensures at_most { IfErr result (λ _. steps.new + tiles_of (map edit_of edits.old.items) ≤ steps.old + tile_count (read_so_far conf.now (map edit_of edits.old.items) bytes.now)) }
    ensures never_falls { steps.old ≤ steps.new }
{
    let at = edits.len() as u32;
    if edits.len() == MOST_ENTRIES {
        return Err(BatchRead::Entry {
            at,
            fault: EntryFault::Many,
        });
    }
    if edits.reserve(1).is_err() {
        return Err(BatchRead::OutOfMemory);
    }
    match read_entry(alloc, bytes, conf, steps) {
        Ok((edit, rest)) => {
            edits.push_reserved(edit);
            Ok(rest)
        }
        Err(EntryRefusal::Fault(fault)) => Err(BatchRead::Entry { at, fault }),
        Err(EntryRefusal::OutOfMemory) => Err(BatchRead::OutOfMemory),
    }
}
