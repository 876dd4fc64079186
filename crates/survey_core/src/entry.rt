//! One entry of the body of a batch.
ghost use Rattle.std.specs.Prelude.{◌≡◌, ◌+◌, ◌≤◌, Ok, IfOk, IfErr, OnOk};
ghost use Rattle.std.specs.Arc.{arc_value};
ghost use Rattle.parent_rule.specs.Permit.{one_more};
ghost use Rattle.dirty_plan.specs.Dirty.{steps_after};
ghost use Rattle.edit_journal.specs.Edit.{edit_of};
ghost use Rattle.survey_core.specs.BatchBody.{edit_by, tile_in, entry, tiles_read, entry_tiles};
ghost use Rattle.survey_core.specs.Refusal.{TellsEntryRefusal};

use crate::fault::{EntryFault, EntryRefusal};
use crate::line::{Line, Verb, line_at};
use edit_journal::Edit;
use fits_tile::{TileRefusal, decode};
use parent_rule::Steps;
use std::alloc::Global;
use std::sync::Arc;
use survey_conf::Conf;
use tile_pixels::Tile;

/// The edit of the entry at the front of the bytes, and what follows the entry.
#[tactic(auto, unfolding(crate::specs::BatchBody::entry))]
pub(crate) fn read_entry<'a>(
    alloc: Global,
    bytes: &'a [u8],
    conf: &Conf,
    steps: &mut Steps,
) -> Result<(Edit, &'a [u8]), EntryRefusal>
    ensures read { IfOk result (λ read. entry conf.now bytes.now ≡ Ok (edit_of read.0, read.1.now)) }
    ensures refused { IfErr result (TellsEntryRefusal (entry conf.now bytes.now)) }
    ensures steps { OnOk result (steps.new ≡ steps_after steps.old (entry_tiles (entry conf.now bytes.now))) }
    ensures at_most { steps.new ≤ steps.old + entry_tiles (entry conf.now bytes.now) }
    ensures never_falls { steps.old ≤ steps.new }
{
    // For the prover: a count fits 64 bits.
    let _count = steps.count();
    match line_at(bytes, conf.shape().top) {
        None => Err(EntryRefusal::Fault(EntryFault::Line)),
        Some((Line::Remove { leaf }, rest)) => Ok((Edit::Remove { leaf }, rest)),
        Some((Line::Tiled { verb, leaf, len }, rest)) => {
            if rest.len() < len as usize {
                return Err(EntryRefusal::Fault(EntryFault::Short));
            }
            let (file, rest) = rest.split_at(len as usize);
            match read_tile(alloc, file, conf, steps) {
                Ok(tile) => Ok((edit_by(verb, leaf, tile), rest)),
                Err(refusal) => Err(refusal),
            }
        }
    }
}

// The tile of a tile file.
#[tactic(auto, unfolding(crate::specs::BatchBody::tile_in))]
fn read_tile(
    alloc: Global,
    file: &[u8],
    conf: &Conf,
    steps: &mut Steps,
) -> Result<Arc<Tile>, EntryRefusal>
    ensures read { IfOk result (λ tile. tile_in conf.now file.now ≡ Ok (arc_value tile)) }
    ensures refused { IfErr result (TellsEntryRefusal (tile_in conf.now file.now)) }
    ensures steps { OnOk result (steps.new ≡ one_more steps.old) }
    ensures at_most { steps.new ≤ steps.old + tiles_read (tile_in conf.now file.now) }
    ensures never_falls { steps.old ≤ steps.new }
{
    match decode(alloc, file, conf, steps) {
        Ok(tile) => match Arc::new(alloc, tile) {
            Ok(tile) => Ok(tile),
            Err(_) => Err(EntryRefusal::OutOfMemory),
        },
        Err(TileRefusal::Fault(fault)) => Err(EntryRefusal::Fault(EntryFault::Tile(fault))),
        Err(TileRefusal::OutOfMemory) => Err(EntryRefusal::OutOfMemory),
    }
}

// The edit that gives a leaf a tile.
fn edit_by(verb: Verb, leaf: u64, tile: Arc<Tile>) -> Edit
    ensures { edit_of result ≡ edit_by verb leaf (arc_value tile) }
{
    match verb {
        Verb::Put => Edit::Put { leaf, tile },
        Verb::Add => Edit::Add { leaf, tile },
        Verb::Replace => Edit::Replace { leaf, tile },
    }
}
