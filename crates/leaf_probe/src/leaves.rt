//! The leaves that the records of `probe` give.
ghost use Rattle.std.specs.Prelude.{◌≡◌, ℕ, ◌*◌, ◌/◌, ◌^◌, ◌<◌, ◌≤◌, ◌&&◌, List, length, IfOk, IfErr, OnOk, Some, All, MatchResult, if◌then◌else◌};
ghost use Rattle.std.specs.BTreeMap.{is_at};
ghost use Rattle.std.specs.Map.{lookup, values_of};
ghost use Rattle.std.specs.Ordering.{nat_cmp};
ghost use Rattle.std.specs.Io.KnownBytes.{IsAtEnd};
ghost use Rattle.survey_link.specs.Link.{CountsFault};
ghost use Rattle.healpix_nested.specs.Cells.{cell_count, lies_under};
ghost use Rattle.tile_pixels.specs.Stored.{numbers_from};
ghost use Rattle.tile_pixels.specs.Tile.{HasShape};
ghost use Rattle.leaf_probe.specs.Probe.{IsProbe};
ghost use Rattle.leaf_probe.specs.Status.{read_failed};
ghost use Rattle.leaf_probe.specs.Merging.{IsLevel, steps_after};
ghost use Rattle.leaf_probe.specs.Records.{record_length, reading_status};
ghost use Rattle.leaf_probe.specs.Reading.{StandsFor, HasStatusIn, reading_statuses, ReadsPieces, empty_readings};
ghost use Rattle.leaf_probe.specs.Probe.{probe_depth, shape_of, leaves_read, records_under};

use crate::asked::Probe;
use crate::fault::ProbeFault;
use crate::merging::Tiles;
use crate::records::{depth, next_record};
use healpix_nested::Cell;
use parent_rule::Steps;
use std::alloc::{AllocError, Global};
use std::collections::BTreeMap;
use survey_link::Source;
use tile_pixels::Tile;

/// The most records that are read.
const MOST_RECORDS: u32 = 65_536;

// Whether a leaf lies at or under the asked cell.
fn lies_under(asked: &Probe, leaf: u64) -> bool
    requires asked { IsProbe asked.now }
    requires leaf { leaf < cell_count asked.now.top }
    ensures { result ≡ lies_under asked.now.top leaf asked.now.order asked.now.npix }
{
    match Cell::new(asked.top, leaf) {
        None => false,
        Some(cell) => cell.ancestor(asked.order).npix() == asked.npix,
    }
}

// Keeps the tile of a record where its leaf lies at or under the asked cell.
fn keep(
    alloc: Global,
    asked: &Probe,
    leaf: u64,
    raw: &[u8],
    leaves: &mut Tiles,
    steps: &mut Steps,
) -> Result<(), AllocError>
    requires asked { IsProbe asked.now }
    requires leaf { leaf < cell_count asked.now.top }
    requires raw { length raw.now ≡ 2 * 4 ^ asked.now.n }
    requires tiles { All (λ tile. HasShape tile probe_depth asked.now.n) (values_of leaves.old.entries) }
    requires sizes { All (λ tile. length tile.numbers ≡ 4 ^ asked.now.n) (values_of leaves.old.entries) }
    ensures kept { OnOk result ((q : ℕ) → lookup (is_at (nat_cmp q)) leaves.new.entries
        ≡ (if lies_under asked.now.top leaf asked.now.order asked.now.npix && is_at (nat_cmp leaf) q
        then Some (record { depth = probe_depth; n = asked.now.n; numbers = numbers_from 16 (4 ^ asked.now.n) raw.now })
        else lookup (is_at (nat_cmp q)) leaves.old.entries)) }
    ensures tiles { OnOk result (All (λ tile. HasShape tile probe_depth asked.now.n) (values_of leaves.new.entries)) }
    ensures sizes { OnOk result (All (λ tile. length tile.numbers ≡ 4 ^ asked.now.n) (values_of leaves.new.entries)) }
    ensures counted { OnOk result (steps.new ≡ steps_after (if lies_under asked.now.top leaf asked.now.order asked.now.npix then 1 else 0) steps.old) }
    ensures steps_never_fall { steps.old ≤ steps.new }
{
    if !lies_under(asked, leaf) {
        return Ok(());
    }
    let tile = Tile::from_bytes(alloc, raw, depth(), asked.n, steps)?;
    leaves.insert(leaf, tile)?;
    Ok(())
}

/// Reads leaf records to the end of the input, and keeps the tiles of the leaves at or under the asked cell; a later record
/// of a leaf replaces the earlier. A step is counted for each record whose tile is made.
///
/// # Errors
///
/// The first in the input, whether its leaf is kept or not: `OutOfRange` where a record's number is no leaf's, `Cut` where
/// the input ends within a record, `TooMany` where it goes on after 65,536 records; `Read` only where the source's count of
/// faults rose; `OutOfMemory`. After a reading that was refused, or that found the end, none is made.
pub fn read_leaves<S: Source>(
    alloc: Global,
    asked: &Probe,
    source: &mut S,
    steps: &mut Steps,
) -> Result<Tiles, ProbeFault>
    requires { IsProbe asked.now }
    ensures whole { (input : List ℕ) → S.left source.old ≡ Some input → OnOk result (reading_status asked.now.top asked.now.n input ≡ 0) }
    ensures leaves { (input : List ℕ) → S.left source.old ≡ Some input → IfOk result (λ leaves.
        IsLevel (shape_of asked.now) (leaves_read asked.now input) asked.now.order asked.now.npix asked.now.top leaves.entries) }
    ensures counted { (input : List ℕ) → S.left source.old ≡ Some input
        → OnOk result (steps.new ≡ steps_after (records_under asked.now input (length input / record_length asked.now.n)) steps.old) }
    ensures refused { (input : List ℕ) → S.left source.old ≡ Some input
        → IfErr result (λ fault. StandsFor fault (reading_status asked.now.top asked.now.n input)) }
    ensures kinds { IfErr result (HasStatusIn reading_statuses) }
    ensures tiles { IfOk result (λ leaves. All (λ tile. HasShape tile probe_depth asked.now.n) (values_of leaves.entries)) }
    ensures end { OnOk result (IsAtEnd (S.left source.new)) }
    ensures reads { MatchResult result
        (λ _. ReadsPieces 1 (S.left source.old) (S.left source.new) (S.readings source.old) (S.readings source.new))
        (λ fault. ReadsPieces (empty_readings fault) (S.left source.old) (S.left source.new) (S.readings source.old) (S.readings source.new)) }
    ensures faults { CountsFault (read_failed result) (S.faults source.old) (S.faults source.new) }
    ensures steps_never_fall { steps.old ≤ steps.new }
{
    let mut raw = vec![in alloc; 0u8; 2 * 4usize.pow(u32::from(asked.n))]?;
    let mut leaves = BTreeMap::new(alloc);
    for _count in 0..MOST_RECORDS {
        match next_record(asked.top, asked.n, source, &mut raw)? {
            None => return Ok(leaves),
            Some(leaf) => keep(alloc, asked, leaf, &raw, &mut leaves, steps)?,
        }
    }
    let mut more = [0];
    if source.read(&mut more)? > 0 {
        return Err(ProbeFault::TooMany);
    }
    Ok(leaves)
}
