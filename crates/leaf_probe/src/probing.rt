//! One tile of the leaves that are read.
ghost use Rattle.std.specs.Prelude.{◌≡◌, ◌≢◌, ℕ, ◌≤◌, List, Some, IfErr, IfOk, OnOk, IsErrOf, All};
ghost use Rattle.std.specs.Map.{values_of};
ghost use Rattle.std.specs.Io.KnownBytes.{Appends, IsAtEnd};
ghost use Rattle.survey_link.specs.Link.{CountsFault, AppendsPrefix};
ghost use Rattle.leaf_probe.specs.declared.fault.ProbeFault.TheVariants.{Write};
ghost use Rattle.leaf_probe.specs.Probe.{IsProbe};
ghost use Rattle.leaf_probe.specs.Status.{read_failed, write_failed};
ghost use Rattle.healpix_nested.specs.Cells.{cell_count};
ghost use Rattle.pyramid_model.specs.Shape.{LeafMap};
ghost use Rattle.tile_pixels.specs.Tile.{tile_of, HasShape};
ghost use Rattle.leaf_probe.specs.Merging.{tiles_made, steps_after, IsLevel};
ghost use Rattle.leaf_probe.specs.Probe.{probe_answer, probe_depth, probe_steps, tile_answer, shape_of};
ghost use Rattle.leaf_probe.specs.Reading.{StandsFor, HasStatusIn, tile_statuses, ReadsToTheEnd};

use crate::asked::Probe;
use crate::fault::ProbeFault;
use crate::leaves::read_leaves;
use crate::merging::{Tiles, merge_up};
use crate::records::depth;
use command_output::write_out;
use healpix_nested::cells;
use parent_rule::Steps;
use pyramid_model::Shape;
use std::alloc::Global;
use survey_link::{Failed, Sink, Source};
use tile_pixels::Tile;

/// Reads leaf records from the source to its end, and writes the stored bytes of the asked tile.
///
/// # Errors
///
/// `OutOfRange` where the asked tile is no cell of its order, before anything is read; then as `read_leaves`; then `NoLeaf`
/// where no leaf lies at or under the tile. `Read` and `Write` only where the source's, the sink's count of faults rose.
/// Nothing is written with any error but `Write`. What was written is flushed.
pub fn probe<S: Source, K: Sink>(
    alloc: Global,
    asked: &Probe,
    source: &mut S,
    sink: &mut K,
    steps: &mut Steps,
) -> Result<(), ProbeFault>
    requires { IsProbe asked.now }
    ensures answered { (input : List ℕ) → S.left source.old ≡ Some input → OnOk result ((probe_answer asked.now input).status ≡ 0) }
    ensures refused { (input : List ℕ) → S.left source.old ≡ Some input
        → IfErr result (λ fault. StandsFor fault (probe_answer asked.now input).status) }
    ensures written { (input : List ℕ) → S.left source.old ≡ Some input
        → OnOk result (Appends (K.held sink.old) (K.held sink.new) (probe_answer asked.now input).output) }
    ensures part { (input : List ℕ) → S.left source.old ≡ Some input → IsErrOf result ProbeFault.Write
        → AppendsPrefix (K.held sink.old) (K.held sink.new) (probe_answer asked.now input).output }
    ensures untouched { IfErr result (λ fault. fault ≢ Write → K.held sink.new ≡ K.held sink.old) }
    ensures flushed { OnOk result (K.flushed sink.new ≡ K.held sink.new) }
    ensures kept { IfErr result (λ fault. fault ≢ Write → K.flushed sink.new ≡ K.flushed sink.old) }
    ensures counted { (input : List ℕ) → S.left source.old ≡ Some input
        → OnOk result (steps.new ≡ steps_after (probe_steps asked.now input) steps.old) }
    ensures reads { ReadsToTheEnd (S.left source.old) (S.left source.new) (S.readings source.old) (S.readings source.new) }
    ensures end { OnOk result (IsAtEnd (S.left source.new)) }
    ensures out_of_range { cell_count asked.now.order ≤ asked.now.npix → (result ≡ Err ProbeFault.OutOfRange) × (source.new ≡ source.old) }
    ensures read { CountsFault (read_failed result) (S.faults source.old) (S.faults source.new) }
    ensures write { CountsFault (write_failed result) (K.faults sink.old) (K.faults sink.new) }
    ensures steps_never_fall { steps.old ≤ steps.new }
{
    if asked.npix >= cells(asked.order) {
        return Err(ProbeFault::OutOfRange);
    }
    let leaves = read_leaves(alloc, asked, source, steps)?;
    let tile = asked_tile(alloc, asked, leaves, steps)?;
    match write_out(sink, tile.raw()) {
        Ok(()) => Ok(()),
        Err(Failed) => Err(ProbeFault::Write),
    }
}

// The asked tile.
fn asked_tile(
    alloc: Global,
    asked: &Probe,
    leaves: Tiles,
    steps: &mut Steps,
) -> Result<Tile, ProbeFault>
    requires asked { IsProbe asked.now }
    requires tiles { All (λ tile. HasShape tile probe_depth asked.now.n) (values_of leaves.entries) }
    ensures answered { (all : LeafMap) → IsLevel (shape_of asked.now) all asked.now.order asked.now.npix asked.now.top leaves.entries
        → OnOk result ((tile_answer asked.now all).status ≡ 0) }
    ensures tile { (all : LeafMap) → IsLevel (shape_of asked.now) all asked.now.order asked.now.npix asked.now.top leaves.entries
        → IfOk result (λ tile. tile ≡ tile_of (shape_of asked.now) all asked.now.order asked.now.npix) }
    ensures refused { (all : LeafMap) → IsLevel (shape_of asked.now) all asked.now.order asked.now.npix asked.now.top leaves.entries
        → IfErr result (λ fault. StandsFor fault (tile_answer asked.now all).status) }
    ensures counted { (all : LeafMap) → IsLevel (shape_of asked.now) all asked.now.order asked.now.npix asked.now.top leaves.entries
        → OnOk result (steps.new ≡ steps_after (tiles_made (shape_of asked.now) all asked.now.order asked.now.npix) steps.old) }
    ensures kinds { IfErr result (HasStatusIn tile_statuses) }
    ensures steps_never_fall { steps.old ≤ steps.new }
{
    let shape = Shape {
        top: asked.top,
        low: 0,
        n: asked.n,
        depth: depth(),
    };
    match merge_up(alloc, &shape, leaves, asked.order, asked.npix, steps)? {
        None => Err(ProbeFault::NoLeaf),
        Some(tile) => Ok(tile),
    }
}
