//! From a peer to a shelf.
ghost use Rattle.std.specs.Prelude.{◌≡◌, ◌≢◌, ◌⊎◌, ◌≤◌, ◌+◌, ℕ, List, [], length, false, IfOk, IfErr, OnOk, OnErr};
ghost use Rattle.std.specs.FinMap.{len};
ghost use Rattle.std.specs.Map.{keys_of};
ghost use Rattle.std.specs.Io.KnownBytes.{Appends};
ghost use Rattle.survey_link.specs.Link.{CountsFault};
ghost use Rattle.mirror_frame.specs.Requests.{asks, mirror_requests};
ghost use Rattle.mirror_frame.specs.Peer.{unread_at};
ghost use Rattle.generation.specs.Files.{leaf_map, files_in};
ghost use Rattle.generation.specs.Steps.{tiles_above};
ghost use Rattle.shelf_io.specs.Survey.{Replaces, OthersStay};
ghost use Rattle.hips_mirror.specs.Mirror.{IsCopy, Refuses, TrueOf, Talks, Copies, StepsFit, is_read_fault, is_write_fault, is_shelf_fault, is_err_and};
ghost use Rattle.hips_mirror.specs.Stages.{Reaches, IsRefused};
ghost use Rattle.hips_mirror.specs.Order.{InOrder};

use crate::asking::ask;
use crate::comparing::{build, compare_mosaic, read_mosaic};
use crate::cover::read_cover;
use crate::description::read_description;
use crate::leaves::read_leaves;
use crate::logging::{say_building, say_copied, say_refused};
use crate::refusal::MirrorRefusal;
use crate::request::Request;
use generation::Generation;
use log::Log;
use mirror_frame::{Due, Peer, Received};
use parent_rule::Steps;
use shelf_io::export;
use std::alloc::Global;
use std::thread::Threads;
use std::time::Clock;
use survey_link::{Gate, LinkFault, Means, Shelf, Sink, Source};

/// Copies one published state of a peer's survey onto the shelf, and answers how many files these are. It asks the peer to
/// hold its newest state, reads its description, its coverage, its leaves one after another, and its mosaic, builds all files
/// of the leaves itself, and compares. Then the pin is released, and the shelf's files of a survey become those of the copy;
/// all other files stay. The steps rise by one for each leaf and each tile that exists above them, at most. How far it is,
/// and what is wrong with what the peer sends, is logged.
///
/// # Errors
///
/// The first of these that applies, by the order of the requests, each if and only if: `Reply`: that reply is malformed; `Cut`:
/// the input ends within it; `Properties`, `Cover`, `Leaf`: that body is refused; `TooLarge`: the cover has more than 65,000
/// leaves, or these are charged with more than 2^29 bytes; `Differs`: the properties, or else the mosaic, isn't that of the
/// leaves. `ReadFault`, `WriteFault` and `ShelfFault` if and only if that one's count of faults rose. `OutOfMemory`. The shelf is
/// changed only after the last reply.
pub fn mirror<R: Threads + Sync + Clock + Log, S: Source, K: Sink, H: Shelf, G: Gate + Sync>(
    rt: &R,
    alloc: Global,
    src: &mut S,
    sink: &mut K,
    shelf: &mut H,
    gate: &G,
    steps: &mut Steps,
) -> Result<u64, MirrorRefusal>
    ensures copied { IfOk result (Copies (S.left src.old) (K.held sink.old) (K.held sink.new) (H.files shelf.old) (H.files shelf.new) steps.old steps.new) }
    ensures flushed { OnOk result (K.flushed sink.new ≡ K.held sink.new) }
    // Each request was sent once the reply to the one before was read; nothing else was written, and nothing more was read.
    ensures order { (held : List ℕ) × InOrder S.Source K.Sink (record { src = src.old; sink = sink.old; held = [] }) (record { src = src.new; sink = sink.new; held = held }) result }
    ensures refused { IfErr result (λ refusal. TrueOf (S.left src.old) (λ bytes. Refuses bytes refusal)) }
    ensures untouched { IfErr result (λ refusal. refusal ≢ MirrorRefusal.ShelfFault → refusal ≢ MirrorRefusal.OutOfMemory
        → H.files shelf.new ≡ H.files shelf.old) }
    ensures last { OnErr result ((H.files shelf.new ≡ H.files shelf.old)
        ⊎ (Talks (S.left src.old) (K.held sink.old) (K.held sink.new) × OthersStay (H.files shelf.old) (H.files shelf.new))) }
    ensures read_fault { CountsFault (is_err_and is_read_fault result) (S.faults src.old) (S.faults src.new) }
    ensures write_fault { CountsFault (is_err_and is_write_fault result) (K.faults sink.old) (K.faults sink.new) }
    ensures shelf_fault { CountsFault (is_err_and is_shelf_fault result) (H.faults shelf.old) (H.faults shelf.new) }
    ensures steps { OnErr result ((steps.new ≡ steps.old) ⊎ StepsFit (S.left src.old) steps.old steps.new) }
    ensures steps_never_fall { steps.old ≤ steps.new }
{
    let means = Means { rt, alloc, gate };
    match copy(&means, src, sink, steps) {
        Ok(generation) => put_files(rt, alloc, shelf, &generation),
        Err(refusal) => Err(refusal),
    }
}

// Makes the shelf's files of a survey those of the generation, and answers how many these are.
fn put_files<R: Clock + Log, H: Shelf>(
    rt: &R,
    alloc: Global,
    shelf: &mut H,
    generation: &Generation,
) -> Result<u64, MirrorRefusal>
    ensures count { IfOk result (λ count. count ≡ len (files_in generation.now)) }
    ensures replaced { OnOk result (Replaces (files_in generation.now) (H.files shelf.old) (H.files shelf.new)) }
    ensures refused { IfErr result (λ refusal. (refusal ≡ MirrorRefusal.ShelfFault) ⊎ (refusal ≡ MirrorRefusal.OutOfMemory)) }
    ensures others { OnErr result (OthersStay (H.files shelf.old) (H.files shelf.new)) }
    ensures faults { CountsFault (is_err_and is_shelf_fault result) (H.faults shelf.old) (H.faults shelf.new) }
{
    match export(rt, alloc, shelf, generation) {
        Ok(count) => Ok(count),
        Err(LinkFault::Failed) => Err(MirrorRefusal::ShelfFault),
        Err(LinkFault::OutOfMemory) => Err(MirrorRefusal::OutOfMemory),
    }
}

// The generation of the state that the peer holds, once the last reply was read.
fn copy<R: Threads + Sync + Clock + Log, S: Source, K: Sink, G: Gate + Sync>(
    means: &Means<'_, R, G>,
    src: &mut S,
    sink: &mut K,
    steps: &mut Steps,
) -> Result<Generation, MirrorRefusal>
    ensures copied { IfOk result (λ made. TrueOf (S.left src.old) (λ bytes. IsCopy bytes made.conf (leaf_map made.leaves))) }
    ensures sent { IfOk result (λ made. Appends (K.held sink.old) (K.held sink.new) (mirror_requests made.conf.shape.top (keys_of made.leaves))) }
    ensures flushed { OnOk result (K.flushed sink.new ≡ K.held sink.new) }
    ensures order { (held : List ℕ) × InOrder S.Source K.Sink (record { src = src.old; sink = sink.old; held = [] }) (record { src = src.new; sink = sink.new; held = held }) result }
    ensures refused { IfErr result (λ refusal. TrueOf (S.left src.old) (λ bytes. Refuses bytes refusal)) }
    ensures no_shelf { is_err_and is_shelf_fault result ≡ false }
    ensures read_fault { CountsFault (is_err_and is_read_fault result) (S.faults src.old) (S.faults src.new) }
    ensures write_fault { CountsFault (is_err_and is_write_fault result) (K.faults sink.old) (K.faults sink.new) }
    ensures few { IfOk result (λ made. steps.new ≤ steps.old + (length made.leaves + tiles_above made.conf.shape (leaf_map made.leaves))) }
    ensures steps { OnErr result ((steps.new ≡ steps.old) ⊎ StepsFit (S.left src.old) steps.old steps.new) }
    ensures steps_never_fall { steps.old ≤ steps.new }
{
    let mut received = Received::new(means.alloc)?;
    let mut peer = Peer {
        src,
        sink,
        received: &mut received,
    };
    copy_from(means, &mut peer, steps)
}

// The same, from a peer of which nothing was asked.
fn copy_from<R: Threads + Sync + Clock + Log, S: Source, K: Sink, G: Gate + Sync>(
    means: &Means<'_, R, G>,
    peer: &mut Peer<'_, '_, '_, S, K>,
    steps: &mut Steps,
) -> Result<Generation, MirrorRefusal>
    ensures copied { IfOk result (λ made. (k : ℕ) × Reaches S.Source K.Sink k (asks made.conf.shape.top (keys_of made.leaves))
        (λ bytes rest. IsCopy bytes made.conf (leaf_map made.leaves)) peer.old peer.new) }
    ensures refused { IfErr result (IsRefused S.Source K.Sink peer.old peer.new) }
    ensures few { IfOk result (λ made. steps.new ≤ steps.old + (length made.leaves + tiles_above made.conf.shape (leaf_map made.leaves))) }
    ensures steps { OnErr result ((steps.new ≡ steps.old) ⊎ StepsFit (unread_at S.Source peer.old) steps.old steps.new) }
    ensures steps_never_fall { steps.old ≤ steps.new }
{
    let (rt, alloc) = (means.rt, means.alloc);
    let survey = read_description(rt, alloc, peer)?;
    let numbers = read_cover(rt, alloc, peer, &survey)?;
    let leaves = read_leaves(means, peer, &survey, &numbers, steps)?;
    let count = leaves.len();
    read_mosaic(rt, peer, survey.pinned, count)?;
    let pinned = survey.pinned;
    say_building(rt, count);
    let built = build(means, survey, leaves, steps);
    say_refused(rt, &Request::mosaic(count), &built);
    let generation = built?;
    let compared = compare_mosaic(alloc, &generation, peer.body());
    say_refused(rt, &Request::mosaic(count), &compared);
    compared?;
    ask(rt, peer, &Request::unpin(count), Due::Any)?;
    say_copied(rt, pinned);
    Ok(generation)
}
