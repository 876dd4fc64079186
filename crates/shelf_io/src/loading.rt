//! From a shelf to a generation.
ghost use Rattle.std.specs.Prelude.{◌≡◌, ◌+◌, ◌≤◌, [], length, IfOk, IfErr, OnErr, OnOk, IfSome, Ok};
ghost use Rattle.std.specs.Result.{result_err};
ghost use Rattle.std.specs.Arc.{arc_value};
ghost use Rattle.survey_link.specs.Link.{CountsFault};
ghost use Rattle.shelf_io.specs.Refusals.{at_shelf};
ghost use Rattle.dirty_plan.specs.Dirty.{steps_after};
ghost use Rattle.edit_journal.specs.Leaves.{charge_of, FitsLeaves};
ghost use Rattle.edit_journal.specs.Faults.{most_charge};
ghost use Rattle.generation.specs.Files.{leaf_map};
ghost use Rattle.generation.specs.Steps.{tiles_above};
ghost use Rattle.shelf_io.specs.Opening.{OpenedSurvey, opening, opening_steps, leaf_count, IsRefusedBy};

use crate::charge::judge_count;
use crate::description::read_conf;
use crate::leaves::read_leaves;
use crate::listing::shelf_leaves;
use crate::refusal::LoadRefusal;
use generation::Generation;
use leaf_store::Store;
use log::Log;
use parent_rule::Steps;
use std::alloc::{AllocError, Global};
use std::sync::Arc;
use std::thread::Threads;
use std::time::Clock;
use survey_conf::Conf;
use survey_link::{Gate, Means, Shelf};
use tile_pixels::Tile;

/// The generation that the shelf's files describe: that of `survey.conf` and of every path of a tile of the leaves' order. No
/// edit is in it. Leaves are read one after another, by ascending number; one that is listed and gone when it is read counts
/// as absent. The steps rise by one for each leaf and for each tile that exists above the leaves. The shelf stays as it is.
/// How many leaves are read is logged, at most once a second.
///
/// # Errors
///
/// The first of these: `NoConf` if and only if there is no `survey.conf`; `Conf` as `Conf::read` answers; `TooMany` if and
/// only if the charge of all leaves that have a file exceeds 2^29 bytes; `Tile` for the leaf of the lowest number whose file
/// `decode` refuses. `ShelfFault` if and only if the shelf's count of faults rose. `OutOfMemory`.
pub fn load<R: Threads + Sync + Clock + Log, H: Shelf, G: Gate + Sync>(
    rt: &R,
    alloc: Global,
    shelf: &mut H,
    gate: &G,
    steps: &mut Steps,
) -> Result<Generation, LoadRefusal>
    ensures opened { IfOk result (λ made. IfSome (H.files shelf.old) (λ files.
        opening files ≡ Ok (record { conf = made.conf; leaves = made.leaves }))) }
    ensures prefix { IfOk result (λ made. made.prefix ≡ 0) }
    ensures charge { IfOk result (λ made. charge_of made.leaves [] ≤ most_charge) }
    ensures refused { IfErr result (λ refusal. IfSome (H.files shelf.old) (λ files.
        IsRefusedBy (result_err (opening files)) refusal)) }
    ensures faults { CountsFault (at_shelf result) (H.faults shelf.old) (H.faults shelf.new) }
    ensures kept { H.files shelf.new ≡ H.files shelf.old }
    ensures counted { IfOk result (λ made. steps.new ≡ steps_after steps.old
        (length made.leaves + tiles_above made.conf.shape (leaf_map made.leaves))) }
    ensures steps { IfOk result (λ made. steps.new ≤ steps.old
        + (length made.leaves + tiles_above made.conf.shape (leaf_map made.leaves))) }
    ensures steps_told { IfSome (H.files shelf.old) (λ files. steps.new ≤ steps.old + opening_steps files) }
    ensures steps_never_fall { steps.old ≤ steps.new }
{
    let means = Means { rt, alloc, gate };
    let survey = read_survey(&means, shelf, steps)?;
    Ok(first_generation(&means, survey.conf, survey.leaves, steps)?)
}

// What a shelf was opened as.
#[derive(Drop)]
struct ShelfSurvey {
    conf: Conf,
    leaves: Store<Tile>,
}

// The description and the leaf tiles that the shelf has. Which leaves have files is found out, and how many these are is
// judged, before the first of them is read.
fn read_survey<R: Clock + Log, H: Shelf, G>(
    means: &Means<'_, R, G>,
    shelf: &mut H,
    steps: &mut Steps,
) -> Result<ShelfSurvey, LoadRefusal>
    ensures opened { IfOk result (λ survey. IfSome (H.files shelf.old) (λ files.
        opening files ≡ Ok (record { conf = survey.conf; leaves = survey.leaves }))) }
    ensures fits { IfOk result (λ survey. FitsLeaves survey.conf.shape survey.leaves) }
    ensures charge { IfOk result (λ survey. charge_of survey.leaves [] ≤ most_charge) }
    ensures refused { IfErr result (λ refusal. IfSome (H.files shelf.old) (λ files.
        IsRefusedBy (result_err (opening files)) refusal)) }
    ensures faults { CountsFault (at_shelf result) (H.faults shelf.old) (H.faults shelf.new) }
    ensures kept { H.files shelf.new ≡ H.files shelf.old }
    ensures counted { IfOk result (λ survey. steps.new ≡ steps_after steps.old (length survey.leaves)) }
    ensures steps { IfOk result (λ survey. steps.new ≤ steps.old + length survey.leaves) }
    ensures steps_told { IfSome (H.files shelf.old) (λ files. steps.new ≤ steps.old + leaf_count files) }
    ensures steps_never_fall { steps.old ≤ steps.new }
{
    let (rt, alloc) = (means.rt, means.alloc);
    let conf = read_conf(rt, alloc, shelf)?;
    let shape = conf.shape();
    let numbers = shelf_leaves(rt, alloc, shelf, shape.top)?;
    judge_count(rt, shape, numbers.len())?;
    let leaves = read_leaves(means, shelf, &conf, &numbers, steps)?;
    Ok(ShelfSurvey { conf, leaves })
}

/// The generation of a survey with these leaves, with no edit. The steps rise by one for each tile that exists above the leaves.
///
/// # Errors
///
/// `AllocError` where there is no memory for it.
pub fn first_generation<R: Threads + Sync, G: Gate + Sync>(
    means: &Means<'_, R, G>,
    conf: Conf,
    leaves: Store<Tile>,
    steps: &mut Steps,
) -> Result<Generation, AllocError>
    requires { FitsLeaves conf.shape leaves }
    ensures made { IfOk result (λ made. made ≡ record { conf = conf; prefix = 0; leaves = leaves }) }
    ensures counted { OnOk result (steps.new ≡ steps_after steps.old (tiles_above conf.shape (leaf_map leaves))) }
    ensures steps { steps.new ≤ steps.old + tiles_above conf.shape (leaf_map leaves) }
    ensures steps_never_fall { steps.old ≤ steps.new }
{
    let Means { rt, alloc, gate } = *means;
    let conf = Arc::new(alloc, conf)?;
    Generation::start(rt, alloc, conf, leaves, gate, steps)
}
