//! A survey as it goes from state to state.
ghost use Rattle.std.specs.Prelude.{◌≤◌, IsTrue, Contains, length};
ghost use Rattle.edit_journal.specs.Batches.{ends};
ghost use Rattle.survey_core.specs.State.{state_edits};

use crate::bodies::body;
use edit_journal::{BatchRefusal, Edit, EditRefusal};
use parent_rule::Steps;
use small_files::SURVEY;
use small_survey::{first_state, fits};
use std::alloc::{AllocError, Global};
use std::process::Abort;
use std::sync::Arc;
use std::test::Fail;
use std::thread::Threads;
use survey_conf::Conf;
use survey_core::{InstallRefusal, State, read_batch};
use survey_link::OpenGate;

// The one edit of a body.
fn edit_of(alloc: Global, conf: &Conf, text: &str) -> Result<Edit, Fail> {
    let body = body(alloc, text)?;
    let mut edits = read_batch(alloc, &body, conf, &mut Steps::new())?;
    Ok(edits.pop().ok_or("no edit")?)
}

// The number of the edit's fault; where it has none, the state goes on with it.
fn accepts(state: &mut State, edit: Edit) -> Option<u8> {
    if !fits(state, &edit) {
        return Some(255);
    }
    match state.accept(edit) {
        Ok(next) => {
            *state = next;
            None
        }
        Err(EditRefusal::Fault(fault)) => Some(fault.number()),
        Err(EditRefusal::OutOfMemory) => Some(0),
    }
}

// The same with the one edit of a body.
fn with_edit(alloc: Global, state: &mut State, text: &str) -> Result<Option<u8>, Fail> {
    let edit = edit_of(alloc, state.conf(), text)?;
    Ok(accepts(state, edit))
}

// The same with the batch of a body: the place and the number of its fault, as one number.
fn with_batch(alloc: Global, state: &mut State, text: &str) -> Result<Option<u8>, Fail> {
    let body = body(alloc, text)?;
    let edits = read_batch(alloc, &body, state.conf(), &mut Steps::new())?;
    match state.accept_all(edits) {
        Ok(next) => {
            *state = next;
            Ok(None)
        }
        Err(BatchRefusal::Fault(fault)) => {
            Ok(Some((fault.at.min(9) * 10) as u8 + fault.fault.number()))
        }
        Err(BatchRefusal::OutOfMemory) => Ok(Some(0)),
    }
}

// Whether the first `k` edits can be published: they are whole batches, and not fewer than the tip.
fn can_publish(state: &State, k: u32) -> bool
    ensures whole { IsTrue result → Contains (ends state.now.batches) k }
    ensures known { IsTrue result → k ≤ length (state_edits state.now) }
    ensures forward { IsTrue result → state.now.tip ≤ k }
{
    state.journal().is_end(k) && k <= state.edits() && state.tip() <= k
}

// Publishes the first `k` edits; or the tip, at which they are already.
fn publishes<R: Threads + Sync>(
    rt: &R,
    alloc: Global,
    state: &mut State,
    k: u32,
) -> Result<Option<u8>, Fail> {
    if !can_publish(state, k) {
        return Ok(Some(255));
    }
    let gate = OpenGate::new();
    let mut steps = Steps::new();
    let next = state
        .generation()
        .next(rt, state.journal(), k, &gate, &mut steps)?;
    match state.install(Arc::new(alloc, next)?) {
        Ok(next) => {
            *state = next;
            Ok(None)
        }
        Err(InstallRefusal::Already { tip }) => Ok(Some(tip.min(9) as u8)),
        Err(InstallRefusal::OutOfMemory) => Ok(Some(0)),
    }
}

// One step by its word: `edit` or `batch` and a body, or `publish` and a number. Why it is refused; nothing where the state
// goes on.
fn told<R: Threads + Sync>(
    rt: &R,
    alloc: Global,
    state: &mut State,
    word: &str,
    rest: &str,
) -> Result<Option<u8>, Fail> {
    match word {
        "edit" => with_edit(alloc, state, rest),
        "batch" => with_batch(alloc, state, rest),
        _ => publishes(rt, alloc, state, rest.parse::<u32>()?),
    }
}

// A step, why it is refused, and then how many edits there are, how many are published, and how many leaves.
static STEPS: &str = "publish|0|0 0 0 0
edit|add 0 2888;@|- 1 0 1
edit|add 0 2888;@|1 1 0 1
edit|remove 5;|2 1 0 1
batch|add 1 2888;@add 1 2888;@|11 1 0 1
batch|add 1 2888;@remove 0;put 3071 2888;@|- 4 0 2
publish|2|255 4 0 2
publish|5|255 4 0 2
publish|1|- 4 1 2
publish|1|1 4 1 2
publish|0|255 4 1 2
edit|remove 1;|- 5 1 1
publish|5|- 5 5 1
publish|5|5 5 5 1
batch|remove 3071;|- 6 5 0";

// Why a step was refused, and the counts of the state after it.
fn shown(alloc: Global, told: Option<u8>, state: &State) -> Result<String, AllocError> {
    let (edits, tip) = (state.edits(), state.tip());
    let leaves = state.journal().leaves().len();
    match told {
        Some(number) => format!(in alloc; "{number} {edits} {tip} {leaves}"),
        None => format!(in alloc; "- {edits} {tip} {leaves}"),
    }
}

// Whether the step of a row goes so, and the generation has as many edits as are published.
fn goes<R: Threads + Sync>(
    rt: &R,
    alloc: Global,
    state: &mut State,
    row: &str,
) -> Result<bool, Fail> {
    let (word, rest) = row.split_once('|').ok_or("no word")?;
    let (rest, expected) = rest.split_once('|').ok_or("no answer")?;
    let told = told(rt, alloc, state, word, rest)?;
    let found = shown(alloc, told, state)?;
    Ok(found.as_str() == expected && state.generation().prefix() == state.tip())
}

fn all_go<R: Threads + Abort + Sync>(rt: &R, alloc: Global, state: &mut State) -> Result<(), Fail> {
    for row in STEPS.lines() {
        assert!(rt; goes(rt, alloc, state, row)?, "{row}");
    }
    Ok(())
}

#[test]
fn a_survey_goes_from_state_to_state(rt: HostRuntime) -> Result<(), Fail> {
    let mut state = first_state(&rt, rt.alloc(), SURVEY)?;
    all_go(&rt, rt.alloc(), &mut state)
}
