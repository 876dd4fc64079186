//! A survey of order 11: made, changed by a batch of as many edits as one may have, published, and exported.
ghost use Rattle.std.specs.Prelude.{◌≡◌, ◌≤◌, length, Contains, IfOk, IsTrue};
ghost use Rattle.std.specs.Arc.{arc_value};
ghost use Rattle.edit_journal.specs.Batches.{ends};
ghost use Rattle.survey_core.specs.State.{state_edits};

use crate::tiles::leaves;
use generation::Generation;
use log::Log;
use memory_link::MemShelf;
use parent_rule::Steps;
use shelf_io::{export, load};
use std::alloc::{AllocError, Global};
use std::io::Print;
use std::sync::Arc;
use std::test::Fail;
use std::thread::Threads;
use std::time::Clock;
use survey_conf::Conf;
use survey_core::{State, read_batch};
use survey_link::{OpenGate, Shelf};

static TEXT: &[u8] =
    b"creator_did = ivo://example/P/size\nobs_title = Sizes\nhips_release_date = 2024-05-01T00:00Z\nhips_status = public master clonable\nhips_order = 11\nhips_order_min = 0\nhips_tile_width = 2\nsurvey_bitpix = 16\nsurvey_blank = -32768\n";

// How many leaves there are at first: the first of their order.
const LEAVES: u64 = 8_192;

// How many of them are removed by one batch, and how far one is from the next.
const REMOVED: u64 = 1_024;

const APART: u64 = 8;

/// Prints what the survey is after each step.
///
/// # Errors
///
/// Where there is no memory, or a step is refused.
pub fn print_survey<R: AllocGlobal + Print + Threads + Sync + Clock + Log>(
    rt: &R,
) -> Result<(), Fail> {
    let generation = first_generation(rt, rt.alloc())?;
    let state = State::start(rt.alloc(), generation)?;
    print_batch(rt, &state)
}

fn first_generation<R: AllocGlobal + Print + Threads + Sync>(
    rt: &R,
    alloc: Global,
) -> Result<Arc<Generation>, Fail>
    ensures { IfOk result (λ made. (arc_value made).prefix ≡ 0) }
{
    let conf = Arc::new(alloc, Conf::read(alloc, TEXT)?)?;
    let leaves = leaves(alloc, conf.shape(), LEAVES, 1)?;
    let mut steps = Steps::new();
    let made = Generation::start(rt, alloc, conf, leaves, &OpenGate::new(), &mut steps)?;
    println!(rt;
        "survey leaves {} files {} steps {}",
        made.leaves().len(),
        made.file_count(),
        steps.count()
    )?;
    Ok(Arc::new(alloc, made)?)
}

// Goes on after a batch.
fn print_batch<R: AllocGlobal + Print + Threads + Sync + Clock + Log>(
    rt: &R,
    state: &State,
) -> Result<(), Fail> {
    let body = body(rt.alloc())?;
    let edits = read_batch(rt.alloc(), &body, state.conf(), &mut Steps::new())?;
    println!(rt; "batch {} bytes {}", edits.len(), body.len())?;
    let state = state.accept_all(edits)?;
    print_publication(rt, &state)
}

// A batch that removes as many leaves as one may have edits.
fn body(alloc: Global) -> Result<Vec<u8>, AllocError> {
    let mut body = Vec::new(alloc);
    for i in 0..REMOVED {
        let line = format!(in alloc; "remove {}\n", i * APART)?;
        body.extend_from_slice(line.as_bytes())?;
    }
    Ok(body)
}

// Whether all edits can be published.
fn can_publish(state: &State, k: u32) -> bool
    ensures whole { IsTrue result → Contains (ends state.now.batches) k }
    ensures known { IsTrue result → k ≤ length (state_edits state.now) }
    ensures forward { IsTrue result → state.now.tip ≤ k }
{
    state.journal().is_end(k) && k <= state.edits() && state.tip() <= k
}

// Goes on after a publication.
fn print_publication<R: AllocGlobal + Print + Threads + Sync + Clock + Log>(
    rt: &R,
    state: &State,
) -> Result<(), Fail> {
    let published = published(rt, rt.alloc(), state, state.edits())?;
    println!(rt; "state edits {} tip {}", published.edits(), published.tip())?;
    print_export(rt, published.generation())
}

// The state with the first `k` edits published.
fn published<R: Print + Threads + Sync>(
    rt: &R,
    alloc: Global,
    state: &State,
    k: u32,
) -> Result<State, Fail> {
    if !can_publish(state, k) {
        return Err("an edit can't be published".into());
    }
    let mut steps = Steps::new();
    let next = state
        .generation()
        .next(rt, state.journal(), k, &OpenGate::new(), &mut steps)?;
    println!(rt;
        "published leaves {} files {} steps {}",
        next.leaves().len(),
        next.file_count(),
        steps.count()
    )?;
    Ok(state.install(Arc::new(alloc, next)?)?)
}

// Puts the files on a shelf, which is opened again.
fn print_export<R: AllocGlobal + Print + Threads + Sync + Clock + Log>(
    rt: &R,
    generation: &Generation,
) -> Result<(), Fail> {
    let mut shelf = MemShelf::new(rt.alloc(), Vec::new(rt.alloc()));
    shelf.put("survey.conf", TEXT)?;
    let count = export(rt, rt.alloc(), &mut shelf, generation)?;
    println!(rt; "exported {count}")?;
    print_loaded(rt, &mut shelf)
}

fn print_loaded<R: AllocGlobal + Print + Threads + Sync + Clock + Log>(
    rt: &R,
    shelf: &mut MemShelf,
) -> Result<(), Fail> {
    let loaded = load(rt, rt.alloc(), shelf, &OpenGate::new(), &mut Steps::new())?;
    println!(rt;
        "loaded leaves {} files {}",
        loaded.leaves().len(),
        loaded.file_count()
    )?;
    Ok(())
}
