//! The merges of one order, by as many workers as there are processors.
ghost use Rattle.std.specs.Prelude.{◌≡◌, ◌+◌, ◌-◌, ◌*◌, ◌/◌, ◌<◌, ◌≤◌, ◌^◌, ◌++◌, length, IfOk, All};
ghost use Rattle.std.specs.Thread.{IsSync};
ghost use Rattle.rebuild_worker.specs.Changed.{AreSources};
ghost use Rattle.rebuild_worker.specs.Level.{merges_of, IsAboveLeaves, HaveShape, ShowsItsCell};
ghost use Rattle.rebuild_worker.specs.Shown.{all_shown};
ghost use Rattle.rebuild_worker.specs.Workers.{AreRepaid, workers_on};

use crate::named::Named;
use crate::permits::Permits;
use crate::serial::merge_all;
use crate::sources::Sources;
use leaf_store::Store;
use parent_rule::Permit;
use pyramid_model::Shape;
use std::alloc::{AllocError, Global};
use std::thread::{Threads, available_parallelism, join};
use survey_link::Gate;
use tile_pixels::Tile;

// A worker beyond the second has at least this many pixels to make: it takes about as long as four starts of a thread.
const PIXELS_OF_A_WORKER: usize = 65536;

/// The same list as `level_serial`, made by as many workers as the machine has processors, as `level_changed` makes it where
/// nothing stood before. The server calls `level_changed`: this is for those who compare.
///
/// # Errors
///
/// `AllocError` where there is no memory for the tiles and their lists.
pub fn level_parallel<R: Threads + Sync, G: Gate + Sync>(
    rt: &R,
    alloc: Global,
    gate: &G,
    shape: Shape,
    children: &Store<Tile>,
    todo: Vec<Permit>,
) -> Result<Vec<Named>, AllocError>
    requires cells { All (IsAboveLeaves shape) todo.items }
    requires children { HaveShape shape children.now }
    ensures merges { IfOk result (λ level. all_shown level.items ≡ merges_of shape children.now todo.items) }
    ensures pixels { IfOk result (λ level. All (ShowsItsCell shape children.now) (all_shown level.items)) }
{
    let none = Store::new(alloc);
    let sources = Sources::anew(children, &none);
    level_changed(rt, alloc, gate, shape, sources, todo)
}

/// The same list as `level_serial` of the children as they are now, where the order stood over them before some leaves were
/// touched: of a tile that was there it merges only the quadrants of children over touched leaves.
///
/// It is made by as many workers as the machine has processors. Each has a run of the permits to itself, and a worker that
/// can't be started has its work done by the caller. A single merge is made by the caller; two have a worker each, since a
/// gate may hold one of them for long, and more workers come only where they repay.
///
/// # Errors
///
/// `AllocError` where there is no memory for the tiles and their lists.
pub fn level_changed<R: Threads + Sync, G: Gate + Sync>(
    rt: &R,
    alloc: Global,
    gate: &G,
    shape: Shape,
    sources: Sources<'_>,
    todo: Vec<Permit>,
) -> Result<Vec<Named>, AllocError>
    requires cells { All (IsAboveLeaves shape) todo.items }
    requires sources { AreSources shape sources }
    ensures merges { IfOk result (λ level. all_shown level.items ≡ merges_of shape sources.entry.children.now todo.items) }
    ensures pixels { IfOk result (λ level. All (ShowsItsCell shape sources.entry.children.now) (all_shown level.items)) }
{
    let workers = workers_for(rt, todo.len(), shape.n);
    let run = Run {
        todo: Permits::new(todo),
        workers,
    };
    merge_by(rt, alloc, gate, shape, sources, run)
}

// Permits, and how many workers make their merges.
#[derive(Drop)]
struct Run {
    todo: Permits,
    workers: usize,
}

// How many workers make so many merges of tiles of 4^n pixels.
fn workers_for(rt: &impl Threads, merges: usize, n: u8) -> usize
    requires { n ≤ 9 }
    ensures some { 0 < result }
    ensures repaid { AreRepaid result merges n }
{
    if merges < 2 {
        return 1;
    }
    let processors = match available_parallelism(rt) {
        Ok(count) => count.get(),
        Err(_) => 2,
    };
    workers_on(processors, merges, n)
}

// How many workers make so many merges of tiles of 4^n pixels, on so many processors.
fn workers_on(processors: usize, merges: usize, n: u8) -> usize
    requires n { n ≤ 9 }
    requires two { 2 ≤ merges }
    ensures { result ≡ workers_on processors merges n }
{
    let each = (PIXELS_OF_A_WORKER >> (2 * n)).max(1);
    processors.min(merges / each).max(2).min(merges)
}

// The workers are halved at each step, and the back half goes to a new thread, so the stack grows as the logarithm of their
// number. The permits are shared out alike, so that those of each half repay its workers.
#[cycle(runs)]
fn merge_by<R: Threads + Sync, G: Gate + Sync>(
    rt: &R,
    alloc: Global,
    gate: &G,
    shape: Shape,
    sources: Sources<'_>,
    run: Run,
) -> Result<Vec<Named>, AllocError>
    requires repaid { AreRepaid run.workers (length run.todo) shape.n }
    requires cells { All (IsAboveLeaves shape) run.todo }
    requires sources { AreSources shape sources }
    ensures { IfOk result (λ level. all_shown level.items ≡ merges_of shape sources.entry.children.now run.todo) }
{
    let Run { mut todo, workers } = run;
    if workers < 2 {
        return merge_all(alloc, gate, shape, sources, todo);
    }
    let near = workers / 2;
    let far = workers - near;
    let at = front_of(todo.len(), near, far);
    let rest = todo.split_off(at)?;
    // A closure's clauses reach `join` only where it captures no struct that holds references.
    let Sources {
        children,
        before,
        touched,
        height,
    } = sources;
    let front = move || -> Result<Vec<Named>, AllocError>
        requires { IsSync R.row × IsSync G.row × AreRepaid near (length todo) shape.n × All (IsAboveLeaves shape) todo
            × AreSources shape (record { children = children; before = before; touched = touched; height = height }) }
        ensures { IfOk result (λ level. all_shown level.items ≡ merges_of shape children.entry.now todo) }
    {
        let sources = Sources {
            children,
            before,
            touched,
            height,
        };
        let workers = near;
        merge_by(rt, alloc, gate, shape, sources, Run { todo, workers })
    };
    let back = move || -> Result<Vec<Named>, AllocError>
        requires { IsSync R.row × IsSync G.row × AreRepaid far (length rest) shape.n × All (IsAboveLeaves shape) rest
            × AreSources shape (record { children = children; before = before; touched = touched; height = height }) }
        ensures { IfOk result (λ level. all_shown level.items ≡ merges_of shape children.entry.now rest) }
    {
        let sources = Sources {
            children,
            before,
            touched,
            height,
        };
        let (todo, workers) = (rest, far);
        merge_by(rt, alloc, gate, shape, sources, Run { todo, workers })
    };
    let (last, first) = join(rt, back, front);
    joined(first?, last?)
}

// How many of some permits the first `near` of `near + far` workers make.
fn front_of(permits: usize, near: usize, far: usize) -> usize
    requires workers { near + far < 2 ^ 64 }
    requires some { 0 < near + far }
    ensures within { result ≤ permits }
    ensures front { permits / (near + far) * near ≤ result }
    ensures back { permits / (near + far) * far ≤ permits - result }
{
    let workers = near + far;
    permits / workers * near + (permits % workers).min(near)
}

// The front with the back behind it.
fn joined(mut front: Vec<Named>, mut back: Vec<Named>) -> Result<Vec<Named>, AllocError>
    ensures { IfOk result (λ level. level.items ≡ front.items ++ back.items) }
{
    front.append(&mut back)?;
    Ok(front)
}
