//! Levels of small tiles, as tables. The bytes of a tile are those of its bottom line first.
ghost use Rattle.std.specs.Prelude.{◌≡◌, IfOk, All};
ghost use Rattle.tile_pixels.specs.Tile.{HasShape};
ghost use Rattle.rebuild_worker.specs.Level.{IsAboveLeaves, HaveShape};

use crate::squares::{self, B};
use leaf_store::Store;
use parent_rule::{Depth, Permit, Steps};
use pyramid_model::Shape;
use rebuild_worker::{Named, level_parallel, level_serial};
use std::alloc::{AllocError, Global};
use std::process::Abort;
use std::sync::Arc;
use std::sync::atomic::{AtomicU64, Ordering};
use std::test::Fail;
use std::thread::{Threads, yield_now};
use survey_link::{Gate, OpenGate};
use tile_pixels::Tile;

// The tiles of order 4 that there are: children 0 and 1 of cell 2, child 3 of cell 7, children 0 and 2 of cell 9.
static CHILDREN: [(u64, [i16; 4]); 5] = [
    (8, [1, 2, 3, 5]),
    (9, [7, 7, 7, B]),
    (31, [4, 4, 4, 4]),
    (36, [10, 20, 30, 40]),
    (38, [-1, -2, -3, -4]),
];

// The cells of order 3 that have a tile above them, and its bytes. A mean of 2.75 is 3, and one of -2.5 is -2.
static ABOVE: [(u64, [u8; 8]); 3] = [
    (2, [0, 7, 0x80, 0, 0, 3, 0x80, 0]),
    (7, [0x80, 0, 0, 4, 0x80, 0, 0x80, 0]),
    (9, [0x80, 0, 0x80, 0, 0, 25, 0xff, 0xfe]),
];

// The bytes of the tile of a cell of order 3.
fn wanted(npix: u64) -> Option<&'static [u8; 8]> {
    for (cell, bytes) in &ABOVE {
        if *cell == npix {
            return Some(bytes);
        }
    }
    None
}

// Tiles of two columns and lines, numbers of 16 bits, leaves of order 4.
fn shape() -> Result<Shape, Fail>
    ensures { IfOk result (λ shape. (shape.top ≡ 4) × (shape.n ≡ 1)) }
{
    let depth = Depth::new(16, i64::from(B)).ok_or("no depth")?;
    Ok(Shape {
        top: 4,
        low: 3,
        n: 1,
        depth,
    })
}

fn tile(alloc: Global, shape: Shape, numbers: &[i16]) -> Result<Arc<Tile>, Fail>
    requires { shape.n ≡ 1 }
    ensures { IfOk result (λ tile. HasShape tile.value shape.depth shape.n) }
{
    let tile = squares::tile(alloc, shape.depth, 1, numbers)?;
    Ok(Arc::new(alloc, tile)?)
}

fn children(alloc: Global, shape: Shape) -> Result<Store<Tile>, Fail>
    requires { shape.n ≡ 1 }
    ensures { IfOk result (HaveShape shape) }
{
    let mut store = Store::new(alloc);
    for (npix, numbers) in &CHILDREN {
        store.put(*npix, tile(alloc, shape, numbers)?)?;
    }
    Ok(store)
}

// A permit for each of these cells of order 3.
fn permits(alloc: Global, shape: Shape, cells: &[u64]) -> Result<Vec<Permit>, AllocError>
    requires { shape.top ≡ 4 }
    ensures { IfOk result (λ todo. All (IsAboveLeaves shape) todo.items) }
{
    let mut steps = Steps::new();
    let mut todo = Vec::with_capacity(alloc, cells.len())?;
    for npix in cells {
        todo.push_reserved(Permit::issue(3, npix % 768, &mut steps));
    }
    Ok(todo)
}

// Whether the tile of the cell is the expected one.
fn has_its_tile(named: &Named) -> bool {
    match (&named.tile, wanted(named.npix)) {
        (Some(tile), Some(bytes)) => tile.raw() == bytes.as_slice(),
        (None, None) => true,
        _ => false,
    }
}

// Whether the level has these cells of order 3 in this order, each with its tile.
fn is_level(level: &[Named], cells: &[u64]) -> bool {
    for (named, npix) in level.iter().zip(cells) {
        if named.order != 3 || named.npix != *npix || !has_its_tile(named) {
            return false;
        }
    }
    level.len() == cells.len()
}

// Whether one thread makes the level of these cells.
fn is_made_serially<G: Gate>(
    alloc: Global,
    gate: &G,
    shape: Shape,
    tiles: &Store<Tile>,
    cells: &[u64],
) -> Result<bool, Fail>
    requires top { shape.top ≡ 4 }
    requires tiles { HaveShape shape tiles.now }
{
    let todo = permits(alloc, shape, cells)?;
    let level = level_serial(alloc, gate, shape, tiles, todo)?;
    Ok(is_level(&level, cells))
}

// Whether many make it.
fn is_made_in_parallel<R: Threads + Sync, G: Gate + Sync>(
    rt: &R,
    alloc: Global,
    gate: &G,
    shape: Shape,
    tiles: &Store<Tile>,
    cells: &[u64],
) -> Result<bool, Fail>
    requires top { shape.top ≡ 4 }
    requires tiles { HaveShape shape tiles.now }
{
    let todo = permits(alloc, shape, cells)?;
    let level = level_parallel(rt, alloc, gate, shape, tiles, todo)?;
    Ok(is_level(&level, cells))
}

static LEVELS: [&[u64]; 6] = [
    &[],
    &[5],
    &[2],
    &[7, 2],
    &[2, 5, 9],
    &[0, 1, 2, 3, 4, 5, 6, 7, 8, 9, 10, 11, 12, 767],
];

// Makes all levels both ways.
fn check_levels<R: Threads + Sync + Abort>(
    rt: &R,
    alloc: Global,
    shape: Shape,
    tiles: &Store<Tile>,
) -> Result<(), Fail>
    requires top { shape.top ≡ 4 }
    requires tiles { HaveShape shape tiles.now }
{
    let gate = OpenGate::new();
    for cells in &LEVELS {
        let by_one = is_made_serially(alloc, &gate, shape, tiles, cells)?;
        let by_many = is_made_in_parallel(rt, alloc, &gate, shape, tiles, cells)?;
        assert!(rt; by_one && by_many, "{cells:?}");
    }
    Ok(())
}

// It holds cell 1 until cell 2 passes, for 2^24 turns at most.
#[derive(Drop)]
struct HeldGate {
    passed: AtomicU64,
    spent: AtomicU64,
}

impl Gate for HeldGate {
    fn pass(&self, _order: u8, npix: u64) {
        if npix == 2 {
            self.passed.store(1, Ordering::SeqCst);
            return;
        }
        for _ in 0..1u32 << 24 {
            if self.passed.load(Ordering::SeqCst) == 1 {
                return;
            }
            yield_now();
        }
        self.spent.store(1, Ordering::SeqCst);
    }
}

// Two cells pass at once.
fn check_held<R: Threads + Sync + Abort>(
    rt: &R,
    alloc: Global,
    shape: Shape,
    tiles: &Store<Tile>,
) -> Result<(), Fail>
    requires top { shape.top ≡ 4 }
    requires tiles { HaveShape shape tiles.now }
{
    let gate = HeldGate {
        passed: AtomicU64::new(0),
        spent: AtomicU64::new(0),
    };
    assert!(rt; is_made_in_parallel(rt, alloc, &gate, shape, tiles, &[1, 2])?);
    assert!(rt;
        gate.spent.load(Ordering::SeqCst) == 0,
        "cell 2 did not pass"
    );
    Ok(())
}

// It counts who passes, and adds up their orders and numbers.
#[derive(Drop)]
struct CountingGate {
    count: AtomicU64,
    orders: AtomicU64,
    cells: AtomicU64,
}

impl CountingGate {
    // Whether it has these counts.
    fn has(&self, count: u64, orders: u64, cells: u64) -> bool {
        self.count.load(Ordering::SeqCst) == count
            && self.orders.load(Ordering::SeqCst) == orders
            && self.cells.load(Ordering::SeqCst) == cells
    }
}

impl Gate for CountingGate {
    fn pass(&self, order: u8, npix: u64) {
        self.count.fetch_add(1, Ordering::SeqCst);
        self.orders.fetch_add(u64::from(order), Ordering::SeqCst);
        self.cells.fetch_add(npix, Ordering::SeqCst);
    }
}

static PASSING: [u64; 5] = [2, 5, 7, 100, 700];

// Each of these cells passes the gate once, both ways.
fn check_counted<R: Threads + Sync + Abort>(
    rt: &R,
    alloc: Global,
    shape: Shape,
    tiles: &Store<Tile>,
) -> Result<(), Fail>
    requires top { shape.top ≡ 4 }
    requires tiles { HaveShape shape tiles.now }
{
    let gate = CountingGate {
        count: AtomicU64::new(0),
        orders: AtomicU64::new(0),
        cells: AtomicU64::new(0),
    };
    let by_one = is_made_serially(alloc, &gate, shape, tiles, &PASSING)?;
    assert!(rt; by_one && gate.has(5, 15, 814), "by one thread");
    let by_many = is_made_in_parallel(rt, alloc, &gate, shape, tiles, &PASSING)?;
    assert!(rt; by_many && gate.has(10, 30, 1628), "by many");
    Ok(())
}

// Levels are made through each gate.
fn check_gates<R: Threads + Sync + Abort>(
    rt: &R,
    alloc: Global,
    shape: Shape,
    tiles: &Store<Tile>,
) -> Result<(), Fail>
    requires top { shape.top ≡ 4 }
    requires tiles { HaveShape shape tiles.now }
{
    check_levels(rt, alloc, shape, tiles)?;
    check_held(rt, alloc, shape, tiles)?;
    check_counted(rt, alloc, shape, tiles)
}

#[test]
fn makes_levels_of_cells_that_pass_once_and_at_once(rt: HostRuntime) -> Result<(), Fail> {
    let shape = shape()?;
    let tiles = children(rt.alloc(), shape)?;
    check_gates(&rt, rt.alloc(), shape, &tiles)
}
