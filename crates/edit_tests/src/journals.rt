//! Worked journals.
ghost use Rattle.std.specs.Prelude.{◌≤◌, map, All, IsTrue, IfOk};
ghost use Rattle.std.specs.Arc.{arc_value};
ghost use Rattle.healpix_nested.specs.Cells.{cell_count};
ghost use Rattle.edit_journal.specs.Edit.{edit_of};
ghost use Rattle.edit_journal.specs.Leaves.{FitsTile, FitsEdit, FitsLeaves};

use edit_journal::{BatchFault, Edit, Journal, StartRefusal};
use healpix_nested::cells;
use leaf_store::Store;
use parent_rule::{Depth, Steps};
use pyramid_model::Shape;
use std::alloc::{AllocError, Global};
use std::process::Abort;
use std::sync::Arc;
use std::test::Fail;
use tile_pixels::Tile;

// A survey of tiles of 2^n columns; its leaves are of order 3.
fn shape(bitpix: u8, n: u8) -> Option<Shape> {
    if n == 0 || n > 9 {
        return None;
    }
    let depth = Depth::new(bitpix, 0)?;
    Some(Shape {
        top: 3,
        low: 3,
        n,
        depth,
    })
}

// A tile of the shape, all of whose stored bytes are the same.
fn tile(alloc: Global, shape: &Shape, byte: u8) -> Result<Arc<Tile>, AllocError>
    ensures { IfOk result (λ tile. FitsTile shape.now (arc_value tile)) }
{
    let count = 4usize.pow(u32::from(shape.n)) * usize::from(shape.depth.bitpix() / 8);
    let mut raw = Vec::new(alloc);
    raw.resize(count, byte)?;
    let tile = Tile::from_bytes(alloc, &raw, shape.depth, shape.n, &mut Steps::new())?;
    Ok(Arc::new(alloc, tile)?)
}

// Whether the edit fits the shape.
fn fits(shape: &Shape, edit: &Edit) -> bool
    ensures { IsTrue result → FitsEdit shape.now (edit_of edit.now) }
{
    if edit.leaf() >= cells(shape.top) {
        return false;
    }
    match edit.tile() {
        Some(tile) => tile.depth() == shape.depth && tile.n() == shape.n,
        None => true,
    }
}

fn all_fit(shape: &Shape, edits: &[Edit]) -> bool
    ensures { IsTrue result → All (FitsEdit shape.now) (map edit_of edits.now) }
{
    for edit in edits {
        if !fits(shape, edit) {
            return false;
        }
    }
    true
}

// An edit by its letter: P to put, A to add, R to replace, D to remove.
fn edit(letter: u8, leaf: u64, tile: &Arc<Tile>) -> Result<Edit, AllocError> {
    let tile = tile.clone()?;
    Ok(match letter {
        b'A' => Edit::Add { leaf, tile },
        b'R' => Edit::Replace { leaf, tile },
        b'D' => Edit::Remove { leaf },
        _ => Edit::Put { leaf, tile },
    })
}

// A batch of edits, each by its letter and a digit.
fn batch(alloc: Global, text: &[u8], tile: &Arc<Tile>) -> Result<Vec<Edit>, AllocError> {
    let mut edits = Vec::new(alloc);
    for pair in text.chunks(2) {
        if let [letter, digit] = pair {
            edits.push(edit(*letter, u64::from(digit.wrapping_sub(b'0')), tile)?)?;
        }
    }
    Ok(edits)
}

// The number of the edit's fault, 0 where it has none, 255 where it doesn't fit.
fn fault_of(journal: &Journal, edit: &Edit) -> u8 {
    if !fits(&journal.shape(), edit) {
        return 255;
    }
    match journal.check(edit) {
        Ok(()) => 0,
        Err(fault) => fault.number(),
    }
}

// The same of the first edit of a batch that has one, with its place.
fn first_fault_of(journal: &Journal, batch: &[Edit]) -> (u32, u8) {
    if batch.is_empty() || batch.len() > 1024 || !all_fit(&journal.shape(), batch) {
        return (0, 255);
    }
    match journal.check_all(batch) {
        Ok(()) => (0, 0),
        Err(BatchFault { at, fault }) => (at, fault.number()),
    }
}

// The journal with the edit.
fn with(journal: &Journal, edit: Edit) -> Option<Journal> {
    if !fits(&journal.shape(), &edit) {
        return None;
    }
    journal.append(edit).ok()
}

// The journal with the batch.
fn with_all(journal: &Journal, batch: Vec<Edit>) -> Option<Journal> {
    if batch.is_empty() || batch.len() > 1024 || !all_fit(&journal.shape(), &batch) {
        return None;
    }
    journal.append_all(batch).ok()
}

// The journal of a survey of small tiles, with no leaf and no edit.
fn empty(alloc: Global) -> Option<Journal> {
    let shape = shape(16, 1)?;
    Journal::start(alloc, shape, Store::new(alloc)).ok()
}

// A tile of that survey.
fn small_tile(alloc: Global) -> Option<Arc<Tile>> {
    let shape = shape(16, 1)?;
    tile(alloc, &shape, 7).ok()
}

// It can be called only where the type may be moved to another thread, and used from several.
fn crosses_threads<S: Send + Sync>(_journal: &S) {}

// An edit, the number of its fault, and how many leaves there are then.
type EditRow = (u8, u64, u8, usize);

static EDITS: [EditRow; 11] = [
    (b'D', 0, 2, 0),
    (b'R', 0, 2, 0),
    (b'A', 0, 0, 1),
    (b'A', 0, 1, 1),
    (b'R', 0, 0, 1),
    (b'P', 0, 0, 1),
    (b'P', 767, 0, 2),
    (b'D', 0, 0, 1),
    (b'D', 0, 2, 1),
    (b'A', 767, 1, 1),
    (b'A', 0, 0, 2),
];

// Takes the edit of a row in, unless it is refused, and answers whether its fault and the leaves are the row's.
fn takes(
    journal: &mut Journal,
    tile: &Arc<Tile>,
    (letter, leaf, fault, leaves): &EditRow,
) -> Result<bool, AllocError> {
    let edit = edit(*letter, *leaf, tile)?;
    let found = fault_of(journal, &edit);
    if let Some(next) = with(journal, edit) {
        *journal = next;
    }
    Ok(found == *fault && journal.leaves().len() == *leaves)
}

fn check_edits(rt: &impl Abort, journal: &mut Journal, tile: &Arc<Tile>) -> Result<(), Fail> {
    for row in &EDITS {
        assert!(rt; takes(journal, tile, row)?, "{row:?}");
    }
    assert!(rt; journal.len() == 6 && journal.charge() == 5 * 1024);
    Ok(())
}

#[test]
fn edits_are_judged_one_by_one(rt: HostRuntime) -> Result<(), Fail> {
    let tile = small_tile(rt.alloc()).ok_or("no tile")?;
    let mut journal = empty(rt.alloc()).ok_or("no journal")?;
    check_edits(&rt, &mut journal, &tile)
}

// A batch, the place and the number of its first fault, and how many edits there are then.
type BatchRow = (&'static [u8], u32, u8, u32);

static BATCHES: [BatchRow; 8] = [
    (b"A5", 0, 0, 1),
    (b"A0R0D0A0", 0, 0, 5),
    (b"A1A1", 1, 1, 5),
    (b"D5R5", 1, 2, 5),
    (b"A5D6", 0, 1, 5),
    (b"P1P2D3", 2, 2, 5),
    (b"D5A5D5", 0, 0, 8),
    (b"P9D9", 0, 0, 10),
];

// Takes the batch of a row in, unless it is refused, and answers whether its fault and the edits are the row's.
fn takes_all(
    alloc: Global,
    journal: &mut Journal,
    tile: &Arc<Tile>,
    (text, at, fault, count): &BatchRow,
) -> Result<bool, AllocError> {
    let edits = batch(alloc, text, tile)?;
    let found = first_fault_of(journal, &edits);
    if let Some(next) = with_all(journal, edits) {
        *journal = next;
    }
    Ok(found == (*at, *fault) && journal.len() == *count)
}

// Whether the journal has ends before its first edit and after each batch that was accepted, and no others.
fn has_ends(journal: &Journal) -> bool {
    for k in 0..20 {
        if journal.is_end(k) != matches!(k, 0 | 1 | 5 | 8 | 10) {
            return false;
        }
    }
    true
}

fn check_batches(
    rt: &impl Abort,
    alloc: Global,
    journal: &mut Journal,
    tile: &Arc<Tile>,
) -> Result<(), Fail> {
    for row in &BATCHES {
        assert!(rt; takes_all(alloc, journal, tile, row)?, "{row:?}");
    }
    assert!(rt; has_ends(journal));
    Ok(())
}

#[test]
fn batches_are_judged_as_they_go(rt: HostRuntime) -> Result<(), Fail> {
    let tile = small_tile(rt.alloc()).ok_or("no tile")?;
    let mut journal = empty(rt.alloc()).ok_or("no journal")?;
    check_batches(&rt, rt.alloc(), &mut journal, &tile)
}

// The journal of one batch.
fn of_batch(alloc: Global, text: &[u8]) -> Option<Journal> {
    let tile = small_tile(alloc)?;
    let empty = empty(alloc)?;
    match batch(alloc, text, &tile) {
        Ok(edits) => with_all(&empty, edits),
        Err(_) => None,
    }
}

// The leaf of edit i and whether it has a tile.
fn seen(journal: &Journal, i: u32) -> Option<(u64, bool)> {
    let edit = journal.edit(i)?;
    Some((edit.leaf(), edit.tile().is_some()))
}

// Whether the journal has the edits of `A4D4`, and no opening leaf.
fn has_two_edits(journal: &Journal) -> bool {
    seen(journal, 0) == Some((4, true))
        && seen(journal, 1) == Some((4, false))
        && seen(journal, 2).is_none()
        && journal.opening().len() == 0
}

// Whether a journal and its share have the edits.
fn both_have_two_edits(journal: &Journal) -> Result<bool, AllocError> {
    let other = journal.share()?;
    crosses_threads(&other);
    Ok(has_two_edits(journal) && has_two_edits(&other))
}

#[test]
fn a_shared_journal_answers_the_same(rt: HostRuntime) -> Result<(), Fail> {
    let journal = of_batch(rt.alloc(), b"A4D4").ok_or("no journal")?;
    assert!(rt; both_have_two_edits(&journal)?);
    Ok(())
}

// Adds the journal with one edit more than the last.
fn add_next(journals: &mut Vec<Journal>, tile: &Arc<Tile>) -> Option<()> {
    let edit = edit(b'P', 0, tile).ok()?;
    let next = with(journals.last()?, edit)?;
    journals.push(next).ok()
}

// The fault of an edit of leaf 0 by its letter.
fn fault_at_0(journal: &Journal, letter: u8, tile: &Arc<Tile>) -> Result<u8, AllocError> {
    let edit = edit(letter, 0, tile)?;
    Ok(fault_of(journal, &edit))
}

// Whether the journal has the greatest number of edits.
fn is_longest(journal: &Journal, tile: &Arc<Tile>) -> Result<bool, AllocError> {
    let is_long = journal.len() == 65_536 && journal.charge() == 65_536 * 1024;
    let has_ends = journal.is_end(65_535) && !journal.is_end(65_537);
    let is_refused = fault_at_0(journal, b'P', tile)? == 3 && fault_at_0(journal, b'A', tile)? == 1;
    Ok(is_long && has_ends && is_refused)
}

// Adds a journal with each number of edits up to the greatest.
fn check_lengths(
    rt: &impl Abort,
    journals: &mut Vec<Journal>,
    tile: &Arc<Tile>,
) -> Result<(), Fail> {
    for _ in 0..65_536 {
        add_next(journals, tile).ok_or("refused")?;
    }
    assert!(rt; is_longest(journals.last().ok_or("no journal")?, tile)?);
    Ok(())
}

// A list keeps every journal on the way to the greatest number of edits.
#[test]
fn a_long_journal_shares_its_edits(rt: HostRuntime) -> Result<(), Fail> {
    let tile = small_tile(rt.alloc()).ok_or("no tile")?;
    let mut journals = Vec::new(rt.alloc());
    journals.push(empty(rt.alloc()).ok_or("no journal")?)?;
    check_lengths(&rt, &mut journals, &tile)
}

// Leaves 0 to `end - 1` that are one shared tile.
fn leaves(
    alloc: Global,
    shape: &Shape,
    end: u64,
    tile: &Arc<Tile>,
) -> Result<Store<Tile>, AllocError>
    requires cells { end ≤ cell_count shape.now.top }
    requires tile { FitsTile shape.now (arc_value tile.now) }
    ensures { IfOk result (FitsLeaves shape.now) }
{
    let mut leaves = Store::new(alloc);
    for leaf in 0..end {
        leaves.put(leaf, tile.clone()?)?;
    }
    Ok(leaves)
}

// The journal of that many opening leaves of 512 by 512 pixels of 64 bits, all one tile; or how many are too many.
fn opened(alloc: Global, count: u64) -> Option<Result<Journal, StartRefusal>> {
    let shape = shape(64, 9)?;
    if count > cells(shape.top) {
        return None;
    }
    let tile = tile(alloc, &shape, 0).ok()?;
    let leaves = leaves(alloc, &shape, count, &tile).ok()?;
    Some(Journal::start(alloc, shape, leaves))
}

// Whether the journal of so many such leaves is refused because they are too many.
fn are_too_many(alloc: Global, count: u64) -> bool {
    matches!(
        opened(alloc, count),
        Some(Err(StartRefusal::TooMany { leaves })) if leaves == count
    )
}

// Whether the journal of 256 such leaves has no charge left.
fn is_full(alloc: Global, journal: &Journal) -> Result<bool, AllocError> {
    let tile = tile(alloc, &journal.shape(), 0)?;
    Ok(journal.charge() == 536_870_912 && fault_at_0(journal, b'P', &tile)? == 4)
}

#[test]
fn the_charge_is_limited(rt: HostRuntime) -> Result<(), Fail> {
    assert!(rt; are_too_many(rt.alloc(), 257));
    let journal = opened(rt.alloc(), 256).ok_or("no leaves")??;
    assert!(rt; is_full(rt.alloc(), &journal)?);
    Ok(())
}
