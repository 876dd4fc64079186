//! The coverage of a survey.
ghost use Rattle.std.specs.Prelude.{◌≡◌, ◌≤◌, ◌<◌, ◌∷◌, ℕ, List, All, IfOk, filter};
ghost use Rattle.std.specs.Arc.{arc_value};
ghost use Rattle.std.specs.Map.{keys_of};
ghost use Rattle.healpix_nested.specs.Cells.{cell_count};
ghost use Rattle.coverage_moc.specs.Cover.{cover};
ghost use Rattle.coverage_moc.specs.CoverFile.{moc_file};
ghost use Rattle.generation.specs.Kept.{SameBut};
ghost use Rattle.generation.specs.Presence.{all_as_in, as_in, comes_or_goes};

use coverage_moc::Cover;
use coverage_moc::laws::{leaves_come_back, leaves_decide};
use leaf_store::Store;
use std::alloc::{AllocError, Global};
use std::marker::Model;
use std::sync::Arc;
use tile_pixels::Tile;

// Where more leaves come or go at once, the cover is made of all leaves.
const MOST_STEPS: usize = 64;

// How many rows are copied in the time that a cover of all leaves takes for one of them.
const ROWS_A_LEAF: usize = 4;

/// The cover of a survey's leaves, and its file, which contracts leave out: the cover says what it is.
#[derive(Drop)]
pub(crate) struct Coverage {
    cover: Cover,
    file: Vec<u8>,
}

impl Model for Coverage {
    ghost use Rattle.std.specs.Prelude.{◌≡◌};
    ghost use Rattle.coverage_moc.specs.Cover.{MocCover};
    ghost use Rattle.coverage_moc.specs.CoverFile.{moc_file};

    ghost Value = { MocCover };

    ghost view = { λ c. c.cover };

    ghost invariant = { λ c. c.file.items ≡ moc_file c.cover.top c.cover.rows };
}

impl Coverage {
    /// The coverage of these leaves, cells of order `top`.
    pub(crate) fn of(alloc: Global, top: u8, leaves: &Store<Tile>) -> Result<Coverage, AllocError>
        requires top { top ≤ 11 }
        requires leaves { All (λ leaf. leaf < cell_count top) (keys_of leaves.now) }
        ensures { IfOk result (λ made. made ≡ record { top = top; rows = cover top (keys_of leaves.now) }) }
    {
        let cover = Cover::of(alloc, top, leaves)?;
        Coverage::of_cover(alloc, top, cover)
    }

    // The coverage of which this is the cover.
    fn of_cover(alloc: Global, top: u8, cover: Cover) -> Result<Coverage, AllocError>
        requires { top ≡ cover.top }
        ensures { IfOk result (λ made. made ≡ cover) }
    {
        let file = cover.encode(alloc, top)?;
        Ok(Coverage { cover, file })
    }

    /// The coverage file.
    pub(crate) fn file(&self) -> &[u8]
        ensures { result.now ≡ moc_file self.now.top self.now.rows }
    {
        &self.file
    }
}

/// The coverage of these leaves, made from that of other leaves, which differ at the touched ones alone. It is the same one
/// where none of them came or went.
pub(crate) fn coverage_after(
    alloc: Global,
    top: u8,
    coverage: &Arc<Coverage>,
    old: &Store<Tile>,
    leaves: &Store<Tile>,
    touched: &[u64],
) -> Result<Arc<Coverage>, AllocError>
    requires top { top ≤ 11 }
    requires leaves { All (λ leaf. leaf < cell_count top) (keys_of leaves.now) }
    requires touched { All (λ leaf. leaf < cell_count top) touched.now }
    requires old { arc_value coverage.now ≡ record { top = top; rows = cover top (keys_of old.now) } }
    requires same { SameBut touched.now old.now leaves.now }
    ensures { IfOk result (λ made. arc_value made ≡ record { top = top; rows = cover top (keys_of leaves.now) }) }
{
    leaves_decide();
    let moved = moved(alloc, old, leaves, touched)?;
    match moved.split_first() {
        None => Ok(coverage.clone()?),
        Some((first, rest))
            if is_stepwise_faster(moved.len(), coverage.cover.len(), leaves.len()) => {
            let cover = stepwise(alloc, top, &coverage.cover, leaves, *first, rest)?;
            let coverage = Coverage::of_cover(alloc, top, cover)?;
            Ok(Arc::new(alloc, coverage)?)
        }
        Some(_) => {
            let coverage = Coverage::of(alloc, top, leaves)?;
            Ok(Arc::new(alloc, coverage)?)
        }
    }
}

// Whether so many steps, each of which copies the rows, take less time than a cover of all leaves.
fn is_stepwise_faster(steps: usize, rows: usize, leaves: usize) -> bool {
    steps <= MOST_STEPS && steps.saturating_mul(rows) <= leaves.saturating_mul(ROWS_A_LEAF)
}

// The touched leaves that came or went.
fn moved(
    alloc: Global,
    old: &Store<Tile>,
    leaves: &Store<Tile>,
    touched: &[u64],
) -> Result<Vec<u64>, AllocError>
    ensures { IfOk result (λ moved. moved.items ≡ filter (comes_or_goes old.now leaves.now) touched.now) }
{
    touched
        .iter()
        .copied()
        .filter(|leaf| comes_or_goes(old, leaves, *leaf))
        .collect(alloc)
}

// Whether one of the stores alone has the leaf.
fn comes_or_goes(old: &Store<Tile>, leaves: &Store<Tile>, leaf: u64) -> bool
    ensures { result ≡ comes_or_goes old.now leaves.now leaf }
{
    old.get(leaf).is_some() != leaves.get(leaf).is_some()
}

// The cover after some leaves came or went, one after another.
fn stepwise(
    alloc: Global,
    top: u8,
    before: &Cover,
    leaves: &Store<Tile>,
    first: u64,
    rest: &[u64],
) -> Result<Cover, AllocError>
    requires top { top ≡ before.now.top }
    requires greatest { top ≤ 11 }
    requires cells { All (λ leaf. leaf < cell_count top) (first ∷ rest.now) }
    ensures top { IfOk result (λ made. made.top ≡ top) }
    ensures rows { (there : List ℕ) → before.now.rows ≡ cover top there
        → IfOk result (λ made. made.rows ≡ cover top (all_as_in leaves.now there (first ∷ rest.now))) }
{
    let mut made = step(alloc, top, before, leaves, first)?;
    for leaf in rest {
        made = step(alloc, top, &made, leaves, *leaf)?;
    }
    Ok(made)
}

// The cover with this leaf where the store has it, and else without it.
fn step(
    alloc: Global,
    top: u8,
    before: &Cover,
    leaves: &Store<Tile>,
    leaf: u64,
) -> Result<Cover, AllocError>
    requires top { top ≡ before.now.top }
    requires cell { leaf < cell_count top }
    ensures top { IfOk result (λ made. made.top ≡ top) }
    ensures rows { (there : List ℕ) → before.now.rows ≡ cover top there
        → IfOk result (λ made. made.rows ≡ cover top (as_in leaves.now there leaf)) }
{
    leaves_decide();
    leaves_come_back();
    match leaves.get(leaf) {
        Some(_) => before.add(alloc, top, leaf),
        None => before.remove(alloc, top, leaf),
    }
}
