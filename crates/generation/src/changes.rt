//! What some edits change: the leaves after them, and which leaves they are of.
ghost use Rattle.std.specs.Prelude.{◌≡◌, ℕ, ◌-◌, ◌/◌, ◌^◌, ◌<◌, ◌≤◌, All, Contains, length, OnOk, IfOk};
ghost use Rattle.std.specs.List.Sorted.{IsStrictlyIncreasing};
ghost use Rattle.healpix_nested.specs.Cells.{cell_count};
ghost use Rattle.edit_journal.specs.Edit.{edit_of, edit_tile};
ghost use Rattle.edit_journal.specs.Journal.{journal_edits};
ghost use Rattle.edit_journal.specs.Leaves.{leaves_after, leaves_of};
ghost use Rattle.generation.specs.Steps.{edits_between, touched};
ghost use Rattle.generation.specs.Changes.{AreTiles, AreLeavesOf, TakesEdit, IsTileOf};

use edit_journal::{Edit, Journal};
use leaf_store::Store;
use std::alloc::{AllocError, Global};
use tile_pixels::Tile;

/// The leaves after some edits, and the numbers of the leaves that the edits are of, ascending.
#[derive(Drop)]
pub(crate) struct Changes {
    pub(crate) leaves: Store<Tile>,
    pub(crate) touched: Vec<u64>,
}

impl Changes {
    /// What the edits from `first` to below `end` of a journal change of these leaves.
    pub(crate) fn of(
        alloc: Global,
        leaves: &Store<Tile>,
        journal: &Journal,
        first: u32,
        end: u32,
    ) -> Result<Changes, AllocError>
        requires forward { first ≤ end }
        requires known { end ≤ length (journal_edits journal.now) }
        ensures leaves { IfOk result (λ changes. changes.leaves ≡ leaves_of leaves.now (edits_between (journal_edits journal.now) first end)) }
        ensures tiles { AreTiles leaves.now → IfOk result (λ changes. AreTiles changes.leaves) }
        ensures ascending { IfOk result (λ changes. IsStrictlyIncreasing changes.touched.items) }
        ensures touched { IfOk result (λ changes. AreLeavesOf (touched (journal_edits journal.now) first end) changes.touched.items) }
    {
        let mut after = leaves.share()?;
        let mut touched = Vec::with_capacity(alloc, (end - first) as usize)?;
        for i in first..end {
            take_edit(journal, i, &mut after, &mut touched)?;
        }
        let touched = ascending(touched)?;
        Ok(Changes {
            leaves: after,
            touched,
        })
    }
}

// Does edit `i` of the journal to the leaves, and notes its leaf.
fn take_edit(
    journal: &Journal,
    i: u32,
    leaves: &mut Store<Tile>,
    touched: &mut Vec<u64>,
) -> Result<(), AllocError>
    requires { i < length (journal_edits journal.now) }
    ensures { OnOk result (TakesEdit (journal_edits journal.now) i leaves.old leaves.new touched.old.items touched.new.items) }
{
    if let Some(edit) = journal.edit(i) {
        apply(edit, leaves)?;
        touched.push(edit.leaf())?;
    }
    Ok(())
}

// Does the edit to the leaves.
fn apply(edit: &Edit, leaves: &mut Store<Tile>) -> Result<(), AllocError>
    ensures done { OnOk result (leaves.new ≡ leaves_after leaves.old (edit_of edit.now)) }
    ensures tile { OnOk result (IsTileOf (edit_tile (edit_of edit.now))) }
{
    match edit.tile() {
        Some(tile) => {
            // For the prover: what a tile is.
            let _n = tile.n();
            leaves.put(edit.leaf(), tile.clone()?)?
        }
        None => leaves.remove(edit.leaf())?,
    };
    Ok(())
}

// The numbers in order, each once.
fn ascending(numbers: Vec<u64>) -> Result<Vec<u64>, AllocError>
    ensures ascending { IfOk result (λ sorted. IsStrictlyIncreasing sorted.items) }
    ensures same { IfOk result (λ sorted. AreLeavesOf numbers.items sorted.items) }
{
    let mut sorted = numbers;
    sorted.sort()?;
    sorted.dedup();
    Ok(sorted)
}

/// The cells of order 3 over leaves, cells of order `top`.
pub(crate) fn cells_over(alloc: Global, top: u8, leaves: &[u64]) -> Result<Vec<u64>, AllocError>
    requires least { 3 ≤ top }
    requires greatest { top ≤ 11 }
    requires leaves { All (λ leaf. leaf < cell_count top) leaves.now }
    ensures cells { IfOk result (λ cells. All (λ cell. cell < 768) cells.items) }
    ensures over { IfOk result (λ cells. All (λ leaf. Contains cells.items (leaf / 4 ^ (top - 3))) leaves.now) }
{
    let mut cells = Vec::with_capacity(alloc, leaves.len())?;
    for leaf in leaves {
        cells.push(leaf >> (2 * (top - 3)))?;
    }
    cells.dedup();
    Ok(cells)
}
