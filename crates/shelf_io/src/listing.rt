//! Which leaves a shelf has files of.
ghost use Rattle.std.specs.Prelude.{◌≡◌, ℕ, ◌<◌, ◌≤◌, ◌↔◌, map, string_bytes, All, IfOk, IfErr, IfSome, Some, None};
ghost use Rattle.std.specs.List.Sorted.{IsStrictlyIncreasing};
ghost use Rattle.survey_link.specs.Link.{CountsFault};
ghost use Rattle.shelf_io.specs.Refusals.{at_shelf};
ghost use Rattle.healpix_nested.specs.Cells.{cell_count};
ghost use Rattle.shelf_io.specs.Opening.{leaf_path, leaves_on, IsRefusedBy};
ghost use Rattle.shelf_io.specs.Listed.{leaf_of, leaves_among};

use crate::near_leaf::say_no_leaves;
use crate::refusal::LoadRefusal;
use log::Log;
use std::alloc::{AllocError, Global};
use survey_link::Shelf;
use tile_path::Path;

/// The numbers of the leaves of order `top` whose paths are among those, ascending, each once.
pub(crate) fn listed_leaves(
    alloc: Global,
    paths: &[String],
    top: u8,
) -> Result<Vec<u64>, AllocError>
    requires { top ≤ 11 }
    ensures { IfOk result (λ leaves. leaves.items ≡ leaves_among (map string_bytes paths.now) top) }
{
    let mut leaves = Vec::new(alloc);
    for path in paths {
        if let Some(leaf) = leaf_at(path.as_bytes(), top) {
            leaves.push(leaf)?;
        }
    }
    leaves.sort_unstable();
    leaves.dedup();
    Ok(leaves)
}

// The number of the leaf of order `top` whose path is spelled so.
fn leaf_at(text: &[u8], top: u8) -> Option<u64>
    requires { top ≤ 11 }
    ensures cell { IfSome result (λ leaf. leaf < cell_count top) }
    ensures leaf { (leaf : ℕ) → leaf < cell_count top → (result ≡ Some leaf) ↔ (leaf_path top leaf ≡ text.now) }
{
    match Path::read(text) {
        Some(path) => leaf_of(path, top),
        None => None,
    }
}

// The number of the leaf of order `top` that the path is of.
fn leaf_of(path: Path, top: u8) -> Option<u64>
    ensures { result ≡ leaf_of top path }
{
    match path {
        Path::Tile(cell) => {
            if cell.order() == top {
                Some(cell.npix())
            } else {
                None
            }
        }
        _ => None,
    }
}

/// The numbers of the leaves of order `top` that the shelf has files of, ascending. What looks like a leaf and is none is
/// logged.
///
/// # Errors
///
/// `ShelfFault` if and only if the shelf's count of faults rose; `OutOfMemory`.
pub(crate) fn shelf_leaves<R: Log, H: Shelf>(
    rt: &R,
    alloc: Global,
    shelf: &mut H,
    top: u8,
) -> Result<Vec<u64>, LoadRefusal>
    requires { top ≤ 11 }
    ensures listed { IfOk result (λ leaves. IfSome (H.files shelf.old) (λ files. leaves.items ≡ leaves_on files top)) }
    ensures ascending { IfOk result (λ leaves. IsStrictlyIncreasing leaves.items) }
    ensures cells { IfOk result (λ leaves. All (λ leaf. leaf < cell_count top) leaves.items) }
    ensures refused { IfErr result (IsRefusedBy None) }
    ensures kept { H.files shelf.new ≡ H.files shelf.old }
    ensures faults { CountsFault (at_shelf result) (H.faults shelf.old) (H.faults shelf.new) }
{
    let paths = shelf.list(alloc)?;
    say_no_leaves(rt, &paths, top);
    Ok(listed_leaves(alloc, &paths, top)?)
}
