//! What the tiles of one order are made of.
ghost use Rattle.std.specs.Prelude.{◌≡◌, ℕ, ◌+◌, ◌*◌, ◌<◌, ◌≤◌, [], option_map};
ghost use Rattle.std.specs.List.Sorted.{IsStrictlyIncreasing};
ghost use Rattle.leaf_store.specs.Store.{value_at};
ghost use Rattle.pyramid_model.specs.Shape.{PyramidShape};
ghost use Rattle.tile_pixels.specs.Quadrants.{Fits, IsOver};
ghost use Rattle.rebuild_worker.specs.Level.{HaveShape, numbers_of};
ghost use Rattle.rebuild_worker.specs.Changed.{is_touched, AreSources};

use leaf_store::Store;
use tile_pixels::{Quadrant, Tile};

/// The tiles of the next order, and what is left of the order as it stood before some leaves were touched.
#[derive(Clone, Copy)]
pub struct Sources<'a> {
    /// The tiles of the next order as they are now.
    pub children: &'a Store<Tile>,
    /// The tiles of the order as they were; none where the order wasn't there.
    pub before: &'a Store<Tile>,
    /// The touched leaves, ascending: a child under which none of them lies is as it was.
    pub touched: &'a [u64],
    /// How many orders the leaves lie below the children.
    pub height: u8,
}

impl<'a> Sources<'a> {
    // Children alone; the other store is empty.
    pub(crate) fn anew(children: &'a Store<Tile>, none: &'a Store<Tile>) -> Sources<'a>
        requires { none.now ≡ [] }
        ensures children { result.children.now ≡ children.now }
        ensures sources { (shape : PyramidShape) → HaveShape shape children.now → AreSources shape result }
    {
        Sources {
            children,
            before: none,
            touched: &[],
            height: 0,
        }
    }

    // The quadrant of a child, number `i` of a cell whose tile was `before`, over the child as it is `now`: that of the tile
    // of before where no touched leaf lies under the child.
    pub(crate) fn quadrant(
        self,
        before: Option<&'a Tile>,
        now: Option<&'a Tile>,
        child: u64,
        i: usize,
    ) -> Quadrant<'a>
        requires i { i < 4 }
        requires ascending { IsStrictlyIncreasing self.touched.now }
        requires height { self.height ≤ 11 }
        ensures { (shape : PyramidShape) (npix : ℕ) → AreSources shape self.entry → child ≡ 4 * npix + i
            → option_map (λ tile. tile.now) before.entry ≡ value_at npix self.entry.before.now
            → option_map (λ tile. tile.now) now.entry ≡ value_at child self.entry.children.now
            → Fits shape.depth shape.n result
            × IsOver shape.depth shape.n (numbers_of (value_at child self.entry.children.now)) result }
    {
        match before {
            Some(tile) => {
                if is_touched(self.touched, self.height, child) {
                    return Quadrant::Merged(now);
                }
                return Quadrant::Kept(tile, i);
            }
            None => return Quadrant::Merged(now),
        }
    }
}

// Whether a touched leaf lies under a cell so many orders above the leaves.
fn is_touched(touched: &[u64], height: u8, cell: u64) -> bool
    requires ascending { IsStrictlyIncreasing touched.now }
    requires height { height ≤ 11 }
    ensures { result ≡ is_touched touched.now height cell }
{
    let shift = 2 * height;
    let first = touched.partition_point(|leaf| *leaf >> shift < cell);
    match touched.get(first) {
        Some(leaf) => *leaf >> shift == cell,
        None => false,
    }
}
