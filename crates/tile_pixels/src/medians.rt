//! The row of lower medians above two rows of stored numbers of one width, from their bytes to its bytes.
ghost use Rattle.std.specs.Prelude.{◌≡◌, ◌≤◌, ◌*◌, ◌/◌, length};
ghost use Rattle.parent_rule.specs.declared.combine.Combine.TheVariants.{Median};
ghost use Rattle.tile_pixels.specs.Stored.{stored_bytes};
ghost use Rattle.tile_pixels.specs.Lines.{row_above};

use crate::stored::Stored;
use parent_rule::median_of_four;

/// Stores the row of lower medians above two rows.
pub fn store_medians<N: Stored>(top: &[u8], bottom: &[u8], count: usize, blank: N, out: &mut [u8])
    requires count { count ≤ 256 }
    requires top { length top.now ≡ 2 * count * (N.bits / 8) }
    requires bottom { length bottom.now ≡ 2 * count * (N.bits / 8) }
    requires out { length out.old ≡ count * (N.bits / 8) }
    ensures { out.new ≡ stored_bytes N.bits (row_above Median N.bits (N.value blank) count top.now bottom.now) }
{
    for i in 0..count {
        let (a, c) = N::read_pair(top, i);
        let (b, d) = N::read_pair(bottom, i);
        median_of_four(a, b, c, d, blank).write(out, i);
    }
}
