//! The row of means above two rows in which no number is blank.
ghost use Rattle.std.specs.Prelude.{◌≡◌, ◌≢◌, ◌<◌, ◌≤◌, ◌*◌, ◌/◌, ℕ, length};
ghost use Rattle.parent_rule.specs.declared.combine.Combine.TheVariants.{Mean};
ghost use Rattle.tile_pixels.specs.Stored.{stored_at, stored_bytes};
ghost use Rattle.tile_pixels.specs.Lines.{row_above};

use crate::stored::Stored;
use parent_rule::mean_of_full;

/// Stores the row of means above two rows in which no number is blank.
pub fn store_full_means<N: Stored>(
    top: &[u8],
    bottom: &[u8],
    count: usize,
    blank: N,
    out: &mut [u8],
)
    requires count { count ≤ 256 }
    requires top { length top.now ≡ 2 * count * (N.bits / 8) }
    requires bottom { length bottom.now ≡ 2 * count * (N.bits / 8) }
    requires out { length out.old ≡ count * (N.bits / 8) }
    requires no_blank_above { (place : ℕ) → place < 2 * count → stored_at N.bits top.now place ≢ N.value blank }
    requires no_blank_below { (place : ℕ) → place < 2 * count → stored_at N.bits bottom.now place ≢ N.value blank }
    ensures { out.new ≡ stored_bytes N.bits (row_above Mean N.bits (N.value blank) count top.now bottom.now) }
{
    for i in 0..count {
        let (a, c) = N::read_pair(top, i);
        let (b, d) = N::read_pair(bottom, i);
        mean_of_full(a, b, c, d, blank).write(out, i);
    }
}
