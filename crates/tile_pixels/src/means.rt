//! The row of means above two rows of stored numbers of one width, from their bytes to its bytes.
ghost use Rattle.std.specs.Prelude.{◌≡◌, ◌≢◌, ◌↔◌, ◌<◌, ◌≤◌, ◌*◌, ◌/◌, ℕ, length, false, IsTrue};
ghost use Rattle.parent_rule.specs.declared.combine.Combine.TheVariants.{Mean};
ghost use Rattle.tile_pixels.specs.Stored.{stored_at, stored_bytes};
ghost use Rattle.tile_pixels.specs.Lines.{row_above};

use crate::full_means::store_full_means;
use crate::stored::Stored;
use parent_rule::mean_of_four;

/// Stores the row of means above two rows. Rows without a blank are common, and their means take half the time.
pub fn store_means<N: Stored>(top: &[u8], bottom: &[u8], count: usize, blank: N, out: &mut [u8])
    requires count { count ≤ 256 }
    requires top { length top.now ≡ 2 * count * (N.bits / 8) }
    requires bottom { length bottom.now ≡ 2 * count * (N.bits / 8) }
    requires out { length out.old ≡ count * (N.bits / 8) }
    ensures { out.new ≡ stored_bytes N.bits (row_above Mean N.bits (N.value blank) count top.now bottom.now) }
{
    if holds(top, 2 * count, blank) || holds(bottom, 2 * count, blank) {
        store_some_means(top, bottom, count, blank, out);
    } else {
        store_full_means(top, bottom, count, blank, out);
    }
}

/// Whether the number stands in a row. It looks at each place, so that many are looked at at a time.
pub fn holds<N: Stored>(row: &[u8], count: usize, number: N) -> bool
    requires { length row.now ≡ count * (N.bits / 8) }
    ensures { result ≡ false → (place : ℕ) → place < count → stored_at N.bits row.now place ≢ N.value number }
{
    let mut found = false;
    for place in 0..count {
        found |= same(N::read(row, place), number);
    }
    found
}

// Whether two are the same number.
#[inline(always)]
fn same<N: Stored>(a: N, b: N) -> bool
    ensures { IsTrue result ↔ (N.value a ≡ N.value b) }
{
    a == b
}

// Any rows.
fn store_some_means<N: Stored>(top: &[u8], bottom: &[u8], count: usize, blank: N, out: &mut [u8])
    requires count { count ≤ 256 }
    requires top { length top.now ≡ 2 * count * (N.bits / 8) }
    requires bottom { length bottom.now ≡ 2 * count * (N.bits / 8) }
    requires out { length out.old ≡ count * (N.bits / 8) }
    ensures { out.new ≡ stored_bytes N.bits (row_above Mean N.bits (N.value blank) count top.now bottom.now) }
{
    for i in 0..count {
        let (a, c) = N::read_pair(top, i);
        let (b, d) = N::read_pair(bottom, i);
        mean_of_four(a, b, c, d, blank).write(out, i);
    }
}
