//! The row of means above two rows of numbers of 8 bits.
ghost use Rattle.std.specs.Prelude.{◌≡◌, ◌≤◌, ◌*◌, length, pos};
ghost use Rattle.parent_rule.specs.declared.combine.Combine.TheVariants.{Mean};
ghost use Rattle.tile_pixels.specs.Stored.{stored_bytes};
ghost use Rattle.tile_pixels.specs.Lines.{row_above};
ghost use Rattle.byteorder.specs.Endian.{IsRead, little_number};

use crate::full_means::store_full_means;
use crate::means::holds;
use crate::stored::Stored;
use byteorder::{ByteOrder, LittleEndian};
use parent_rule::mean_of_four;

/// Stores the row of means above two rows.
pub fn store_byte_means(top: &[u8], bottom: &[u8], count: usize, blank: u8, out: &mut [u8])
    requires count { count ≤ 256 }
    requires top { length top.now ≡ 2 * count }
    requires bottom { length bottom.now ≡ 2 * count }
    requires out { length out.old ≡ count }
    ensures { out.new ≡ stored_bytes 8 (row_above Mean 8 (pos blank) count top.now bottom.now) }
{
    if holds(top, 2 * count, blank) || holds(bottom, 2 * count, blank) {
        let mut upper = [0; 256];
        let mut lower = [0; 256];
        let upper = &mut upper[..count];
        let lower = &mut lower[..count];
        LittleEndian::read_u16_into(top, upper);
        LittleEndian::read_u16_into(bottom, lower);
        store_means_of_pairs(top, bottom, upper, lower, blank, out);
    } else {
        store_full_means(top, bottom, count, blank, out);
    }
}

// The same, where the numbers of each row stand in pairs of 16 bits: a loop takes these many at a time, and each second
// byte of a row one by one.
fn store_means_of_pairs(
    top: &[u8],
    bottom: &[u8],
    upper: &[u16],
    lower: &[u16],
    blank: u8,
    out: &mut [u8],
)
    requires top { length top.now ≡ 2 * length out.old }
    requires bottom { length bottom.now ≡ 2 * length out.old }
    requires upper { length upper.now ≡ length out.old }
    requires lower { length lower.now ≡ length out.old }
    requires upper_pairs { IsRead little_number 2 top.now upper.now }
    requires lower_pairs { IsRead little_number 2 bottom.now lower.now }
    ensures { out.new ≡ stored_bytes 8 (row_above Mean 8 (pos blank) (length out.old) top.now bottom.now) }
{
    for i in 0..out.len() {
        let mean = mean_of_four(
            (upper[i] % 256) as u8,
            (lower[i] % 256) as u8,
            (upper[i] / 256) as u8,
            (lower[i] / 256) as u8,
            blank,
        );
        mean.write(out, i);
    }
}
