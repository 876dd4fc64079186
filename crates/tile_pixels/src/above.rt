//! The row above two rows of stored numbers, from their bytes to its bytes.
ghost use Rattle.std.specs.Prelude.{◌≡◌, ◌≤◌, ◌*◌, ◌/◌, length};
ghost use Rattle.tile_pixels.specs.Stored.{stored_bytes};
ghost use Rattle.tile_pixels.specs.Lines.{row_above};

use crate::byte_means::store_byte_means;
use crate::means::store_means;
use crate::medians::store_medians;
use crate::row::{read_row, write_row};
use crate::stored::Stored;
use parent_rule::{Combine, Depth, mean_rows};

/// Stores the row of `count` numbers above two rows of twice as many, by the depth's way to combine. `numbers` is room
/// for the three rows, where they are combined as numbers of 64 bits.
pub fn store_row_above(
    depth: Depth,
    top: &[u8],
    bottom: &[u8],
    count: usize,
    numbers: &mut [i64],
    out: &mut [u8],
)
    requires count { count ≤ 256 }
    requires numbers { length numbers.old ≡ 5 * count }
    requires top { length top.now ≡ 2 * count * (depth.bitpix / 8) }
    requires bottom { length bottom.now ≡ 2 * count * (depth.bitpix / 8) }
    requires out { length out.old ≡ count * (depth.bitpix / 8) }
    ensures { out.new ≡ stored_bytes depth.bitpix (row_above depth.combine depth.bitpix depth.blank count top.now bottom.now) }
{
    let blank = depth.blank();
    match depth.combine() {
        Combine::Mean => match depth.bitpix() {
            8 => store_byte_means(top, bottom, count, <u8 as Stored>::of(blank), out),
            16 => store_means(top, bottom, count, <i16 as Stored>::of(blank), out),
            32 => store_means(top, bottom, count, <i32 as Stored>::of(blank), out),
            _ => store_plain(depth, top, bottom, count, numbers, out),
        },
        Combine::Median => match depth.bitpix() {
            8 => store_medians(top, bottom, count, <u8 as Stored>::of(blank), out),
            16 => store_medians(top, bottom, count, <i16 as Stored>::of(blank), out),
            32 => store_medians(top, bottom, count, <i32 as Stored>::of(blank), out),
            _ => store_plain(depth, top, bottom, count, numbers, out),
        },
    }
}

/// The same number by number, for the depths that have no loop of their own: 64 bits.
pub fn store_plain(
    depth: Depth,
    top: &[u8],
    bottom: &[u8],
    count: usize,
    numbers: &mut [i64],
    out: &mut [u8],
)
    requires count { count ≤ 256 }
    requires numbers { length numbers.old ≡ 5 * count }
    requires top { length top.now ≡ 2 * count * (depth.bitpix / 8) }
    requires bottom { length bottom.now ≡ 2 * count * (depth.bitpix / 8) }
    requires out { length out.old ≡ count * (depth.bitpix / 8) }
    ensures { out.new ≡ stored_bytes depth.bitpix (row_above depth.combine depth.bitpix depth.blank count top.now bottom.now) }
{
    let (above, below) = numbers.split_at_mut(count);
    let (upper, lower) = below.split_at_mut(2 * count);
    read_row(depth, top, upper);
    read_row(depth, bottom, lower);
    mean_rows(upper, lower, depth, above);
    write_row(depth, above, out);
}
