//! The row above two rows of numbers of 64 bits, combined at the width of the depth.
ghost use Rattle.std.specs.Prelude.{◌≡◌, ◌*◌, length, EachIndex, slice_get, All};
ghost use Rattle.parent_rule.specs.Depth.{IsNumber};
ghost use Rattle.parent_rule.specs.Combined.{combined, square_at};
ghost use Rattle.parent_rule.specs.declared.combine.Combine.TheVariants.{Mean, Median};

use crate::stored::Stored;
use parent_rule::{Combine, Depth, PixelNumber, mean_of_four, mean_rows, median_of_four};

/// What `mean_rows` makes of two rows, for `Block::halve`.
pub fn combine_rows(top: &[i64], bottom: &[i64], depth: Depth, out: &mut [i64])
    requires top_length { length top.now ≡ 2 * length out.old }
    requires bottom_length { length bottom.now ≡ 2 * length out.old }
    requires top { All (IsNumber depth.bitpix) top.now }
    requires bottom { All (IsNumber depth.bitpix) bottom.now }
    ensures combined { EachIndex out.new (λ i. slice_get out.new i ≡ Some (combined depth.combine depth.blank (square_at top.now bottom.now i))) }
    ensures numbers { All (IsNumber depth.bitpix) out.new }
{
    let blank = depth.blank();
    match depth.combine() {
        Combine::Mean => match depth.bitpix() {
            8 => means(top, bottom, <u8 as Stored>::of(blank), out),
            16 => means(top, bottom, <i16 as Stored>::of(blank), out),
            32 => means(top, bottom, <i32 as Stored>::of(blank), out),
            _ => mean_rows(top, bottom, depth, out),
        },
        Combine::Median => match depth.bitpix() {
            8 => medians(top, bottom, <u8 as Stored>::of(blank), out),
            16 => medians(top, bottom, <i16 as Stored>::of(blank), out),
            32 => medians(top, bottom, <i32 as Stored>::of(blank), out),
            _ => mean_rows(top, bottom, depth, out),
        },
    }
}

// The means of each four numbers of a width.
fn means<N: Stored>(top: &[i64], bottom: &[i64], blank: N, out: &mut [i64])
    requires top_length { length top.now ≡ 2 * length out.old }
    requires bottom_length { length bottom.now ≡ 2 * length out.old }
    requires top { All (IsNumber N.bits) top.now }
    requires bottom { All (IsNumber N.bits) bottom.now }
    requires blank { IsNumber N.bits (N.value blank) }
    ensures combined { EachIndex out.new (λ i. slice_get out.new i ≡ Some (combined Mean (N.value blank) (square_at top.now bottom.now i))) }
    ensures numbers { All (IsNumber N.bits) out.new }
{
    for (i, place) in out.iter_mut().enumerate() {
        let mean = mean_of_four(
            N::of(top[2 * i]),
            N::of(bottom[2 * i]),
            N::of(top[2 * i + 1]),
            N::of(bottom[2 * i + 1]),
            blank,
        );
        *place = mean.wide();
    }
}

// The lower medians of each four numbers of a width.
fn medians<N: Stored>(top: &[i64], bottom: &[i64], blank: N, out: &mut [i64])
    requires top_length { length top.now ≡ 2 * length out.old }
    requires bottom_length { length bottom.now ≡ 2 * length out.old }
    requires top { All (IsNumber N.bits) top.now }
    requires bottom { All (IsNumber N.bits) bottom.now }
    requires blank { IsNumber N.bits (N.value blank) }
    ensures combined { EachIndex out.new (λ i. slice_get out.new i ≡ Some (combined Median (N.value blank) (square_at top.now bottom.now i))) }
    ensures numbers { All (IsNumber N.bits) out.new }
{
    for (i, place) in out.iter_mut().enumerate() {
        let median = median_of_four(
            N::of(top[2 * i]),
            N::of(bottom[2 * i]),
            N::of(top[2 * i + 1]),
            N::of(bottom[2 * i + 1]),
            blank,
        );
        *place = median.wide();
    }
}
