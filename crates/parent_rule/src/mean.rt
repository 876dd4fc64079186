//! Four numbers combined, and two rows, at every depth: the plain program.
ghost use Rattle.std.specs.Prelude.{◌≡◌, ◌*◌, ◌<◌, ◌≤◌, length, EachIndex, slice_get, All, take, pos, neg_ℤ, ◌^◌, ◌≤ℤ◌};
ghost use Rattle.parent_rule.specs.Depth.{IsNumber};
ghost use Rattle.parent_rule.specs.Combined.{combined, not_blank, mean_of_sum, rounded_mean, lower_median, square_at};

use crate::combine::Combine;
use crate::depth::Depth;

/// The number of the pixel above four pixels, by the depth's way to combine. Sums are taken in 128 bits, so that
/// no depth is an exception.
pub fn mean4(v: [i64; 4], depth: Depth) -> i64
    requires { All (IsNumber depth.bitpix) v }
    ensures combined { result ≡ combined depth.combine depth.blank v }
    ensures number { IsNumber depth.bitpix result }
{
    let blank = depth.blank();
    let (kept, count) = without_blanks(v, blank);
    if count == 0 {
        return blank;
    }
    let kept = &kept[..count];
    match depth.combine() {
        Combine::Mean => {
            let mean = mean_of(kept);
            if mean == blank { blank + 1 } else { mean }
        }
        Combine::Median => median_of(kept),
    }
}

/// The numbers that aren't blank, at the front, and how many they are.
fn without_blanks(v: [i64; 4], blank: i64) -> ([i64; 4], usize)
    ensures count { result.1 ≤ 4 }
    ensures kept { take result.1 result.0 ≡ not_blank blank v }
{
    let mut kept = [0; 4];
    let mut count = 0;
    for x in v {
        if x != blank {
            kept[count] = x;
            count += 1;
        }
    }
    (kept, count)
}

// The mean of one to four numbers, rounded half up.
fn mean_of(kept: &[i64]) -> i64
    requires some { 0 < length kept.now }
    requires four { length kept.now ≤ 4 }
    ensures { result ≡ rounded_mean kept.now }
{
    let mut sum: i128 = 0;
    for x in kept {
        sum += i128::from(*x);
    }
    divided(sum, kept.len()) as i64
}

// The mean of that many numbers of that sum, rounded half up. Each divisor is a constant, since 128 bits are slow to
// divide and a power of two needs no division.
fn divided(sum: i128, count: usize) -> i128
    requires some { 0 < count }
    requires four { count ≤ 4 }
    requires low { neg_ℤ (pos (2 ^ 65)) ≤ℤ sum }
    requires high { sum ≤ℤ pos (2 ^ 65) }
    ensures { result ≡ mean_of_sum sum count }
{
    match count {
        1 => sum,
        2 => (2 * sum + 2).div_euclid(4),
        3 => (2 * sum + 3).div_euclid(6),
        _ => (2 * sum + 4).div_euclid(8),
    }
}

// The lower median of one to four numbers: the one in the middle, or the lower of the two there.
fn median_of(kept: &[i64]) -> i64
    requires some { 0 < length kept.now }
    requires four { length kept.now ≤ 4 }
    ensures { (blank : _) → result ≡ lower_median blank kept.now }
{
    match *kept {
        [a] => a,
        [a, b] => a.min(b),
        [a, b, c] => a.clamp(b.min(c), b.max(c)),
        [a, b, c, d] => {
            let (low, high) = (c.min(d), c.max(d));
            a.clamp(b.min(low), b.clamp(low, high))
        }
        _ => unreachable!(),
    }
}

/// Place `i` of `out` becomes the number above places `2i` and `2i + 1` of two rows.
pub fn mean_rows(top: &[i64], bottom: &[i64], depth: Depth, out: &mut [i64])
    requires top_length { length top.now ≡ 2 * length out.old }
    requires bottom_length { length bottom.now ≡ 2 * length out.old }
    requires top { All (IsNumber depth.bitpix) top.now }
    requires bottom { All (IsNumber depth.bitpix) bottom.now }
    ensures combined { EachIndex out.new (λ i. slice_get out.new i ≡ Some (combined depth.combine depth.blank (square_at top.now bottom.now i))) }
    ensures numbers { All (IsNumber depth.bitpix) out.new }
{
    for (i, place) in out.iter_mut().enumerate() {
        let square = [top[2 * i], bottom[2 * i], top[2 * i + 1], bottom[2 * i + 1]];
        *place = mean4(square, depth);
    }
}
