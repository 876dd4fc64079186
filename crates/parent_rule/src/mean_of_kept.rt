//! The mean of those of four numbers that are kept, with no look-up, early return or branch.
ghost use Rattle.std.specs.Prelude.{◌≡◌, ◌<◌, ◌≤◌, ◌-◌, ◌*◌, ◌^◌, pos, ◌+ℤ◌, ◌<ℤ◌, ◌≤ℤ◌, ◌*ℤ◌, ◌↔◌, IsTrue, if◌then◌else◌};
ghost use Rattle.std.specs.Int.{from_bool};
ghost use Rattle.parent_rule.specs.Combined.{rounded_mean};
ghost use Rattle.parent_rule.specs.Kept.{kept_of_four, count_kept, IsMean};

use crate::kept::Kept;
use crate::pixel_number::PixelNumber;

/// The mean of those that are kept, rounded half up, and whether there is none: then it is any number.
#[inline(always)]
pub(crate) fn mean_of_kept<N: PixelNumber>(a: N, b: N, c: N, d: N, kept: Kept) -> (N, bool)
    ensures none { IsTrue result.1 ↔ (count_kept kept.a kept.b kept.c kept.d ≡ 0) }
    ensures mean { 0 < count_kept kept.a kept.b kept.c kept.d → N.value result.0 ≡ rounded_mean (kept_of_four kept.a kept.b kept.c kept.d (N.value a) (N.value b) (N.value c) (N.value d)) }
{
    let sum = total::<N>(
        counted(a, kept.a),
        counted(b, kept.b),
        counted(c, kept.c),
        counted(d, kept.d),
    );
    let count = total::<N>(
        one_if::<N>(kept.a),
        one_if::<N>(kept.b),
        one_if::<N>(kept.c),
        one_if::<N>(kept.d),
    );
    let mean = N::lowered(mean_of_sum::<N>(sum, count));
    (mean, count == N::Sum::from(0))
}

// The number, raised; 0 where it isn't kept.
#[inline(always)]
fn counted<N: PixelNumber>(number: N, is_kept: bool) -> N::Sum
    ensures raised { N.Sum.value result ≡ (if is_kept then N.value number +ℤ pos N.raise else pos 0) }
    ensures room { N.Sum.value result ≤ℤ (pos (2 ^ N.bits - 1) *ℤ pos (from_bool is_kept)) }
{
    if is_kept {
        number.raised()
    } else {
        N::Sum::from(0)
    }
}

// 1 for a number that is kept.
#[inline(always)]
fn one_if<N: PixelNumber>(is_kept: bool) -> N::Sum
    ensures { N.Sum.value result ≡ pos (from_bool is_kept) }
{
    N::Sum::from(u8::from(is_kept))
}

// The sum of four.
#[inline(always)]
fn total<N: PixelNumber>(a: N::Sum, b: N::Sum, c: N::Sum, d: N::Sum) -> N::Sum
    requires a { N.Sum.value a ≤ℤ pos (2 ^ N.bits) }
    requires b { N.Sum.value b ≤ℤ pos (2 ^ N.bits) }
    requires c { N.Sum.value c ≤ℤ pos (2 ^ N.bits) }
    requires d { N.Sum.value d ≤ℤ pos (2 ^ N.bits) }
    ensures { N.Sum.value result ≡ N.Sum.value a +ℤ N.Sum.value b +ℤ N.Sum.value c +ℤ N.Sum.value d }
{
    a + b + c + d
}

// The mean of so many numbers of that sum, each raised.
#[inline(always)]
fn mean_of_sum<N: PixelNumber>(sum: N::Sum, count: N::Sum) -> N::Sum
    requires four { N.Sum.value count ≤ℤ pos 4 }
    requires room { N.Sum.value sum ≤ℤ (pos (2 ^ N.bits - 1) *ℤ N.Sum.value count) }
    ensures { IsMean (2 ^ N.bits) (N.Sum.value sum) (N.Sum.value count) (N.Sum.value result) }
{
    // Each divisor is a constant, so that no division is left.
    if count == N::Sum::from(4) {
        (sum + N::Sum::from(2)) / N::Sum::from(4)
    } else if count == N::Sum::from(3) {
        N::third(sum + N::Sum::from(1))
    } else if count == N::Sum::from(2) {
        (sum + N::Sum::from(1)) / N::Sum::from(2)
    } else {
        sum
    }
}
