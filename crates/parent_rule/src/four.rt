//! Four numbers of a width combined, for fast loops: with no look-up, early return or branch.
ghost use Rattle.std.specs.Prelude.{◌≡◌, ◌≢◌, [], ◌∷◌, pos, ◌+ℤ◌, not, if◌then◌else◌, slice_index_or};
ghost use Rattle.std.specs.Int.{int_min};
ghost use Rattle.std.specs.Ordering.{int_eq};
ghost use Rattle.parent_rule.specs.Depth.{IsNumber, greatest_number};
ghost use Rattle.parent_rule.specs.Combined.{ascending, combined};
ghost use Rattle.parent_rule.specs.declared.combine.Combine.TheVariants.{Mean, Median};

use crate::kept::Kept;
use crate::mean_of_kept::mean_of_kept;
use crate::pixel_number::PixelNumber;

/// The mean of four numbers, blank ones left out.
#[inline(always)]
pub fn mean_of_four<N: PixelNumber>(a: N, b: N, c: N, d: N, blank: N) -> N
    ensures { N.value result ≡ combined Mean (N.value blank) (N.value a ∷ N.value b ∷ N.value c ∷ N.value d ∷ []) }
{
    mean_of_some(a, b, c, d, kept_of(a, b, c, d, blank), blank)
}

/// The mean of four numbers of which none is blank.
#[inline(always)]
pub fn mean_of_full<N: PixelNumber>(a: N, b: N, c: N, d: N, blank: N) -> N
    requires a { N.value a ≢ N.value blank }
    requires b { N.value b ≢ N.value blank }
    requires c { N.value c ≢ N.value blank }
    requires d { N.value d ≢ N.value blank }
    ensures { N.value result ≡ combined Mean (N.value blank) (N.value a ∷ N.value b ∷ N.value c ∷ N.value d ∷ []) }
{
    let all = Kept {
        a: true,
        b: true,
        c: true,
        d: true,
    };
    mean_of_some(a, b, c, d, all, blank)
}

/// The lower median of four numbers, blank ones left out. A blank one counts as the greatest of its width, which places
/// it behind the others.
#[inline(always)]
pub fn median_of_four<N: PixelNumber>(a: N, b: N, c: N, d: N, blank: N) -> N
    ensures { N.value result ≡ combined Median (N.value blank) (N.value a ∷ N.value b ∷ N.value c ∷ N.value d ∷ []) }
{
    let kept = kept_of(a, b, c, d, blank);
    let greatest = N::greatest();
    let (first, second) = two_least(
        if_kept(a, kept.a, greatest),
        if_kept(b, kept.b, greatest),
        if_kept(c, kept.c, greatest),
        if_kept(d, kept.d, greatest),
    );
    let count = kept.count();
    if count == 0 {
        blank
    } else if count <= 2 {
        first
    } else {
        second
    }
}

// Which of four are kept: those that aren't the blank number.
#[inline(always)]
fn kept_of<N: PixelNumber>(a: N, b: N, c: N, d: N, blank: N) -> Kept
    ensures a { result.a ≡ not (int_eq (N.value a) (N.value blank)) }
    ensures b { result.b ≡ not (int_eq (N.value b) (N.value blank)) }
    ensures c { result.c ≡ not (int_eq (N.value c) (N.value blank)) }
    ensures d { result.d ≡ not (int_eq (N.value d) (N.value blank)) }
{
    Kept {
        a: a != blank,
        b: b != blank,
        c: c != blank,
        d: d != blank,
    }
}

// The mean of those that are kept.
#[inline(always)]
fn mean_of_some<N: PixelNumber>(a: N, b: N, c: N, d: N, kept: Kept, blank: N) -> N
    requires a { kept.a ≡ not (int_eq (N.value a) (N.value blank)) }
    requires b { kept.b ≡ not (int_eq (N.value b) (N.value blank)) }
    requires c { kept.c ≡ not (int_eq (N.value c) (N.value blank)) }
    requires d { kept.d ≡ not (int_eq (N.value d) (N.value blank)) }
    ensures { N.value result ≡ combined Mean (N.value blank) (N.value a ∷ N.value b ∷ N.value c ∷ N.value d ∷ []) }
{
    // For the prover: each is a number of the width.
    let _ranges = (a.wide(), b.wide(), c.wide(), d.wide());
    let (mean, is_none) = mean_of_kept(a, b, c, d, kept);
    // Moved before it is asked whether there is one, so that this is no branch.
    let mean = beside_blank(mean, blank);
    if is_none { blank } else { mean }
}

// The mean; one more where it is the blank number.
#[inline(always)]
fn beside_blank<N: PixelNumber>(mean: N, blank: N) -> N
    ensures { N.value result ≡ (if int_eq (N.value mean) (N.value blank) then int_min (N.value blank +ℤ pos 1) (greatest_number N.bits) else N.value mean) }
{
    if mean == blank { blank.next() } else { mean }
}

// The number, or the other one where it isn't kept.
#[inline(always)]
fn if_kept<N: PixelNumber>(number: N, is_kept: bool, other: N) -> N
    ensures chosen { N.value result ≡ (if is_kept then N.value number else N.value other) }
    ensures number { IsNumber N.bits (N.value number) }
{
    // For the prover: it is a number of the width.
    let _range = number.wide();
    if is_kept { number } else { other }
}

// The least of four numbers, and the one above it, by least and greatest numbers alone.
#[inline(always)]
fn two_least<N: PixelNumber>(a: N, b: N, c: N, d: N) -> (N, N)
    ensures first { N.value result.0 ≡ slice_index_or (ascending (N.value a ∷ N.value b ∷ N.value c ∷ N.value d ∷ [])) 0 (pos 0) }
    ensures second { N.value result.1 ≡ slice_index_or (ascending (N.value a ∷ N.value b ∷ N.value c ∷ N.value d ∷ [])) 1 (pos 0) }
{
    let (low, high) = (c.min(d), c.max(d));
    let least = b.min(low);
    let upper = b.min(high);
    let middle = low.max(upper);
    let below = a.min(middle);
    (a.min(least), least.max(below))
}
