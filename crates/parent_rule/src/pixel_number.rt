//! Numbers of 8, 16 and 32 bits. Sums have the width that lets a loop over rows work on the most pixels at a time.
ghost use Rattle.std.specs.Prelude.{◌≡◌, ◌↔◌, ◌*◌, ◌^◌, ℕ, ℤ, pos, ◌+ℤ◌, ◌<ℤ◌, IsTrue, int_div};
ghost use Rattle.std.specs.Int.{int_min};
ghost use Rattle.std.specs.Ordering.{int_cmp};
ghost use Rattle.std.proofs.Common.{rules};
ghost use Rattle.parent_rule.specs.Depth.{IsNumber, greatest_number};

use num_traits::Unsigned;

/// A number of 8, 16 or 32 bits.
pub trait PixelNumber: Copy + Ord {
    /// Sums of four, each raised.
    type Sum: Unsigned + Copy + From<u8>;

    /// The width in bits.
    ghost bits: { ℕ };

    /// The number that the value stands for.
    ghost value: { Self → ℤ };

    /// By how much a number is raised, so that the least one becomes 0.
    ghost raise: { ℕ };

    /// It among the numbers of every width.
    fn wide(self) -> i64
        ensures value { result ≡ value self }
        ensures number { IsNumber bits (value self) };

    /// The greatest number of the width.
    fn greatest() -> Self
        ensures { value result ≡ greatest_number bits };

    /// One more; the greatest number stays.
    fn next(self) -> Self
        ensures { value result ≡ int_min (value self +ℤ pos 1) (greatest_number bits) };

    /// The number, counted from the least one of its width.
    fn raised(self) -> Self::Sum
        ensures raised { Self.Sum.value result ≡ value self +ℤ pos raise }
        ensures room { Self.Sum.value result <ℤ pos (2 ^ bits) };

    /// The number that was raised.
    fn lowered(raised: Self::Sum) -> Self
        requires { Self.Sum.value raised <ℤ pos (2 ^ bits) }
        ensures { value result +ℤ pos raise ≡ Self.Sum.value raised };

    /// A third of a sum, rounded down.
    fn third(sum: Self::Sum) -> Self::Sum
        requires { Self.Sum.value sum <ℤ pos (4 * 2 ^ bits) }
        ensures { Self.Sum.value result ≡ int_div (Self.Sum.value sum) (pos 3) };

    /// There is room for sums of four.
    ghost sums_fit: { Self.Sum.fits (pos (4 * 2 ^ bits)) };

    /// A byte is itself as a sum.
    ghost byte_is: { (n : ℕ) (sum : Self.Sum) → Self.Sum.from_gives n sum → Self.Sum.value sum ≡ pos n };

    /// Values are equal when their numbers are.
    ghost equality: { (a b : Self) → IsTrue (Self.eq a b) ↔ (value a ≡ value b) };

    /// Values are ordered as their numbers are.
    ghost in_order: { (a b : Self) → Self.cmp a b ≡ int_cmp (value a) (value b) };
}

impl PixelNumber for u8 {
    type Sum = u16;

    ghost bits = { 8 };

    ghost value = { pos };

    ghost raise = { 0 };

    ghost sums_fit = { Prim.search rules };

    ghost byte_is = { Prim.search rules };

    ghost equality = { Prim.search rules };

    ghost in_order = { Prim.search rules };

    #[inline(always)]
    fn wide(self) -> i64 {
        i64::from(self)
    }

    #[inline(always)]
    fn greatest() -> u8 {
        u8::MAX
    }

    #[inline(always)]
    fn next(self) -> u8 {
        self.saturating_add(1)
    }

    #[inline(always)]
    fn raised(self) -> u16 {
        u16::from(self)
    }

    #[inline(always)]
    fn lowered(raised: u16) -> u8 {
        raised as u8
    }

    #[inline(always)]
    fn third(sum: u16) -> u16 {
        sum / 3
    }
}

impl PixelNumber for i16 {
    type Sum = u32;

    ghost bits = { 16 };

    ghost value = { λ v. v };

    ghost raise = { 32768 };

    ghost sums_fit = { Prim.search rules };

    ghost byte_is = { Prim.search rules };

    ghost equality = { Prim.search rules };

    ghost in_order = { Prim.search rules };

    #[inline(always)]
    fn wide(self) -> i64 {
        i64::from(self)
    }

    #[inline(always)]
    fn greatest() -> i16 {
        i16::MAX
    }

    #[inline(always)]
    fn next(self) -> i16 {
        self.saturating_add(1)
    }

    #[inline(always)]
    fn raised(self) -> u32 {
        (i32::from(self) + 32768) as u32
    }

    #[inline(always)]
    fn lowered(raised: u32) -> i16 {
        (raised as i32 - 32768) as i16
    }

    #[inline(always)]
    fn third(sum: u32) -> u32 {
        sum / 3
    }
}

impl PixelNumber for i32 {
    type Sum = u64;

    ghost bits = { 32 };

    ghost value = { λ v. v };

    ghost raise = { 2147483648 };

    ghost sums_fit = { Prim.search rules };

    ghost byte_is = { Prim.search rules };

    ghost equality = { Prim.search rules };

    ghost in_order = { Prim.search rules };

    #[inline(always)]
    fn wide(self) -> i64 {
        i64::from(self)
    }

    #[inline(always)]
    fn greatest() -> i32 {
        i32::MAX
    }

    #[inline(always)]
    fn next(self) -> i32 {
        self.saturating_add(1)
    }

    #[inline(always)]
    fn raised(self) -> u64 {
        (i64::from(self) + 2147483648) as u64
    }

    #[inline(always)]
    fn lowered(raised: u64) -> i32 {
        (raised as i64 - 2147483648) as i32
    }

    // Digit by digit of 16 bits: a loop can divide many numbers of 32 bits at a time, and none of 64.
    #[inline(always)]
    fn third(sum: u64) -> u64 {
        let high = (sum / 65536) as u32;
        let low = high % 3 * 65536 + (sum % 65536) as u32;
        u64::from(high / 3) * 65536 + u64::from(low / 3)
    }
}
