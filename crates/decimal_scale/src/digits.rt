//! The digits of a number with at most one point.
ghost use Rattle.std.specs.Prelude.{◌≡◌, ℕ, List, [], ◌∷◌, ◌+◌, ◌*◌, ◌^◌, ◌<◌, ◌≤◌, ◌++◌, length, MatchResult};
ghost use Rattle.decimal_scale.specs.Real.{is_fixed_point};
ghost use Rattle.decimal_scale.specs.Scan.{Scanned, AreDigitsOf, IsRefused};

use crate::BadReal;

/// The most significant digits of a number.
pub(crate) const MAX_DIGITS: usize = 18;

/// The digits of a number with at most one point.
#[derive(Clone, Copy)]
pub(crate) struct Digits {
    /// The number that the significant digits write. It means nothing where there are more than 18.
    pub(crate) significand: u64,
    /// How many digits there are from the first to the last that is not 0.
    pub(crate) significant: usize,
    /// How many zeros follow the last digit that is not 0.
    pub(crate) trailing_zeros: usize,
    /// How many digits follow the point.
    pub(crate) after_point: usize,
    has_point: bool,
    has_digit: bool,
}

impl Digits {
    /// The digits of a text that is all digits and at most one point, with at least one digit.
    ///
    /// # Errors
    ///
    /// `NotANumber` for any other text.
    pub(crate) fn read(text: &[u8]) -> Result<Digits, BadReal>
        ensures { MatchResult result (λ digits. AreDigitsOf text.now digits) (λ fault. IsRefused (is_fixed_point text.now) fault) }
    {
        let mut digits = Digits {
            significand: 0,
            significant: 0,
            trailing_zeros: 0,
            after_point: 0,
            has_point: false,
            has_digit: false,
        };
        for byte in text {
            match *byte {
                b'.' if !digits.has_point => digits.has_point = true,
                b'0'..=b'9' => digits.push(*byte - b'0'),
                _ => return Err(BadReal::NotANumber),
            }
        }
        if digits.has_digit {
            Ok(digits)
        } else {
            Err(BadReal::NotANumber)
        }
    }

    // Takes the next digit.
    fn push(&mut self, digit: u8)
        requires digit { digit < 10 }
        requires room { self.old.significant + self.old.trailing_zeros + 1 < 2 ^ 64 }
        requires point_room { self.old.after_point + 1 < 2 ^ 64 }
        requires small { self.old.significant ≤ 18 → self.old.significand < 10 ^ self.old.significant }
        ensures { (text : List ℕ) → Scanned text self.old → Scanned (text ++ (48 + digit) ∷ []) self.new }
    {
        self.has_digit = true;
        self.after_point += usize::from(self.has_point);
        if digit != 0 {
            self.push_significant(digit);
        } else if self.significant != 0 {
            self.trailing_zeros += 1;
        }
    }

    // Takes the next digit where it is not 0: the zeros before it are significant too.
    fn push_significant(&mut self, digit: u8)
        requires digit { digit < 10 }
        requires room { self.old.significant + self.old.trailing_zeros + 1 < 2 ^ 64 }
        requires small { self.old.significant ≤ 18 → self.old.significand < 10 ^ self.old.significant }
        ensures significant { self.new.significant ≡ self.old.significant + (self.old.trailing_zeros + 1) }
        ensures zeros { self.new.trailing_zeros ≡ 0 }
        ensures value { self.new.significant ≤ 18 → self.new.significand ≡ self.old.significand * 10 ^ (self.old.trailing_zeros + 1) + digit }
        ensures after_point { self.new.after_point ≡ self.old.after_point }
        ensures has_point { self.new.has_point ≡ self.old.has_point }
        ensures has_digit { self.new.has_digit ≡ self.old.has_digit }
    {
        let places = self.trailing_zeros + 1;
        self.significant += places;
        self.trailing_zeros = 0;
        if self.significant <= MAX_DIGITS {
            self.significand = self.significand * 10_u64.pow(places as u32) + u64::from(digit);
        }
    }
}
