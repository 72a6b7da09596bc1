ghost use Rattle.std.specs.Prelude.{◌≡◌, ◌+◌, ◌*◌, ◌^◌, ◌<◌, ◌≤◌, pos, neg_ℤ, ◌≤ℤ◌, ◌<ℤ◌, unsigned_abs};
ghost use Rattle.recurrence.specs.Recurrence.{terms, appended, next_s};

use crate::registers::{Partial, Terms};

/// Puts a factor at a place: multiplies it by 2^place.
pub(crate) fn at_place(factor: u64, place: u32) -> i64
    requires { (factor ≤ 2 ^ 32) × (place ≤ 28) }
    ensures is { result ≡ pos (factor * 2 ^ place) }
    ensures most { result ≤ℤ pos (factor * 2 ^ 28) }
{
    (factor << place) as i64
}

impl Terms {
    /// Works out what a digit adds, by its operand term.
    pub(crate) fn of(digit: i64, term: i64) -> Terms
        requires digit_fits { (neg_ℤ (pos 4) <ℤ digit) × (digit <ℤ pos 4) }
        requires term_fits { (pos 0 ≤ℤ term) × (term ≤ℤ pos (2 ^ 56)) }
        ensures { result ≡ terms digit term }
    {
        let once = digit * term;
        Terms {
            multiple: -2 * digit,
            square: -(digit * once),
            once,
        }
    }
}

impl Partial {
    /// Appends a digit at its place.
    // the sizes are asked of four private functions here: types for a place and a digit would be taken apart at each sum
    pub(crate) fn append(self, radix: u32, digit: i64, place: u32) -> Partial
        requires sizes { (2 ≤ radix) × (radix ≤ 4) × (place ≤ 28) }
        requires digit_fits { (neg_ℤ (pos radix) <ℤ digit) × (digit <ℤ pos radix) }
        requires partial_fits { (self.s ≤ 2 ^ 30) × (self.below ≤ 2 ^ 30) }
        ensures { result ≡ appended radix digit place self }
    {
        let radix = i64::from(radix);
        Partial {
            s: self.with_digit(radix, digit, place),
            below: self.with_digit(radix, digit - 1, place),
        }
    }

    /// Gives S with a digit at its place: where the digit is negative, S less one unit of the last place, with the digit and the radix there.
    fn with_digit(self, radix: i64, digit: i64, place: u32) -> u32
        requires sizes { (radix ≤ℤ pos 4) × (place ≤ 28) }
        requires digit_fits { (neg_ℤ radix ≤ℤ digit) × (digit <ℤ radix) }
        requires partial_fits { (self.s ≤ 2 ^ 30) × (self.below ≤ 2 ^ 30) }
        ensures { result ≡ next_s radix digit place self }
    {
        if digit >= 0 {
            self.s + digit_at_place(digit, place)
        } else {
            self.below + digit_at_place(radix + digit, place)
        }
    }
}

/// Puts a digit that is not negative at its place.
// beside `at_place`, since a partial result has 32 bits and a term 64: each would cast to the other's type and back
fn digit_at_place(digit: i64, place: u32) -> u32
    requires { (pos 0 ≤ℤ digit) × (digit ≤ℤ pos 3) × (place ≤ 28) }
    ensures is { result ≡ unsigned_abs digit * 2 ^ place }
    ensures most { result ≤ 3 * 2 ^ 28 }
{
    (digit as u32) << place
}
