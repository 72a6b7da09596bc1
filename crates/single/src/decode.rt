ghost use Rattle.std.specs.Prelude.{◌≡◌, ◌+◌, ◌/◌, ◌%◌, ◌^◌, ◌<◌, ◌≤◌};
ghost use Rattle.single.specs.Readings.{reading, seen, reach, number, rounded, cut};
ghost use Rattle.single.specs.Words.{exponent, fraction};

use crate::answer::Answer;
use crate::decoded::Decoded;
use crate::marks::Marks;
use crate::mode::Mode;
use crate::positive::Positive;
use crate::special::Special;
use recurrence::registers::Outcome;
use selection::operand::Operand;

/// Decodes a single's word. Subnormals count as zeros.
impl From<u32> for Decoded {
    ghost from_gives = { λ word r. seen r ≡ reading word };

    fn from(word: u32) -> Decoded {
        let negative = word >= 1 << 31;
        let exponent = (word >> 23) % 256;
        let fraction = word % (1 << 23);
        if exponent == 255 && fraction > 0 {
            return Decoded::Special(Special::NotANumber {
                quiet: fraction >= 1 << 22,
            });
        }
        if exponent == 0 {
            return Decoded::Special(Special::Zero { negative });
        }
        if word == 0x7f80_0000 {
            return Decoded::Special(Special::PlusInfinity);
        }
        if negative {
            return Decoded::Special(Special::Negative);
        }
        Decoded::Positive(Positive {
            significand: (1 << 23) + fraction,
            exponent: exponent as i32,
        })
    }
}

impl Positive {
    /// Gives the fixed-point operand of 25 bits that is worked to 24 places.
    pub fn operand(self) -> Operand
        ensures { (result.k ≡ 25) × (result.q ≡ 24) × (result.x ≡ number self.significand self.exponent) }
    {
        let x = if self.reach() % 2 == 0 {
            2 * self.significand
        } else {
            self.significand
        };
        Operand { k: 25, q: 24, x }
    }

    /// Rounds what the operand came to, and packs it into a word.
    pub fn round(self, outcome: Outcome, mode: Mode) -> Answer
        ensures { result ≡ rounded mode self.exponent outcome }
    {
        let first = (self.reach() / 2) << 23;
        let rounded = if outcome.exact {
            outcome.f / 2
        } else {
            cut_by(mode, outcome.f)
        };
        Answer {
            word: first + rounded,
            marks: Marks::from(outcome),
        }
    }

    /// Gives 378 - E.
    fn reach(self) -> u32
        ensures is { result ≡ reach self.exponent }
        ensures small { result ≤ 400 }
    {
        (378 - self.exponent) as u32
    }
}

/// Cuts f of 25 bits to the 24 of a single.
fn cut_by(mode: Mode, f: u32) -> u32
    ensures is { result ≡ cut mode f }
    ensures small { result ≤ 2 ^ 31 }
{
    match mode {
        Mode::Nearest => f / 2 + f % 2,
        Mode::TowardZero | Mode::Down => f / 2,
        Mode::Up => f / 2 + 1,
    }
}
