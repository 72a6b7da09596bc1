ghost use Rattle.std.specs.Prelude.{◌≡◌};
ghost use Rattle.foreign.specs.DualRail.{dual_rail, both_rails};

use arithmetic::{signed_of, times, word_of};
use number_form::NumberForm;
use number_form::cut::Cut;
use number_form::shift::Shift;
use number_form::sign::Sign;
use number_form::words::Words;

/// The dual-rail form of self-checking circuits: the number in the second word, and every bit inverted in the first.
#[derive(Clone, Copy, Drop, PartialEq, Eq, Debug)]
pub struct DualRail;

impl NumberForm for DualRail {
    ghost model = { λ _. dual_rail };

    fn lawful(&self) {}

    fn set(&self, n: i64) -> Words {
        both_rails(word_of(n))
    }

    fn shift(&self, w: Words, by: Shift) -> Words {
        both_rails(w.second << by.places())
    }

    fn add(&self, w: Words, n: i64) -> Words {
        both_rails(w.second.wrapping_add(word_of(n)))
    }

    fn add_multiple(&self, w: Words, c: i64, other: Words) -> Words {
        both_rails(w.second.wrapping_add(times(other.second, c)))
    }

    fn estimate(&self, w: Words, at: Cut) -> i64 {
        signed_of(w.second) >> at.place
    }

    /// Reads the sign off the inverted rail.
    fn sign(&self, w: Words) -> Sign {
        if w.first < 1 << 63 {
            Sign::Negative
        } else {
            Sign::NotNegative
        }
    }
}

/// Puts a word on the second rail, and its inverse on the first.
fn both_rails(bits: u64) -> Words
    ensures { result ≡ both_rails bits }
{
    Words {
        first: !bits,
        second: bits,
    }
}
