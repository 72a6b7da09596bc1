ghost use Rattle.std.specs.Prelude.{◌≡◌, pos, ◌*ℤ◌, neg_ℤ};
ghost use Rattle.arithmetic.specs.Residues.{word};
ghost use Rattle.number_form.specs.BorrowSave.{borrow_save, borrowed, cut};

use crate::NumberForm;
use crate::cut::Cut;
use crate::shift::Shift;
use crate::sign::Sign;
use crate::words::{Words, majority};
use arithmetic::{difference, signed_of, times, word_of};

/// The borrow-save form: the number is the first word less the second.
#[derive(Clone, Copy, Drop, PartialEq, Eq, Debug)]
pub struct BorrowSave;

impl NumberForm for BorrowSave {
    ghost model = { λ _. borrow_save };

    fn lawful(&self) {}

    fn set(&self, n: i64) -> Words {
        Words::in_first(n)
    }

    fn shift(&self, w: Words, by: Shift) -> Words {
        w.shifted(by)
    }

    fn add(&self, w: Words, n: i64) -> Words {
        borrow_in(w, word_of(n))
    }

    fn add_multiple(&self, w: Words, c: i64, other: Words) -> Words {
        let with_first = borrow_in(w, times(other.first, c));
        borrow_in(with_first, minus_times(other.second, c))
    }

    fn estimate(&self, w: Words, at: Cut) -> i64 {
        signed_of(cut_difference(w, at)) >> at.place
    }

    fn sign(&self, w: Words) -> Sign {
        Sign::of(difference(w.first, w.second))
    }
}

/// Adds a word with no borrow passed along: the majority of first word, number and inverted second word shifted left by one, and the
/// exclusive or of the three words.
fn borrow_in(w: Words, n: u64) -> Words
    ensures { result ≡ borrowed n w }
{
    let Words { first, second } = w;
    Words {
        first: majority(first, n, !second) << 1,
        second: first ^ n ^ second,
    }
}

/// Multiplies a word by -c, modulo 2^64.
fn minus_times(bits: u64, c: i64) -> u64
    ensures { result ≡ word (neg_ℤ (c *ℤ pos bits)) }
{
    difference(0, times(bits, c))
}

/// Subtracts the second word from the first, each cut to its bits from a place up, and one unit of that place.
fn cut_difference(w: Words, at: Cut) -> u64
    ensures { result ≡ word (cut at.place w) }
{
    let Words { first, second } = w.from_place(at);
    let kept = difference(first, second);
    difference(kept, 1 << at.place)
}
