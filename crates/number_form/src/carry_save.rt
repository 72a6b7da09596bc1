ghost use Rattle.std.specs.Prelude.{◌≡◌};
ghost use Rattle.number_form.specs.CarrySave.{carry_save, carried};

use crate::NumberForm;
use crate::cut::Cut;
use crate::shift::Shift;
use crate::sign::Sign;
use crate::words::{Words, majority};
use arithmetic::{signed_of, times, word_of};

/// The carry-save form: the number is the sum of the words.
#[derive(Clone, Copy, Drop, PartialEq, Eq, Debug)]
pub struct CarrySave;

impl NumberForm for CarrySave {
    ghost model = { λ _. carry_save };

    fn lawful(&self) {}

    fn set(&self, n: i64) -> Words {
        Words::in_first(n)
    }

    fn shift(&self, w: Words, by: Shift) -> Words {
        w.shifted(by)
    }

    fn add(&self, w: Words, n: i64) -> Words {
        carry_in(w, word_of(n))
    }

    fn add_multiple(&self, w: Words, c: i64, other: Words) -> Words {
        let with_first = carry_in(w, times(other.first, c));
        carry_in(with_first, times(other.second, c))
    }

    fn estimate(&self, w: Words, at: Cut) -> i64 {
        let kept = w.from_place(at);
        signed_of(kept.first.wrapping_add(kept.second)) >> at.place
    }

    fn sign(&self, w: Words) -> Sign {
        Sign::of(w.first.wrapping_add(w.second))
    }
}

/// Adds a word with no carry passed along: the exclusive or of the three words, and their majority shifted left by one.
fn carry_in(w: Words, n: u64) -> Words
    ensures { result ≡ carried n w }
{
    let Words { first, second } = w;
    Words {
        first: first ^ second ^ n,
        second: majority(first, second, n) << 1,
    }
}
