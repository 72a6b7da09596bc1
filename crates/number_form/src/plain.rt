ghost use Rattle.arithmetic.specs.Estimates.{shortfall};
ghost use Rattle.number_form.specs.Forms.{LawfulForm};
ghost use Rattle.number_form.specs.Plain.{plain};

use crate::NumberForm;
use crate::cut::Cut;
use crate::shift::Shift;
use crate::sign::Sign;
use crate::words::Words;
use arithmetic::{signed_of, times, word_of};

/// The plain form: the number in the first word, and 0 in the second.
#[derive(Clone, Copy, Drop, PartialEq, Eq, Debug)]
pub struct Plain;

impl NumberForm for Plain {
    ghost model = { λ _. plain };

    fn lawful(&self)
        ensures laws { LawfulForm shortfall plain }
        ensures one_unit { LawfulForm 1 plain }
    {}

    fn set(&self, n: i64) -> Words {
        Words::in_first(n)
    }

    fn shift(&self, w: Words, by: Shift) -> Words {
        w.shifted(by)
    }

    fn add(&self, w: Words, n: i64) -> Words {
        Words {
            first: w.first.wrapping_add(word_of(n)),
            second: w.second,
        }
    }

    fn add_multiple(&self, w: Words, c: i64, other: Words) -> Words {
        let multiple = times(other.first, c);
        Words {
            first: w.first.wrapping_add(multiple),
            second: w.second,
        }
    }

    fn estimate(&self, w: Words, at: Cut) -> i64 {
        signed_of(w.first) >> at.place
    }

    fn sign(&self, w: Words) -> Sign {
        Sign::of(w.first)
    }
}
