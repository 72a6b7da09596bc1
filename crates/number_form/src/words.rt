ghost use Rattle.std.specs.Prelude.{◌≡◌};
ghost use Rattle.number_form.specs.Forms.{in_first, shifted, from_place};
ghost use Rattle.number_form.specs.CarrySave.{majority};
ghost use Rattle.number_form.specs.Shifts.{places};

use crate::cut::Cut;
use crate::shift::Shift;
use arithmetic::word_of;

/// The two 64-bit words in which a number form keeps a number.
#[derive(Clone, Copy, Drop, PartialEq, Eq, Debug)]
pub struct Words {
    pub first: u64,
    pub second: u64,
}

impl Words {
    /// Puts a number's 64 bits into the first word, as the three delivered forms do.
    // the trait has no default body for it: that would have to promise it of every form, and others set their words otherwise
    pub(crate) fn in_first(n: i64) -> Words
        ensures { result ≡ in_first n }
    {
        Words {
            first: word_of(n),
            second: 0,
        }
    }

    /// Shifts both words left, as the three delivered forms do.
    // the trait has no default body for it, as for setting
    pub(crate) fn shifted(self, by: Shift) -> Words
        ensures { result ≡ shifted (places by) self }
    {
        let places = by.places();
        Words {
            first: self.first << places,
            second: self.second << places,
        }
    }

    /// Cuts both words to their bits from a place up.
    pub(crate) fn from_place(self, at: Cut) -> Words
        ensures first { result.first ≡ from_place at.place self.first }
        ensures second { result.second ≡ from_place at.place self.second }
    {
        let u = at.place;
        Words {
            first: (self.first >> u) << u,
            second: (self.second >> u) << u,
        }
    }
}

/// Gives, bit by bit, what two of three words have.
pub(crate) fn majority(a: u64, b: u64, c: u64) -> u64
    ensures { result ≡ majority a b c }
{
    (a & b) | (a & c) | (b & c)
}
