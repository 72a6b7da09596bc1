// Number forms: a number kept in two 64-bit words.
#![tactic(auto)]

ghost use Rattle.std.specs.Prelude.{◌≡◌};
ghost use Rattle.arithmetic.specs.Estimates.{shortfall};
ghost use Rattle.number_form.specs.Forms.{FormModel, LawfulForm};
ghost use Rattle.number_form.specs.Shifts.{places};

pub mod borrow_save;
pub mod carry_save;
pub mod cut;
pub mod plain;
pub mod shift;
pub mod sign;
pub mod words;

use cut::Cut;
use shift::Shift;
use sign::Sign;
use words::Words;

/// A number form: how a number, modulo 2^64, lies in two words, and what is done with it there. What each function answers depends on
/// the words and numbers passed to it alone, as the model's functions say, and none refuses.
pub trait NumberForm {
    ghost model: { Self → FormModel };

    /// States the laws of the form; it does nothing when it runs.
    fn lawful(&self)
        ensures { LawfulForm shortfall (model self.now) };

    /// Sets a number.
    fn set(&self, n: i64) -> Words
        ensures { result ≡ (model self.now).set n };

    /// Shifts a number left, which doubles or quadruples it.
    fn shift(&self, w: Words, by: Shift) -> Words
        ensures { result ≡ (model self.now).shift (places by) w };

    /// Adds a number.
    fn add(&self, w: Words, n: i64) -> Words
        ensures { result ≡ (model self.now).add n w };

    /// Adds c times another number of the form.
    fn add_multiple(&self, w: Words, c: i64, other: Words) -> Words
        ensures { result ≡ (model self.now).add_multiple c other w };

    /// Estimates the signed reading in units of 2^u, from the bits at place u and above.
    fn estimate(&self, w: Words, at: Cut) -> i64
        ensures { result ≡ (model self.now).estimate at.place w };

    /// Tells the sign of the signed reading.
    fn sign(&self, w: Words) -> Sign
        ensures { result ≡ (model self.now).sign w };
}
