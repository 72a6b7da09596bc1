ghost use Rattle.std.specs.Prelude.{◌≡◌};
ghost use Rattle.arithmetic.specs.Residues.{signed};
ghost use Rattle.number_form.specs.Forms.{sign_of};

use arithmetic::signed_of;

/// The sign of a number's signed reading.
#[derive(Clone, Copy, Drop, PartialEq, Eq, Debug)]
pub enum Sign {
    Negative,
    NotNegative,
}

impl Sign {
    /// Tells the sign of 64 bits in two's complement.
    // no `From`: 64 bits have a sign only as a number in two's complement
    pub(crate) fn of(bits: u64) -> Sign
        ensures { result ≡ sign_of (signed bits) }
    {
        if signed_of(bits) < 0 {
            Sign::Negative
        } else {
            Sign::NotNegative
        }
    }
}
