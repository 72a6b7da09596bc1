ghost use Rattle.std.specs.Prelude.{◌≤◌};

use number_form::words::Words;
use std::fmt;

/// A number n / 2^places, shown as the decimal fraction that it is.
#[derive(Clone, Copy, Drop)]
pub(crate) struct Fixed {
    pub(crate) n: u32,
    pub(crate) places: u32,
    ghost few: { places ≤ 28 },
}

/// The same, shown in binary with all its places.
#[derive(Drop)]
pub(crate) struct Binary(pub(crate) Fixed);

impl Fixed {
    /// Splits n at its point.
    fn split(&self) -> (u32, u32) {
        (self.n >> self.places, self.n & ((1 << self.places) - 1))
    }
}

impl fmt::Display for Fixed {
    fn fmt<W: fmt::Write>(&self, f: &mut fmt::Formatter<W>) -> fmt::Result {
        let (whole, part) = self.split();
        // an odd number over 2^p is 5^p times that number over 10^p
        let even = part.trailing_zeros().min(self.places);
        let places = self.places - even;
        let digits = u128::from(part >> even) * 5u128.pow(places);
        let width = places as usize;
        write!(f, "{whole}.{digits:0width$}")
    }
}

impl fmt::Display for Binary {
    fn fmt<W: fmt::Write>(&self, f: &mut fmt::Formatter<W>) -> fmt::Result {
        let (whole, part) = self.0.split();
        let width = self.0.places as usize;
        write!(f, "{whole:b}.{part:0width$b}")
    }
}

/// Both words of a number, shown in hexadecimal.
#[derive(Drop)]
pub(crate) struct Hexadecimal(pub(crate) Words);

impl fmt::Display for Hexadecimal {
    fn fmt<W: fmt::Write>(&self, f: &mut fmt::Formatter<W>) -> fmt::Result {
        let Words { first, second } = self.0;
        write!(f, "{first:016x} {second:016x}")
    }
}
