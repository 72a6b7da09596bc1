ghost use Rattle.std.specs.Prelude.{◌≡◌};
ghost use Rattle.selection.specs.Operands.{number};

use std::fmt;

/// Why an operand is refused.
#[derive(Clone, Copy, Drop, PartialEq, Eq, Debug)]
pub enum Refusal {
    /// K lies outside 4 to 28.
    Width,
    /// Q is odd or lies outside 2 to 28.
    Places,
    /// x lies outside 2^(K-2) to 2^K - 1.
    Range,
}

impl Refusal {
    /// Gives the number by which the refusal is told to callers.
    // no `From`: the name says which number, and `u32::from` would not
    pub fn number(self) -> u32
        ensures { result ≡ number self }
    {
        match self {
            Refusal::Width => 1,
            Refusal::Places => 2,
            Refusal::Range => 3,
        }
    }
}

impl fmt::Display for Refusal {
    fn fmt<W: fmt::Write>(&self, f: &mut fmt::Formatter<W>) -> fmt::Result {
        match self {
            Refusal::Width => write!(f, "K is outside 4 to 28"),
            Refusal::Places => write!(f, "Q is odd or outside 2 to 28"),
            Refusal::Range => write!(f, "x is outside 2^(K-2) to 2^K - 1"),
        }
    }
}
