ghost use Rattle.std.specs.Prelude.{◌≡◌, ◌≤◌};
ghost use Rattle.exports.specs.Faults.{number};
ghost use Rattle.exports.specs.declared.fault.Fault.TheVariants.{Operand, Mode};

use selection::refusal::Refusal;
use single::mode::ModeRefusal;
use std::fmt;

/// Why an exported call refuses.
#[derive(Clone, Copy, Drop, PartialEq, Eq, Debug)]
pub enum Fault {
    /// The make is above 1.
    Make,
    /// The operand is refused.
    Operand(Refusal),
    /// The mode is refused.
    Mode(ModeRefusal),
}

impl Fault {
    /// Gives the number by which the refusal is told to callers.
    // no `From`: the name says which number, and `u32::from` would not
    pub fn number(self) -> u32
        ensures is { result ≡ number self }
        ensures small { result ≤ 19 }
    {
        match self {
            Fault::Make => 19,
            Fault::Operand(refusal) => refusal.number(),
            Fault::Mode(refusal) => refusal.number(),
        }
    }
}

impl From<Refusal> for Fault {
    ghost from_gives = { λ e r. r ≡ Operand e };

    fn from(refusal: Refusal) -> Fault {
        Fault::Operand(refusal)
    }
}

impl From<ModeRefusal> for Fault {
    ghost from_gives = { λ e r. r ≡ Mode e };

    fn from(refusal: ModeRefusal) -> Fault {
        Fault::Mode(refusal)
    }
}

impl fmt::Display for Fault {
    fn fmt<W: fmt::Write>(&self, f: &mut fmt::Formatter<W>) -> fmt::Result {
        match self {
            Fault::Make => write!(f, "the make is above 1"),
            Fault::Operand(refusal) => write!(f, "{refusal}"),
            Fault::Mode(refusal) => write!(f, "{refusal}"),
        }
    }
}
