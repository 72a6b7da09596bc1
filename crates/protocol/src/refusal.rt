ghost use Rattle.std.specs.Prelude.{◌≡◌};
ghost use Rattle.protocol.specs.Refusals.{number, cause};
ghost use Rattle.protocol.specs.declared.refusal.Refusal.TheVariants.{Operand};

use selection::refusal::Refusal as OperandRefusal;
use std::fmt;

/// Why a bank refuses a call.
#[derive(Clone, Copy, Drop, PartialEq, Eq, Debug)]
pub enum Refusal {
    /// The operand's width, places or range.
    Operand(OperandRefusal),
    /// The lane is above 7.
    NoSuchLane,
    /// The lane is held.
    LaneHeld,
    /// The ticks are 0, or the deadline would be above 2^32 - 1.
    Ticks,
    /// The last serial, 2^32 - 1, is handed out.
    SerialsUsedUp,
    /// The hold is not in force.
    NotInForce,
    /// A job is loaded already.
    AlreadyLoaded,
    /// No job is loaded.
    NoJob,
    /// Digits are still to make.
    DigitsLeft,
    /// The time is below the clock.
    BelowClock,
}

impl Refusal {
    /// Gives the number by which the refusal is told to callers.
    // no `From`: the name says which number, and `u32::from` would not
    pub fn number(self) -> u32
        ensures { result ≡ number self }
    {
        match self {
            Refusal::Operand(refusal) => refusal.number(),
            Refusal::NoSuchLane => 5,
            Refusal::LaneHeld => 6,
            Refusal::Ticks => 7,
            Refusal::SerialsUsedUp => 8,
            Refusal::NotInForce => 9,
            Refusal::AlreadyLoaded => 10,
            Refusal::NoJob => 11,
            Refusal::DigitsLeft => 12,
            Refusal::BelowClock => 13,
        }
    }
}

impl From<OperandRefusal> for Refusal {
    ghost from_gives = { λ e r. r ≡ Operand e };

    fn from(refusal: OperandRefusal) -> Refusal {
        Refusal::Operand(refusal)
    }
}

impl fmt::Display for Refusal {
    ghost output = { cause };

    fn fmt<W: fmt::Write>(&self, f: &mut fmt::Formatter<W>) -> fmt::Result {
        match self {
            Refusal::Operand(refusal) => write!(f, "{refusal}"),
            Refusal::NoSuchLane => write!(f, "the lane is above 7"),
            Refusal::LaneHeld => write!(f, "the lane is held"),
            Refusal::Ticks => write!(f, "the ticks are 0, or the deadline is above 2^32 - 1"),
            Refusal::SerialsUsedUp => write!(f, "the last serial, 2^32 - 1, is handed out"),
            Refusal::NotInForce => write!(f, "the hold is not in force"),
            Refusal::AlreadyLoaded => write!(f, "a job is already loaded"),
            Refusal::NoJob => write!(f, "no job is loaded"),
            Refusal::DigitsLeft => write!(f, "digits are still to make"),
            Refusal::BelowClock => write!(f, "the time is below the clock"),
        }
    }
}
