ghost use Rattle.std.specs.Prelude.{◌≡◌};
ghost use Rattle.single.specs.Modes.{mode_of, number};

use std::fmt;

/// A rounding mode of IEEE 754: to the nearest single, toward zero, up or down.
#[derive(Clone, Copy, Drop, PartialEq, Eq, Debug)]
pub enum Mode {
    Nearest,
    TowardZero,
    Up,
    Down,
}

/// Why a number is refused as a mode.
#[derive(Clone, Copy, Drop, PartialEq, Eq, Debug)]
pub enum ModeRefusal {
    /// The number is above 3.
    AboveThree,
}

/// Makes a mode of its number: 0 nearest, 1 toward zero, 2 up, 3 down.
impl TryFrom<u32> for Mode {
    type Error = ModeRefusal;

    ghost try_from_gives = { λ n r. r ≡ mode_of n };

    fn try_from(number: u32) -> Result<Mode, ModeRefusal> {
        match number {
            0 => Ok(Mode::Nearest),
            1 => Ok(Mode::TowardZero),
            2 => Ok(Mode::Up),
            3 => Ok(Mode::Down),
            _ => Err(ModeRefusal::AboveThree),
        }
    }
}

impl fmt::Display for Mode {
    fn fmt<W: fmt::Write>(&self, f: &mut fmt::Formatter<W>) -> fmt::Result {
        match self {
            Mode::Nearest => write!(f, "nearest"),
            Mode::TowardZero => write!(f, "toward zero"),
            Mode::Up => write!(f, "up"),
            Mode::Down => write!(f, "down"),
        }
    }
}

impl ModeRefusal {
    /// Gives the number by which the refusal is told to callers.
    // no `From`: the name says which number, and `u32::from` would not
    pub fn number(self) -> u32
        ensures { result ≡ number self }
    {
        match self {
            ModeRefusal::AboveThree => 4,
        }
    }
}

impl fmt::Display for ModeRefusal {
    fn fmt<W: fmt::Write>(&self, f: &mut fmt::Formatter<W>) -> fmt::Result {
        match self {
            ModeRefusal::AboveThree => write!(f, "the mode is above 3"),
        }
    }
}
