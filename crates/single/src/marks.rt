ghost use Rattle.std.specs.Prelude.{◌≡◌, ◌<◌};
ghost use Rattle.single.specs.MarkSets.{marks_of, number, union};

use recurrence::registers::Outcome;
use std::fmt;

/// The marks that a result raises, IEEE 754's flags. Each is raised or not apart from the others, so they are three flags and no enum.
#[derive(Clone, Copy, Drop, PartialEq, Eq, Debug)]
pub struct Marks {
    pub inexact: bool,
    pub invalid: bool,
    pub division_by_zero: bool,
}

impl Marks {
    /// No mark.
    pub const NONE: Marks = Marks {
        inexact: false,
        invalid: false,
        division_by_zero: false,
    };

    /// Inexact alone.
    pub const INEXACT: Marks = Marks {
        inexact: true,
        ..Marks::NONE
    };

    /// Invalid alone.
    pub const INVALID: Marks = Marks {
        invalid: true,
        ..Marks::NONE
    };

    /// Division by zero alone.
    pub const DIVISION_BY_ZERO: Marks = Marks {
        division_by_zero: true,
        ..Marks::NONE
    };

    /// Gives the marks' number: 1 for inexact, 2 for invalid and 4 for division by zero, added.
    // no `From`: the name says which number, and `u32::from` would not
    pub fn number(self) -> u32
        ensures is { result ≡ number self }
        ensures small { result < 8 }
    {
        u32::from(self.inexact) + 2 * u32::from(self.invalid) + 4 * u32::from(self.division_by_zero)
    }

    /// Joins two sets of marks.
    pub fn union(self, other: Marks) -> Marks
        ensures { result ≡ union self other }
    {
        Marks {
            inexact: self.inexact || other.inexact,
            invalid: self.invalid || other.invalid,
            division_by_zero: self.division_by_zero || other.division_by_zero,
        }
    }
}

/// The marks of a result: none where it is the root itself, and inexact else.
impl From<Outcome> for Marks {
    ghost from_gives = { λ o r. r ≡ marks_of o.exact };

    fn from(outcome: Outcome) -> Marks {
        Marks {
            inexact: !outcome.exact,
            ..Marks::NONE
        }
    }
}

/// The marks by their names, or that there are none.
impl fmt::Display for Marks {
    fn fmt<W: fmt::Write>(&self, f: &mut fmt::Formatter<W>) -> fmt::Result {
        let named = [
            (self.inexact, "inexact"),
            (self.invalid, "invalid"),
            (self.division_by_zero, "division by zero"),
        ];
        let mut before = "";
        for (raised, name) in named {
            if raised {
                write!(f, "{before}{name}")?;
                before = " ";
            }
        }
        if before.is_empty() {
            write!(f, "none")?;
        }
        Ok(())
    }
}
