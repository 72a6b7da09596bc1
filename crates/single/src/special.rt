ghost use Rattle.std.specs.Prelude.{◌≡◌};
ghost use Rattle.single.specs.Readings.{special_answer};

use crate::answer::Answer;
use crate::marks::Marks;
use std::fmt;

/// A word whose reciprocal root is settled at once.
#[derive(Clone, Copy, Drop, PartialEq, Eq, Debug)]
pub enum Special {
    /// A NaN, quiet or signalling.
    NotANumber { quiet: bool },
    /// A zero or a subnormal, by its sign.
    Zero { negative: bool },
    PlusInfinity,
    /// Any other negative number, minus infinity among them.
    Negative,
}

impl Special {
    /// Tells the word and the marks that the special word comes to.
    pub fn answer(self) -> Answer
        ensures { result ≡ special_answer self }
    {
        match self {
            Special::NotANumber { quiet: true } => told(0x7fc0_0000, Marks::NONE),
            Special::NotANumber { quiet: false } => told(0x7fc0_0000, Marks::INVALID),
            Special::Zero { negative: false } => told(0x7f80_0000, Marks::DIVISION_BY_ZERO),
            Special::Zero { negative: true } => told(0xff80_0000, Marks::DIVISION_BY_ZERO),
            Special::PlusInfinity => told(0x0000_0000, Marks::NONE),
            Special::Negative => told(0x7fc0_0000, Marks::INVALID),
        }
    }
}

fn told(word: u32, marks: Marks) -> Answer
    ensures { result ≡ record { word = word; marks = marks } }
{
    Answer { word, marks }
}

impl fmt::Display for Special {
    fn fmt<W: fmt::Write>(&self, f: &mut fmt::Formatter<W>) -> fmt::Result {
        match self {
            Special::NotANumber { quiet: true } => write!(f, "a quiet NaN"),
            Special::NotANumber { quiet: false } => write!(f, "a signalling NaN"),
            Special::Zero { negative: false } => {
                write!(f, "a positive zero, or a subnormal that counts as one")
            }
            Special::Zero { negative: true } => {
                write!(f, "a negative zero, or a subnormal that counts as one")
            }
            Special::PlusInfinity => write!(f, "plus infinity"),
            Special::Negative => write!(f, "a negative number"),
        }
    }
}
