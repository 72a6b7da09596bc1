ghost use Rattle.std.specs.Prelude.{◌≡◌, Some};
ghost use Rattle.records.specs.declared.fault.Fault.TheVariants.{Mode, Bank, Number};
ghost use Rattle.records.specs.Faults.{number, words};

use protocol::refusal::Refusal;
use seven_bit::fault::NumberFault;
use single::mode::ModeRefusal;
use std::fmt;

/// What is wrong with a record or a stream.
#[derive(Clone, Copy, Drop, PartialEq, Eq, Debug)]
pub enum Fault {
    /// The mode of a collect.
    Mode(ModeRefusal),
    /// What the bank refuses.
    Bank(Refusal),
    /// The first byte is above 9.
    NoSuchRecord,
    /// A number, or the end of the bytes in the midst of a record.
    Number(NumberFault),
    /// Under 8 bytes of the output are free.
    NoRoom,
    /// The input has more than 32,768 bytes.
    TooLong,
}

impl Fault {
    /// Gives the number by which the fault is told to callers.
    // no `From`: the name says which number, and `u32::from` would not
    pub fn number(self) -> u32
        ensures { result ≡ number self }
    {
        match self {
            Fault::Mode(refusal) => refusal.number(),
            Fault::Bank(refusal) => refusal.number(),
            Fault::NoSuchRecord => 14,
            Fault::Number(fault) => fault.number(),
            Fault::NoRoom => 17,
            Fault::TooLong => 18,
        }
    }
}

impl From<ModeRefusal> for Fault {
    ghost from_gives = { λ mode fault. fault ≡ Mode mode };

    /// Makes a fault of a mode's refusal.
    fn from(mode: ModeRefusal) -> Fault {
        Fault::Mode(mode)
    }
}

impl From<Refusal> for Fault {
    ghost from_gives = { λ refusal fault. fault ≡ Bank refusal };

    /// Makes a fault of a bank's refusal.
    fn from(bank: Refusal) -> Fault {
        Fault::Bank(bank)
    }
}

impl From<NumberFault> for Fault {
    ghost from_gives = { λ number fault. fault ≡ Number number };

    /// Makes a fault of a number's fault.
    fn from(number: NumberFault) -> Fault {
        Fault::Number(number)
    }
}

impl fmt::Display for Fault {
    ghost output = { λ fault. Some (words fault) };

    /// Says the fault in words.
    fn fmt<W: fmt::Write>(&self, f: &mut fmt::Formatter<W>) -> fmt::Result {
        match self {
            Fault::Mode(_) => f.write_str("the mode is above 3"),
            Fault::Bank(_) => f.write_str("the bank refuses the call"),
            Fault::NoSuchRecord => f.write_str("the record's first byte is above 9"),
            Fault::Number(fault) => fault.fmt(f),
            Fault::NoRoom => f.write_str("under 8 bytes of output are free"),
            Fault::TooLong => f.write_str("the input has more than 32,768 bytes"),
        }
    }
}

/// A fault with the place that is told with it.
#[derive(Clone, Copy, Drop, PartialEq, Eq, Debug)]
pub struct Placed {
    pub fault: Fault,
    pub place: usize,
}
