ghost use Rattle.std.specs.Prelude.{◌≡◌, Some};
ghost use Rattle.seven_bit.specs.Numbers.{fault_number, fault_words};

use std::error::Error;
use std::fmt;

/// Why no number can be read.
#[derive(Clone, Copy, Drop, PartialEq, Eq, Debug)]
pub enum NumberFault {
    /// It is not in its shortest form, or is 2^32 and more.
    Malformed,
    /// The bytes end before it does.
    Cut,
}

impl NumberFault {
    /// Gives the number by which the fault is told to callers.
    // no `From`: the name says which number, and `u32::from` would not
    pub fn number(self) -> u32
        ensures { result ≡ fault_number self }
    {
        match self {
            NumberFault::Malformed => 15,
            NumberFault::Cut => 16,
        }
    }
}

impl fmt::Display for NumberFault {
    ghost output = { λ fault. Some (fault_words fault) };

    /// Says the fault in words.
    fn fmt<W: fmt::Write>(&self, f: &mut fmt::Formatter<W>) -> fmt::Result {
        f.write_str(match self {
            NumberFault::Malformed => "a number is not in its shortest form, or is 2^32 and more",
            NumberFault::Cut => "the input ends in a record",
        })
    }
}

impl Error for NumberFault {}
