ghost use Rattle.std.specs.Prelude.{◌≡◌};
ghost use Rattle.records.specs.Reading.{placed};

use crate::fault::{Fault, Placed};
use seven_bit::fault::NumberFault;

/// What is wrong with the bytes of a record, told without their place in the input.
#[derive(Clone, Copy, Drop, PartialEq, Eq, Debug)]
pub enum Defect {
    /// There is no record of this first byte.
    Unknown,
    /// A number is malformed; so many bytes there are from its first one to the end.
    Wrong(usize),
    /// The bytes end before the record does.
    Cut,
}

impl Defect {
    /// Gives the fault of a record at a place of an input of so many bytes, with the place that is told with it.
    pub(crate) fn placed(self, length: usize, place: usize) -> Placed
        ensures { result ≡ placed length place self }
    {
        match self {
            Defect::Unknown => Placed {
                fault: Fault::NoSuchRecord,
                place,
            },
            Defect::Wrong(left) => Placed {
                fault: NumberFault::Malformed.into(),
                place: length.saturating_sub(left),
            },
            Defect::Cut => Placed {
                fault: NumberFault::Cut.into(),
                place: length,
            },
        }
    }
}
