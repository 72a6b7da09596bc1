ghost use Rattle.std.specs.Prelude.{◌≡◌};
ghost use Rattle.exports.specs.Offers.{offered, by_offered};

use crate::fault::Fault;
use crate::task::Task;
use number_form::carry_save::CarrySave;
use number_form::plain::Plain;
use recurrence::make::Make;
use selection::radix2::Radix2;
use selection::radix4::Radix4;

/// A make that is offered to C.
#[derive(Clone, Copy, Drop, PartialEq, Eq, Debug)]
pub enum Offered {
    Radix2Plain,
    Radix4CarrySave,
}

/// Takes a make by its number: 0 is radix 2 over plain numbers, 1 radix 4 over carry-save numbers.
impl TryFrom<u32> for Offered {
    type Error = Fault;

    ghost try_from_gives = { λ make r. r ≡ offered make };

    fn try_from(make: u32) -> Result<Offered, Fault> {
        match make {
            0 => Ok(Offered::Radix2Plain),
            1 => Ok(Offered::Radix4CarrySave),
            _ => Err(Fault::Make),
        }
    }
}

impl Offered {
    /// Works a task off by the make.
    pub fn work<T: Task>(self, task: &T) -> T::Told
        ensures is { result ≡ by_offered (T.Task.gives task.now) self }
        ensures right { T.Task.right task.now result }
    {
        match self {
            Offered::Radix2Plain => task.by(&Make {
                selector: &Radix2,
                form: &Plain,
            }),
            Offered::Radix4CarrySave => task.by(&Make {
                selector: &Radix4,
                form: &CarrySave,
            }),
        }
    }
}
