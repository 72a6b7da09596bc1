ghost use Rattle.std.specs.Prelude.{◌≡◌};
ghost use Rattle.single.specs.declared.mode.Mode.TheVariants.{Nearest};
ghost use Rattle.single.specs.MarkSets.{no_marks};

use single::marks::Marks;
use single::mode::Mode;

/// The mode in which results are collected, and the marks raised so far.
#[derive(Drop)]
pub struct Control {
    pub(crate) mode: Mode,
    pub(crate) marks: Marks,
}

impl Control {
    /// Makes a control in the mode nearest, with no marks raised.
    pub fn new() -> Control
        ensures { result ≡ record { mode = Nearest; marks = no_marks } }
    {
        Control {
            mode: Mode::Nearest,
            marks: Marks::NONE,
        }
    }
}
