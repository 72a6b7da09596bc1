ghost use Rattle.std.specs.Prelude.{◌≡◌, refl};
ghost use Rattle.control.specs.Controls.{in_mode};

use crate::collecting::Collecting;
use crate::control::Control;
use single::marks::Marks;
use single::mode::Mode;

/// A mode for a while. A span has the one reference to its control; at its end, on every way out, it puts the earlier mode back, and the
/// marks raised stay.
pub struct Span<'a> {
    pub(crate) control: &'a mut Control,
    pub(crate) earlier: Mode,
}

impl Drop for Span<'_> {
    fn drop(self)
        ensures { self.exit.0.now ≡ in_mode self.entry.control.now self.entry.earlier }
    {
        self.control.mode = self.earlier;
        let Span {
            control: _,
            earlier: _,
        } = self;
    }
}

impl Collecting for Span<'_> {
    ghost control = { λ s. s.control.now };

    // The span keeps its control and the mode that comes back.
    ghost keeps = { λ before after. (after.control.ghost_name ≡ before.control.ghost_name) × (after.earlier ≡ before.earlier) };

    ghost stays = { λ _. (refl, refl) };

    fn mode(&self) -> Mode {
        self.control.mode()
    }

    fn marks(&self) -> Marks {
        self.control.marks()
    }

    fn raise(&mut self, marks: Marks) {
        self.control.raise(marks);
    }
}
