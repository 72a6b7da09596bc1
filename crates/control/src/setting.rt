ghost use Rattle.std.specs.Prelude.{◌≡◌};
ghost use Rattle.control.specs.Controls.{in_mode};

use crate::collecting::Collecting;
use crate::control::Control;
use crate::span::Span;
use single::marks::Marks;
use single::mode::Mode;

impl Collecting for Control {
    ghost control = { λ c. c };

    ghost keeps = { λ _ _. Unit {0} };

    ghost stays = { λ _. tt };

    fn mode(&self) -> Mode {
        self.mode
    }

    fn marks(&self) -> Marks {
        self.marks
    }

    fn raise(&mut self, marks: Marks) {
        self.marks = self.marks.union(marks);
    }
}

impl Control {
    /// Sets the mode, for good.
    pub fn set_mode(&mut self, mode: Mode)
        ensures { self.new ≡ in_mode self.old mode }
    {
        self.mode = mode;
    }

    /// Sets a mode for a while: until the span's end, when the earlier mode comes back.
    pub fn spanned(&mut self, mode: Mode) -> Span<'_>
        ensures same { result.control.ghost_name ≡ self.entry.ghost_name }
        ensures set { result.control.now ≡ in_mode self.old mode }
        ensures earlier { result.earlier ≡ self.old.mode }
    {
        let earlier = self.mode();
        self.set_mode(mode);
        Span {
            control: self,
            earlier,
        }
    }
}
