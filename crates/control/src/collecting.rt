ghost use Rattle.std.specs.Prelude.{◌≡◌};
ghost use Rattle.control.specs.declared.control.Control.{Control as ControlRecord};
ghost use Rattle.control.specs.Controls.{raised};

use single::marks::Marks;
use single::mode::Mode;

/// What a result is collected with: a control itself, or a span that stands for one.
pub trait Collecting {
    // The control as it stands.
    ghost control: { Self → ControlRecord };

    // What stays as it is when marks are raised.
    ghost keeps: { Self → Self → Type 0 };

    /// Gives the mode.
    fn mode(&self) -> Mode
        ensures { result ≡ (control self.now).mode };

    /// Gives the marks raised so far.
    fn marks(&self) -> Marks
        ensures { result ≡ (control self.now).marks };

    /// Adds marks to those raised so far.
    fn raise(&mut self, marks: Marks)
        ensures adds { control self.new ≡ raised (control self.old) marks }
        ensures keeps { keeps self.old self.new };

    // Where no marks are raised, all stays.
    ghost stays: { (c : Self) → keeps c c };
}
