ghost use Rattle.std.specs.Prelude.{◌≡◌};
ghost use Rattle.number_form.specs.Shifts.{places};

/// By how many places a number is shifted left.
#[derive(Clone, Copy, Drop, PartialEq, Eq, Debug)]
pub enum Shift {
    One,
    Two,
}

impl Shift {
    /// Counts the places.
    // no `From`: the name says what is counted, and `u32::from` would not
    pub fn places(self) -> u32
        ensures { result ≡ places self }
    {
        match self {
            Shift::One => 1,
            Shift::Two => 2,
        }
    }
}
