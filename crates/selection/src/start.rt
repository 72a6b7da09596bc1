ghost use Rattle.std.specs.Prelude.{◌≡◌};
ghost use Rattle.selection.specs.Starts.{halves};

/// The partial result S[0] that a job starts from.
#[derive(Clone, Copy, Drop, PartialEq, Eq, Debug)]
pub enum Start {
    One,
    ThreeHalves,
    Two,
}

impl Start {
    /// Counts the start in halves.
    // no `From`: the name says what is counted, and `u32::from` would not
    pub fn halves(self) -> u32
        ensures { result ≡ halves self }
    {
        match self {
            Start::One => 2,
            Start::ThreeHalves => 3,
            Start::Two => 4,
        }
    }
}
