ghost use Rattle.std.specs.Prelude.{◌≤◌};

/// The place u from which an estimate keeps a number's bits, from 0 to 60.
#[derive(Clone, Copy, Drop, PartialEq, Eq, Debug)]
pub struct Cut {
    pub place: u32,
    ghost within: { place ≤ 60 },
}
