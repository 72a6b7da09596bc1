ghost use Rattle.std.specs.Prelude.{◌≡◌};

use protocol::call::Name;
use protocol::refusal::Refusal;

/// A hold: a lane for some ticks. Only a take makes one, and a give or an accepted collect uses it up.
#[derive(Drop)]
pub struct Hold {
    pub(crate) numbers: Name,
}

impl Hold {
    /// Gives the hold's numbers.
    pub fn name(&self) -> Name
        ensures { result ≡ self.now.numbers }
    {
        self.numbers
    }
}

/// A hold that comes back, with the reason why its use was refused.
#[derive(Drop)]
pub struct Rejected {
    pub hold: Hold,
    pub refusal: Refusal,
}
