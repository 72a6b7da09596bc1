use crate::positive::Positive;
use crate::special::Special;

/// A single's word, decoded.
#[derive(Clone, Copy, Drop, PartialEq, Eq, Debug)]
pub enum Decoded {
    Special(Special),
    Positive(Positive),
}
