ghost use Rattle.std.specs.Prelude.{◌≡◌, ◌≤◌, Bool, length, nat_le};

use crate::record::Record;

/// A reader over the caller's bytes, which hands out record by record.
#[derive(Drop)]
pub struct Reader<'a> {
    pub(crate) input: &'a [u8],
    pub(crate) at: usize,
    ghost inside: { at ≤ length input.now },
}

/// A record with its place, that of its first byte.
#[derive(Clone, Copy, Drop, PartialEq, Eq, Debug)]
pub struct Found<'a> {
    pub place: usize,
    pub record: Record<'a>,
}

impl<'a> Reader<'a> {
    /// Makes a reader that stands before the first record.
    pub fn new(input: &'a [u8]) -> Reader<'a>
        ensures same { result.input.now ≡ input.now }
        ensures start { result.at ≡ 0 }
    {
        Reader { input, at: 0 }
    }

    /// Gives the place of the next record, which at the end is that of the end.
    pub fn place(&self) -> usize
        ensures { result ≡ self.now.at }
    {
        self.at
    }

    /// Tells whether all bytes are read.
    pub fn is_at_end(&self) -> bool
        ensures { result ≡ nat_le (length self.now.input.now) self.now.at }
    {
        self.place() >= self.input.len()
    }
}
