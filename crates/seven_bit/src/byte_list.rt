ghost use Rattle.std.specs.Prelude.{◌≡◌, ◌+◌, ◌<◌, ◌≤◌, [], ◌∷◌, ◌++◌, length};

use std::marker::Model;

/// A list of at most `N` bytes. Callers see the list of them.
// std has no list of bounded length without a heap: an array and a length, hidden here; past the length all is 0, so that the bytes seen tell both, which a
// copied type with a model needs
#[derive(Clone, Copy, Drop)]
pub struct ByteList<const N: usize> {
    bytes: [u8; N],
    count: usize,
}

impl<const N: usize> Model for ByteList<N> {
    ghost use Rattle.std.specs.Prelude.{◌≡◌, ℕ, ◌-◌, ◌≤◌, List, ◌++◌, length, take, drop, replicate};
    ghost use Rattle.std.proofs.Common.{ap, sym, ◌∙◌, take-append-drop, length-take-le};

    ghost Value = { List ℕ };

    ghost view = { λ list. take list.count list.bytes };

    ghost invariant = { λ list. (list.count ≤ length list.bytes) × (length list.bytes ≡ N) × (drop list.count list.bytes ≡ replicate (N - list.count) 0) };

    ghost inverse = { λ bytes. record { bytes = bytes ++ replicate (N - length bytes) 0; count = length bytes } };

    ghost inverse_ok = { λ list h i. record {
      bytes = (ap (λ (n : ℕ). take list.count list.bytes ++ replicate (N - n) 0) (length-take-le list.count list.bytes h.0) ∙ ap (λ (rest : List ℕ). take list.count list.bytes ++ rest) (sym h.2) ∙ take-append-drop list.count list.bytes) i;
      count = length-take-le list.count list.bytes h.0 i;
    } };
}

impl<const N: usize> ByteList<N> {
    /// Makes a list of no byte.
    pub fn new() -> ByteList<N>
        ensures { result ≡ [] }
    {
        ByteList {
            bytes: [0; N],
            count: 0,
        }
    }

    /// Adds a byte at the end; a full list stays as it is.
    pub fn push(&mut self, byte: u8)
        ensures adds { length self.old < N → self.new ≡ self.old ++ byte ∷ [] }
        ensures full { N ≤ length self.old → self.new ≡ self.old }
    {
        if self.count < N {
            self.bytes[self.count] = byte;
            self.count += 1;
        }
    }

    /// Adds some bytes at the end; where they don't all fit, the list stays as it is.
    pub fn extend(&mut self, more: &[u8])
        ensures adds { length self.old + length more.now ≤ N → self.new ≡ self.old ++ more.now }
        ensures full { N < length self.old + length more.now → self.new ≡ self.old }
    {
        if more.len() <= N - self.count {
            let end = self.count + more.len();
            // a part of the array itself is not lent yet where its length is a const parameter
            let slots = &mut self.bytes[..];
            slots[self.count..end].copy_from_slice(more);
            self.count = end;
        }
    }

    /// Gives the bytes.
    pub fn as_slice(&self) -> &[u8]
        ensures is { result.now ≡ self.now }
        ensures within { length self.now ≤ N }
    {
        &self.bytes[..self.count]
    }
}
