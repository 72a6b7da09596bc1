// Whole numbers modulo 2^64, and the lemmas that the other crates share: estimates, squares, powers, a solver for ring identities.
#![tactic(auto)]

ghost use Rattle.std.specs.Prelude.{◌≡◌, pos, ◌-ℤ◌, ◌*ℤ◌};
ghost use Rattle.arithmetic.specs.Residues.{word, signed};

// Each function says by its contract what the library's word means in ℤ, which the laws of number forms and selectors speak of.

/// Gives the 64 bits of a signed number.
pub fn word_of(n: i64) -> u64
    ensures { result ≡ word n }
{
    n.cast_unsigned()
}

/// Reads 64 bits in two's complement.
pub fn signed_of(bits: u64) -> i64
    ensures { result ≡ signed bits }
{
    bits.cast_signed()
}

/// Multiplies a word by a signed number, modulo 2^64.
pub fn times(bits: u64, c: i64) -> u64
    ensures { result ≡ word (c *ℤ pos bits) }
{
    bits.wrapping_mul(word_of(c))
}

/// Subtracts a word from another, modulo 2^64.
pub fn difference(a: u64, b: u64) -> u64
    ensures { result ≡ word (pos a -ℤ pos b) }
{
    a.wrapping_sub(b)
}
