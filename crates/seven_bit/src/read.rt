ghost use Rattle.std.specs.Prelude.{◌≡◌, ◌≤◌, length, Ok, Err};
ghost use Rattle.seven_bit.specs.Numbers.{number_of, number_at, ShortestRead};

use crate::fault::NumberFault;
use crate::split::first_and_rest;

/// Reads the number at the front of the bytes, and gives it with the bytes after it.
#[tactic(auto, using(crate::proofs::Shortest::shortest_read))]
pub fn read(bytes: &[u8]) -> Result<(u32, &[u8]), NumberFault>
    ensures is { elim result [ Ok p ↦ number_at bytes.now ≡ Ok (p.0, p.1.now) | Err e ↦ number_at bytes.now ≡ Err e ] }
    ensures within { elim result [ Ok p ↦ length p.1.now ≤ length bytes.now | Err e ↦ Unit {0} ] }
    ensures shortest { ShortestRead }
{
    groups(bytes, 4)
}

/// Reads a number of at most one group more than are left.
fn groups(bytes: &[u8], left: u8) -> Result<(u32, &[u8]), NumberFault>
    ensures is { elim result [ Ok p ↦ number_of left bytes.now ≡ Ok (p.0, p.1.now) | Err e ↦ number_of left bytes.now ≡ Err e ] }
    ensures within { elim result [ Ok p ↦ length p.1.now ≤ length bytes.now | Err e ↦ Unit {0} ] }
{
    let (group, rest) = first_and_rest(bytes).ok_or(NumberFault::Cut)?;
    if group < 128 {
        return Ok((u32::from(group), rest));
    }
    if left == 0 {
        return Err(NumberFault::Malformed);
    }
    let (high, after) = groups(rest, left - 1)?;
    if high == 0 || high >= 1 << 25 {
        return Err(NumberFault::Malformed);
    }
    Ok((u32::from(group - 128) + 128 * high, after))
}
