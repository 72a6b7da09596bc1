ghost use Rattle.std.specs.Prelude.{◌≡◌, ◌≤◌, length};
ghost use Rattle.seven_bit.specs.Numbers.{encoded};

use crate::byte_list::ByteList;

/// Gives a number's groups, in its shortest form.
#[tactic(auto, using(crate::proofs::Encoding::begun, crate::proofs::Encoding::one_more, crate::proofs::Encoding::finished))]
pub fn encode(number: u32) -> ByteList<5>
    ensures is { result ≡ encoded number }
    ensures within { (1 ≤ length result) × (length result ≤ 5) }
{
    let mut groups = ByteList::new();
    let mut rest = number;
    while rest >= 128 {
        groups.push(128 + (rest % 128) as u8);
        rest /= 128;
    }
    groups.push(rest as u8);
    groups
}
