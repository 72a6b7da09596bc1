// The function that simulators in C call.
#![tactic(auto)]

ghost use Rattle.std.specs.Prelude.{◌≡◌, ◌%◌, ◌^◌, ◌≤◌, None};
ghost use Rattle.selection.specs.Operands.{refusal};
ghost use Rattle.recurrence.specs.Root.{ReciprocalRoot};
ghost use Rattle.c_interface.specs.Answers.{answer, told, RootTold};

use exports::fault::Fault;
use exports::offered::Offered;
use exports::packed::{Packed, encode};
use recurrence::registers::Outcome;
use selection::operand::Operand;

/// Works a fixed-point operand off: `uint64_t rsqrt_fixed(uint32_t make, uint32_t k, uint32_t q, uint32_t x)`. Make 0 is radix 2 over plain
/// numbers, make 1 radix 4 over carry-save numbers. Answers f + marks 2^32, where marks is 1 for an inexact result, or a refusal's
/// number times 2^40.
#[unsafe(no_mangle)]
pub extern "C" fn rsqrt_fixed(make: u32, k: u32, q: u32, x: u32) -> u64
    ensures is { result ≡ told (answer make k q x) }
    ensures root { make ≤ 1 → refusal k q x ≡ None → ReciprocalRoot k q x (result % 2 ^ 32) }
{
    encode(answer(make, k, q, x).map(Packed::from))
}

/// Checks the make, then the operand, and works the operand off by the make.
fn answer(make: u32, k: u32, q: u32, x: u32) -> Result<Outcome, Fault>
    ensures is { result ≡ answer make k q x }
    ensures root { RootTold k q x result }
{
    let offered = Offered::try_from(make)?;
    let operand = Operand::new(k, q, x)?;
    Ok(offered.work(&operand))
}
