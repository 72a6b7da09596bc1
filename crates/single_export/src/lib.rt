// Singles for C: a function made for comparing the twin with another implementation on very many words.
#![tactic(auto)]

ghost use Rattle.std.specs.Prelude.{◌≡◌};
ghost use Rattle.single_export.specs.Answers.{answer, told, RightTold};

use exports::fault::Fault;
use exports::offered::Offered;
use exports::packed::{Packed, encode};
use exports::task::SingleTask;
use single::answer::Answer;
use single::mode::Mode;

/// Gives the reciprocal square root of a single: `uint64_t rsqrt_single(uint32_t make, uint32_t word, uint32_t mode)`. Make 0 is radix 2 over
/// plain numbers, make 1 radix 4 over carry-save numbers. Answers word + marks 2^32, or a refusal's number times 2^40.
#[unsafe(no_mangle)]
pub extern "C" fn rsqrt_single(make: u32, word: u32, mode: u32) -> u64
    ensures is { result ≡ told (answer make word mode) }
    ensures right { RightTold word mode (answer make word mode) }
{
    encode(answer(make, word, mode).map(Packed::from))
}

/// Checks the make, then the mode, and works the single off by the make.
fn answer(make: u32, word: u32, mode: u32) -> Result<Answer, Fault>
    ensures is { result ≡ answer make word mode }
    ensures right { RightTold word mode result }
{
    let offered = Offered::try_from(make)?;
    let mode = Mode::try_from(mode)?;
    Ok(offered.work(&SingleTask { word, mode }))
}
