ghost use Rattle.std.specs.Prelude.{◌≡◌};
ghost use Rattle.exports.specs.Encoding.{packed_outcome, packed_answer, encoded};

use crate::fault::Fault;
use recurrence::registers::Outcome;
use single::answer::Answer;
use single::marks::Marks;

/// What a task comes to, by two numbers: its value and its marks.
#[derive(Clone, Copy, Drop, PartialEq, Eq, Debug)]
pub struct Packed {
    pub value: u32,
    pub marks: u32,
}

/// Takes f, with marks that are 1 for an inexact result.
impl From<Outcome> for Packed {
    ghost from_gives = { λ o r. r ≡ packed_outcome o };

    fn from(outcome: Outcome) -> Packed {
        Packed {
            value: outcome.f,
            marks: Marks::from(outcome).number(),
        }
    }
}

/// Takes the word, with the number of the marks.
impl From<Answer> for Packed {
    ghost from_gives = { λ a r. r ≡ packed_answer a };

    fn from(answer: Answer) -> Packed {
        Packed {
            value: answer.word,
            marks: answer.marks.number(),
        }
    }
}

/// Packs an answer into one number: value + marks 2^32, or a refusal's number times 2^40.
pub fn encode(answer: Result<Packed, Fault>) -> u64
    ensures { result ≡ encoded answer }
{
    match answer {
        Ok(packed) => u64::from(packed.value) + (u64::from(packed.marks) << 32),
        Err(fault) => u64::from(fault.number()) << 40,
    }
}
