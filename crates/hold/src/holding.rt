ghost use Rattle.std.specs.Prelude.{◌≡◌};
ghost use Rattle.protocol.specs.declared.call.Call.TheVariants.{Take, Ask};
ghost use Rattle.protocol.specs.declared.call.Request.TheVariants.{Load, Load32, Step, Look, Collect, Give};
ghost use Rattle.protocol.specs.Bank.{answer, after};
ghost use Rattle.lane_job.specs.Seen.{shown};
ghost use Rattle.lanes.specs.Seen.{seen};
ghost use Rattle.lanes.specs.Replies.{done, stepped};
ghost use Rattle.hold.specs.Holds.{TakenBy, GivenBy, CollectedBy};
ghost use Rattle.bank.specs.Makes.{models, KeepsMake};

use crate::hold::{Hold, Rejected};
use bank::bank::Bank;
use control::collecting::Collecting;
use number_form::NumberForm;
use protocol::call::Name;
use protocol::refusal::Refusal;
use selection::Selector;
use single::answer::Answer;

// Each call is the bank's by numbers. Both exist: a stream names holds by numbers, and a `Hold` can't be used twice.
impl Hold {
    /// Takes a lane of a bank for some ticks.
    pub fn take<S: Selector, F: NumberForm>(
        bank: &mut Bank<S, F>,
        lane: u32,
        ticks: u32,
    ) -> Result<Hold, Refusal>
        ensures answers { TakenBy (models S.model F.model bank.old) (seen bank.old.lanes) lane ticks result }
        ensures leaves { seen bank.new.lanes ≡ after (models S.model F.model bank.old) (seen bank.old.lanes) (Take lane ticks) }
        ensures make { KeepsMake bank.old bank.new }
    {
        let serial = bank.take(lane, ticks)?;
        Ok(Hold {
            numbers: Name { lane, serial },
        })
    }

    /// Loads a fixed-point job: the operand x of width K, to be worked to Q places.
    // K, Q and x one by one, in every call that loads: the three are an operand only once the bank has checked them
    pub fn load<S: Selector, F: NumberForm>(
        &self,
        bank: &mut Bank<S, F>,
        k: u32,
        q: u32,
        x: u32,
    ) -> Result<(), Refusal>
        ensures answers { done result ≡ answer (models S.model F.model bank.old) (seen bank.old.lanes) (Ask self.now.numbers (Load k q x)) }
        ensures leaves { seen bank.new.lanes ≡ after (models S.model F.model bank.old) (seen bank.old.lanes) (Ask self.now.numbers (Load k q x)) }
        ensures make { KeepsMake bank.old bank.new }
    {
        bank.load(self.name(), k, q, x)
    }

    /// Loads a single's job.
    pub fn load32<S: Selector, F: NumberForm>(
        &self,
        bank: &mut Bank<S, F>,
        word: u32,
    ) -> Result<(), Refusal>
        ensures answers { done result ≡ answer (models S.model F.model bank.old) (seen bank.old.lanes) (Ask self.now.numbers (Load32 word)) }
        ensures leaves { seen bank.new.lanes ≡ after (models S.model F.model bank.old) (seen bank.old.lanes) (Ask self.now.numbers (Load32 word)) }
        ensures make { KeepsMake bank.old bank.new }
    {
        bank.load32(self.name(), word)
    }

    /// Makes the lesser of the count and the digits left, and tells how many.
    pub fn step<S: Selector, F: NumberForm>(
        &self,
        bank: &mut Bank<S, F>,
        count: u32,
    ) -> Result<u32, Refusal>
        ensures answers { stepped result ≡ answer (models S.model F.model bank.old) (seen bank.old.lanes) (Ask self.now.numbers (Step count)) }
        ensures leaves { seen bank.new.lanes ≡ after (models S.model F.model bank.old) (seen bank.old.lanes) (Ask self.now.numbers (Step count)) }
        ensures make { KeepsMake bank.old bank.new }
    {
        bank.step(self.name(), count)
    }

    /// Tells the digits made and the partial result.
    pub fn look<S: Selector, F: NumberForm>(&self, bank: &Bank<S, F>) -> Result<(u32, u32), Refusal>
        ensures answers { shown result ≡ answer (models S.model F.model bank.now) (seen bank.now.lanes) (Ask self.now.numbers Look) }
        ensures leaves { seen bank.now.lanes ≡ after (models S.model F.model bank.now) (seen bank.now.lanes) (Ask self.now.numbers Look) }
    {
        bank.look(self.name())
    }

    /// Tells word and marks in the mode of a control, or of a span that stands for one, adds the marks to it, frees the lane and uses up the
    /// hold.
    pub fn collect<S: Selector, F: NumberForm, C: Collecting>(
        self,
        bank: &mut Bank<S, F>,
        control: &mut C,
    ) -> Result<Answer, Rejected>
        ensures keeps { C.keeps control.old control.new }
        ensures answers { CollectedBy (models S.model F.model bank.old) (seen bank.old.lanes) self (C.control control.old) (C.control control.new) result }
        ensures leaves { seen bank.new.lanes ≡ after (models S.model F.model bank.old) (seen bank.old.lanes) (Ask self.numbers (Collect (C.control control.old).mode)) }
        ensures make { KeepsMake bank.old bank.new }
    {
        let answer = bank
            .collect(self.name(), control.mode())
            .map_err(|refusal| Rejected {
                hold: self,
                refusal,
            })?;
        control.raise(answer.marks);
        Ok(answer)
    }

    /// Frees the lane and uses up the hold.
    pub fn give<S: Selector, F: NumberForm>(self, bank: &mut Bank<S, F>) -> Result<(), Rejected>
        ensures answers { GivenBy (models S.model F.model bank.old) (seen bank.old.lanes) self result }
        ensures leaves { seen bank.new.lanes ≡ after (models S.model F.model bank.old) (seen bank.old.lanes) (Ask self.numbers Give) }
        ensures make { KeepsMake bank.old bank.new }
    {
        bank.give(self.name()).map_err(|refusal| Rejected {
            hold: self,
            refusal,
        })
    }
}
