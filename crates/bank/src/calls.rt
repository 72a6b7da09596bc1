ghost use Rattle.std.specs.Prelude.{◌≡◌};
ghost use Rattle.protocol.specs.declared.call.Call.TheVariants.{Tick, Take, Ask};
ghost use Rattle.protocol.specs.declared.call.Request.TheVariants.{Load, Load32, Step, Look, Collect, Give};
ghost use Rattle.protocol.specs.Bank.{answer, after};
ghost use Rattle.lane_job.specs.Seen.{shown, FewMade};
ghost use Rattle.lanes.specs.Seen.{seen};
ghost use Rattle.lanes.specs.Replies.{done, took, stepped, told, ToldBelowEight};
ghost use Rattle.bank.specs.Makes.{models, KeepsMake};

use crate::bank::Bank;
use lane_job::serve::{serve_collect, serve_load, serve_load32, serve_look, serve_step};
use number_form::NumberForm;
use protocol::call::Name;
use protocol::refusal::Refusal;
use selection::Selector;
use single::answer::Answer;
use single::mode::Mode;

impl<S: Selector, F: NumberForm> Bank<S, F> {
    /// Loads a fixed-point job, by the hold's name: the operand x of width K, to be worked to Q places.
    // load, load32 and step find, serve and put alike; one function over a closure would save two lines of each, for a contract over `pre` and `post`
    pub fn load(&mut self, name: Name, k: u32, q: u32, x: u32) -> Result<(), Refusal>
        ensures answers { done result ≡ answer (models S.model F.model self.old) (seen self.old.lanes) (Ask name (Load k q x)) }
        ensures leaves { seen self.new.lanes ≡ after (models S.model F.model self.old) (seen self.old.lanes) (Ask name (Load k q x)) }
        ensures make { KeepsMake self.old self.new }
    {
        let holder = self.lanes.in_force(name)?;
        let job = serve_load(&self.make(), holder.job, k, q, x)?;
        self.lanes.put(name.lane, Some(holder.with_job(job)));
        Ok(())
    }

    /// Loads a single's job, by the hold's name.
    pub fn load32(&mut self, name: Name, word: u32) -> Result<(), Refusal>
        ensures answers { done result ≡ answer (models S.model F.model self.old) (seen self.old.lanes) (Ask name (Load32 word)) }
        ensures leaves { seen self.new.lanes ≡ after (models S.model F.model self.old) (seen self.old.lanes) (Ask name (Load32 word)) }
        ensures make { KeepsMake self.old self.new }
    {
        let holder = self.lanes.in_force(name)?;
        let job = serve_load32(&self.make(), holder.job, word)?;
        self.lanes.put(name.lane, Some(holder.with_job(job)));
        Ok(())
    }

    /// Makes the lesser of the count and the digits left, by the hold's name, and tells how many.
    pub fn step(&mut self, name: Name, count: u32) -> Result<u32, Refusal>
        ensures answers { stepped result ≡ answer (models S.model F.model self.old) (seen self.old.lanes) (Ask name (Step count)) }
        ensures leaves { seen self.new.lanes ≡ after (models S.model F.model self.old) (seen self.old.lanes) (Ask name (Step count)) }
        ensures make { KeepsMake self.old self.new }
    {
        let holder = self.lanes.in_force(name)?;
        let (digits, job) = serve_step(&self.make(), holder.job, count)?;
        self.lanes.put(name.lane, Some(holder.with_job(job)));
        Ok(digits)
    }

    /// Frees the lane, by the hold's name.
    pub fn give(&mut self, name: Name) -> Result<(), Refusal>
        ensures answers { done result ≡ answer (models S.model F.model self.old) (seen self.old.lanes) (Ask name Give) }
        ensures leaves { seen self.new.lanes ≡ after (models S.model F.model self.old) (seen self.old.lanes) (Ask name Give) }
        ensures make { KeepsMake self.old self.new }
    {
        let _ = self.lanes.in_force(name)?;
        self.lanes.put(name.lane, None);
        Ok(())
    }

    /// Tells word and marks in a mode, by the hold's name, and frees the lane. What becomes of the marks is the caller's.
    pub fn collect(&mut self, name: Name, mode: Mode) -> Result<Answer, Refusal>
        ensures answers { told result ≡ answer (models S.model F.model self.old) (seen self.old.lanes) (Ask name (Collect mode)) }
        ensures leaves { seen self.new.lanes ≡ after (models S.model F.model self.old) (seen self.old.lanes) (Ask name (Collect mode)) }
        ensures make { KeepsMake self.old self.new }
    {
        let answer = self.tell(name, mode)?;
        self.lanes.put(name.lane, None);
        Ok(answer)
    }

    /// Tells the digits made and the partial result, by the hold's name.
    pub fn look(&self, name: Name) -> Result<(u32, u32), Refusal>
        ensures answers { shown result ≡ answer (models S.model F.model self.now) (seen self.now.lanes) (Ask name Look) }
        ensures few { FewMade result }
        ensures leaves { seen self.now.lanes ≡ after (models S.model F.model self.now) (seen self.now.lanes) (Ask name Look) }
    {
        let holder = self.lanes.in_force(name)?;
        serve_look(&self.make(), holder.job)
    }

    /// Tells the word and the marks that a collect in a mode would tell, by the hold's name, and leaves the lane held.
    pub fn tell(&self, name: Name, mode: Mode) -> Result<Answer, Refusal>
        ensures answers { told result ≡ answer (models S.model F.model self.now) (seen self.now.lanes) (Ask name (Collect mode)) }
        ensures lane { ToldBelowEight name.lane result }
    {
        let holder = self.lanes.in_force(name)?;
        serve_collect(&self.make(), holder.job, mode)
    }

    /// Sets the clock, frees every lane whose deadline it reaches, and drops the jobs of those.
    pub fn tick(&mut self, time: u32) -> Result<(), Refusal>
        ensures answers { done result ≡ answer (models S.model F.model self.old) (seen self.old.lanes) (Tick time) }
        ensures leaves { seen self.new.lanes ≡ after (models S.model F.model self.old) (seen self.old.lanes) (Tick time) }
        ensures make { KeepsMake self.old self.new }
    {
        self.lanes.tick(time)
    }

    /// Takes a lane for some ticks, and tells the serial; lane and serial are the hold's name.
    pub fn take(&mut self, lane: u32, ticks: u32) -> Result<u32, Refusal>
        ensures answers { took result ≡ answer (models S.model F.model self.old) (seen self.old.lanes) (Take lane ticks) }
        ensures leaves { seen self.new.lanes ≡ after (models S.model F.model self.old) (seen self.old.lanes) (Take lane ticks) }
        ensures make { KeepsMake self.old self.new }
    {
        self.lanes.take(lane, ticks)
    }
}
