ghost use Rattle.std.specs.Prelude.{◌≡◌};
ghost use Rattle.protocol.specs.Operands.{make, Lawful};
ghost use Rattle.protocol.specs.Bank.{new, answer, after};
ghost use Rattle.protocol.specs.Promise.{RefusalsLeave, HoldersShare};
ghost use Rattle.lanes.specs.Seen.{seen};
ghost use Rattle.lanes.specs.Replies.{FewShown};
ghost use Rattle.protocol.specs.declared.call.Call.TheVariants.{Ask};
ghost use Rattle.bank.specs.Makes.{models, KeepsMake};

use crate::bank::Bank;
use lanes::lanes::Lanes;
use number_form::NumberForm;
use protocol::call::{Call, Name, Reply, Request};
use protocol::refusal::Refusal;
use selection::Selector;

impl<S: Selector, F: NumberForm> Bank<S, F> {
    /// Makes a bank: its clock is 0, its lanes are free and its next serial is 1. What any two holders share is promised here, since
    /// whoever has a bank has made one.
    // selector and form come apart here alone: a caller writes `Bank::new(Radix4, CarrySave)`, and the bank lends a `Make` of them
    pub fn new(selector: S, form: F) -> Bank<S, F>
        ensures fresh { seen result.lanes ≡ new }
        ensures selector { result.selector ≡ selector }
        ensures form { result.form ≡ form }
        ensures lawful { Lawful (make (S.Selector.model selector) (F.NumberForm.model form)) }
        ensures refusals { RefusalsLeave }
        ensures share { HoldersShare }
    {
        selector.lawful();
        form.lawful();
        Bank {
            selector,
            form,
            lanes: Lanes::new(),
        }
    }

    /// Makes one of the eight calls.
    // that few digits are shown is said of the answer: a look's digits and s are a pair of plain numbers, as a rule of the project has it
    pub fn answer(&mut self, call: Call) -> Result<Reply, Refusal>
        ensures few { FewShown result }
        ensures answers { result ≡ answer (models S.model F.model self.old) (seen self.old.lanes) call }
        ensures leaves { seen self.new.lanes ≡ after (models S.model F.model self.old) (seen self.old.lanes) call }
        ensures make { KeepsMake self.old self.new }
    {
        match call {
            Call::Tick { time } => self.tick(time).and(Ok(Reply::Done)),
            Call::Take { lane, ticks } => Ok(Reply::Took {
                serial: self.take(lane, ticks)?,
            }),
            Call::Ask { name, request } => self.answer_request(name, request),
        }
    }

    /// Makes one of the six calls with a hold.
    fn answer_request(&mut self, name: Name, request: Request) -> Result<Reply, Refusal>
        ensures few { FewShown result }
        ensures answers { result ≡ answer (models S.model F.model self.old) (seen self.old.lanes) (Ask name request) }
        ensures leaves { seen self.new.lanes ≡ after (models S.model F.model self.old) (seen self.old.lanes) (Ask name request) }
        ensures make { KeepsMake self.old self.new }
    {
        match request {
            Request::Load { k, q, x } => self.load(name, k, q, x).and(Ok(Reply::Done)),
            Request::Load32 { word } => self.load32(name, word).and(Ok(Reply::Done)),
            Request::Step { count } => Ok(Reply::Stepped {
                digits: self.step(name, count)?,
            }),
            Request::Look => {
                let (made, s) = self.look(name)?;
                Ok(Reply::Shown { made, s })
            }
            Request::Collect { mode } => Ok(Reply::Told(self.collect(name, mode)?)),
            Request::Give => self.give(name).and(Ok(Reply::Done)),
        }
    }
}
