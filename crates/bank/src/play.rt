ghost use Rattle.std.specs.Prelude.{◌≡◌};
ghost use Rattle.protocol.specs.Plays.{played, replied, StandsInHistory};
ghost use Rattle.lanes.specs.Seen.{seen};
ghost use Rattle.bank.specs.Makes.{models, KeepsMake};

use crate::bank::Bank;
use number_form::NumberForm;
use protocol::call::Play;
use selection::Selector;

impl<S: Selector, F: NumberForm> Bank<S, F> {
    /// Makes the calls of a list, one upon the result of another, and writes down what each is answered.
    pub fn play(&mut self, plays: &mut [Play])
        ensures answers { plays.new ≡ replied (models S.model F.model self.old) (seen self.old.lanes) plays.old }
        ensures leaves { seen self.new.lanes ≡ played (models S.model F.model self.old) (seen self.old.lanes) plays.old }
        ensures history { StandsInHistory (models S.model F.model self.old) (seen self.old.lanes) plays.old plays.new (seen self.new.lanes) }
        ensures make { KeepsMake self.old self.new }
    {
        for play in plays.iter_mut() {
            let reply = self.answer(play.call);
            play.reply = Some(reply);
        }
    }
}
