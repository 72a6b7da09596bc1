ghost use Rattle.std.specs.Prelude.{◌≡◌, ◌<◌, Some, None, Ok, Err};
ghost use Rattle.records.specs.Reading.{Reads, Within};

use crate::bytes::Bytes;
use crate::fault::Placed;
use crate::reader::{Found, Reader};

impl<'a> Reader<'a> {
    /// Hands out the next record, where there is one. A fault leaves the reader where it is.
    // no `Iterator`: a fault leaves the reader where it is, and a loop would be handed it for ever
    #[tactic(auto, using(crate::proofs::Suffix::onward, crate::proofs::Suffix::placed_within))]
    pub fn next(&mut self) -> Result<Option<Found<'a>>, Placed>
        ensures same { self.new.input.now ≡ self.old.input.now }
        ensures ahead { elim result [ Ok o ↦ elim o [ Some x ↦ self.old.at < self.new.at | None ↦ Unit {0} ] | Err e ↦ Unit {0} ] }
        ensures within { Within self.old.input.now result }
        ensures reads { Reads self.old.input.now self.old.at self.new.at result }
    {
        if self.is_at_end() {
            return Ok(None);
        }
        let length = self.input.len();
        let place = self.at;
        let mut bytes = Bytes::new(&self.input[place..]);
        let record = bytes
            .record()
            .map_err(|defect| defect.placed(length, place))?;
        self.at = length - bytes.left();
        Ok(Some(Found { place, record }))
    }
}
