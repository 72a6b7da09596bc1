ghost use Rattle.std.specs.Prelude.{◌≡◌, true};
ghost use Rattle.selection.specs.Operands.{Checked, quarter};

use crate::operand::Operand;
use crate::refusal::Refusal;

impl Operand {
    /// Checks the width K, the places Q and the number x, in this order.
    // one by one: the three are an operand, and so a type, only once they are checked
    pub fn new(k: u32, q: u32, x: u32) -> Result<Operand, Refusal>
        ensures { Checked k q x result }
    {
        if k < 4 || k > 28 {
            return Err(Refusal::Width);
        }
        if q < 2 || q > 28 || q % 2 != 0 {
            return Err(Refusal::Places);
        }
        if x < 1 << (k - 2) || x >= 1 << k {
            return Err(Refusal::Range);
        }
        Ok(Operand { k, q, x })
    }

    /// Tells whether X is 1/4.
    pub fn is_quarter(self) -> bool
        ensures { result ≡ quarter self.k self.x }
    {
        self.x == 1 << (self.k - 2)
    }
}
