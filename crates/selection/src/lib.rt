// Selection: operands, the containment bound, and selectors, which choose each digit from a few leading bits.
#![tactic(auto)]

ghost use Rattle.std.specs.Prelude.{◌≡◌, ℕ};
ghost use Rattle.arithmetic.specs.Estimates.{shortfall};
ghost use Rattle.selection.specs.Selectors.{SelectorModel, LawfulSelector, Named, beyond};

pub mod operand;
pub mod operands;
pub mod radix2;
pub mod radix4;
pub mod refusal;
pub mod start;

use start::Start;

/// A selector: a radix 2^b, digits from -a to a, and the choice of each digit from two estimates, that of the shifted residual in units
/// of 2^-t and that of the product in units of 2^-d. None of its functions refuses, and each depends on what is passed to it alone.
///
/// The constants stand in contracts under their own names, and a law ties them to the model.
pub trait Selector {
    /// The bits b of a digit.
    const B: u32;

    ghost B: { ℕ };

    /// The largest digit a.
    const A: u32;

    ghost A: { ℕ };

    /// The places t of the residual's estimate.
    const T: u32;

    ghost T: { ℕ };

    /// The places d of the product's estimate.
    const D: u32;

    ghost D: { ℕ };

    ghost model: { Self → SelectorModel };

    /// States the laws of the selector; it does nothing when it runs.
    fn lawful(&self)
        ensures { LawfulSelector shortfall (model self.now) };

    /// Gives the start for an operand x of width K.
    fn start(&self, k: u32, x: u32) -> Start
        ensures { result ≡ (model self.now).start k x };

    /// Chooses a digit from the estimates of the shifted residual and of the product.
    fn digit(&self, residual: i64, product: i64) -> i64
        ensures { result ≡ (model self.now).digit residual product };

    // The model's constants are those that the code reads.
    ghost named: { (selector : Self) → Named B A T D (model selector) };
}

/// Tells whether an estimate lies beyond 2^40 units, where the delivered selectors answer 0.
pub(crate) fn is_beyond(estimate: i64) -> bool
    ensures { result ≡ beyond estimate }
{
    estimate < -(1 << 40) || estimate > 1 << 40
}
