ghost use Rattle.std.specs.Prelude.{◌≡◌};

use lanes::lanes::Lanes;
use recurrence::make::Make;

/// A bank of eight lanes, made of a selector and a number form.
#[derive(Drop)]
pub struct Bank<S, F> {
    pub(crate) selector: S,
    pub(crate) form: F,
    pub(crate) lanes: Lanes,
}

impl<S, F> Bank<S, F> {
    /// Lends selector and form.
    pub(crate) fn make(&self) -> Make<'_, S, F>
        ensures selector { result.selector.now ≡ self.now.selector }
        ensures form { result.form.now ≡ self.now.form }
    {
        Make {
            selector: &self.selector,
            form: &self.form,
        }
    }
}
