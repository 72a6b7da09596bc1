/// A make of the twin: a selector, and the number form in which it works, both lent.
#[derive(Clone, Copy, Drop)]
pub struct Make<'a, S, F> {
    pub selector: &'a S,
    pub form: &'a F,
}
