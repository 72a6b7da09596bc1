use crate::marks::Marks;

/// The result of an operation on singles: its word, and the marks raised.
#[derive(Clone, Copy, Drop, PartialEq, Eq, Debug)]
pub struct Answer {
    pub word: u32,
    pub marks: Marks,
}
