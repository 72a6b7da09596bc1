use protocol::call::Reply;
use single::marks::Marks;

/// What a record tells that nothing refuses.
#[derive(Clone, Copy, Drop)]
pub(crate) enum Told {
    /// The length of a note's label.
    Noted { length: u32 },
    /// The marks raised so far.
    Marked(Marks),
    /// The bank's reply.
    Called(Reply),
}
