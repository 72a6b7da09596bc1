use protocol::call::{Call, Name};

/// A record of a stream.
#[derive(Clone, Copy, Drop, PartialEq, Eq, Debug)]
pub enum Record<'a> {
    /// A note with its label, which is a part of the input.
    Note(&'a [u8]),
    /// A call of a bank.
    Call(Call),
    /// A collect by the number of its mode, which may be that of no mode, and so is no call yet.
    Collect { name: Name, mode: u32 },
    /// The marks raised so far are asked for.
    Marks,
}
