ghost use Rattle.std.specs.Prelude.{◌≡◌, ◌+◌, ◌-◌, ◌^◌, ◌<◌, ◌≤◌, [], ◌∷◌, length, nat_lt, Ok};
ghost use Rattle.seven_bit.specs.Numbers.{encoded};
ghost use Rattle.lanes.specs.Replies.{FewShown};
ghost use Rattle.stream.specs.Answers.{bytes, Writes};
ghost use Rattle.stream.specs.Entries.{shown, stated};
ghost use Rattle.stream.specs.Tellings.{telling, IsShort};

use crate::told::Told;
use protocol::call::Reply;
use records::fault::Fault;

/// So many bytes an answer may have.
const ROOM: usize = 8;

/// A writer over the caller's bytes, which are written from the first one on.
#[derive(Drop)]
pub(crate) struct Writer<'a> {
    out: &'a mut [u8],
    at: usize,
    ghost inside: { at ≤ length out.now },
}

impl<'a> Writer<'a> {
    /// Makes a writer that has written nothing.
    pub(crate) fn new(out: &'a mut [u8]) -> Writer<'a>
        ensures same { result.out.ghost_name ≡ out.entry.ghost_name }
        ensures keeps { result.out.now ≡ out.old }
        ensures start { result.at ≡ 0 }
    {
        Writer { out, at: 0 }
    }

    /// Tells whether there may be no room for an answer.
    pub(crate) fn is_full(&self) -> bool
        ensures { result ≡ nat_lt (length self.now.out.now - self.now.at) 8 }
    {
        self.out.len() - self.at < ROOM
    }

    /// Counts the bytes that are written.
    pub(crate) fn used(&self) -> usize
        ensures { result ≡ self.now.at }
    {
        self.at
    }

    /// Writes an answer: 0 and what is told, or the number of a fault and a place.
    pub(crate) fn answer(&mut self, told: Result<Told, Fault>, place: u32)
        requires room { self.old.at + 8 ≤ length self.old.out.now }
        requires place { place < 2 ^ 21 }
        requires short { IsShort told }
        ensures same { self.new.out.ghost_name ≡ self.old.out.ghost_name }
        ensures writes { Writes self.old.at self.old.out.now self.new.at self.new.out.now (bytes (stated telling place told)) }
    {
        match told {
            Ok(Told::Noted { length }) => self.numbers(&[0, length]),
            Ok(Told::Marked(marks)) => self.numbers(&[0, marks.number()]),
            Ok(Told::Called(reply)) => self.reply(reply),
            Err(fault) => self.numbers(&[fault.number(), place]),
        }
    }

    /// Writes 0 and what a bank's reply tells.
    fn reply(&mut self, reply: Reply)
        requires room { self.old.at + 8 ≤ length self.old.out.now }
        requires short { FewShown (Ok reply) }
        ensures same { self.new.out.ghost_name ≡ self.old.out.ghost_name }
        ensures writes { Writes self.old.at self.old.out.now self.new.at self.new.out.now (bytes (shown reply)) }
    {
        match reply {
            Reply::Done => self.numbers(&[0]),
            Reply::Took { serial } => self.numbers(&[0, serial]),
            Reply::Stepped { digits } => self.numbers(&[0, digits]),
            Reply::Shown { made, s } => self.numbers(&[0, made, s]),
            Reply::Told(answer) => self.numbers(&[0, answer.word, answer.marks.number()]),
        }
    }

    /// Writes some numbers, one after the other.
    #[tactic(auto, using(crate::proofs::Written::wrote_none, crate::proofs::Written::wrote_more, crate::proofs::Written::more_fits))]
    fn numbers(&mut self, numbers: &[u32])
        requires room { self.old.at + 8 ≤ length self.old.out.now }
        requires short { length (bytes numbers.now) ≤ 8 }
        ensures same { self.new.out.ghost_name ≡ self.old.out.ghost_name }
        ensures writes { Writes self.old.at self.old.out.now self.new.at self.new.out.now (bytes numbers.now) }
    {
        for number in numbers {
            self.number(*number);
        }
    }

    /// Writes a number in its shortest form.
    // not by `encode`: it gives a list, and to move a list that was just filled byte by byte makes the processor wait; a record then took half as long again
    #[tactic(auto, using(crate::proofs::Grouping::begun, crate::proofs::Grouping::one_more, crate::proofs::Grouping::finished, crate::proofs::Grouping::room))]
    fn number(&mut self, number: u32)
        requires { self.old.at + length (encoded number) ≤ length self.old.out.now }
        ensures same { self.new.out.ghost_name ≡ self.old.out.ghost_name }
        ensures writes { Writes self.old.at self.old.out.now self.new.at self.new.out.now (encoded number) }
    {
        let mut rest = number;
        while rest >= 128 {
            self.byte(128 + (rest % 128) as u8);
            rest /= 128;
        }
        self.byte(rest as u8);
    }

    /// Writes a byte.
    fn byte(&mut self, byte: u8)
        requires { self.old.at < length self.old.out.now }
        ensures same { self.new.out.ghost_name ≡ self.old.out.ghost_name }
        ensures writes { Writes self.old.at self.old.out.now self.new.at self.new.out.now (byte ∷ []) }
    {
        self.out[self.at] = byte;
        self.at += 1;
    }
}
