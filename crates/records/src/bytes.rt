ghost use Rattle.std.specs.Prelude.{◌≡◌, length};
ghost use Rattle.records.specs.Records.{item, Gives, numbered, named, labelled, kind_at, record_at};

use crate::defect::Defect;
use crate::kind::Kind;
use crate::record::Record;
use protocol::call::{Call, Name, Request};
use seven_bit::fault::NumberFault;
use seven_bit::read::read;
use seven_bit::split::first_and_rest;

/// Bytes that are read from the front, part by part.
#[derive(Drop)]
pub(crate) struct Bytes<'a> {
    rest: &'a [u8],
}

impl<'a> Bytes<'a> {
    /// Makes what reads these bytes.
    pub(crate) fn new(rest: &'a [u8]) -> Bytes<'a>
        ensures { result.rest.now ≡ rest.now }
    {
        Bytes { rest }
    }

    /// Counts the bytes that are left.
    pub(crate) fn left(&self) -> usize
        ensures { result ≡ length self.now.rest.now }
    {
        self.rest.len()
    }

    /// Reads a record.
    pub(crate) fn record(&mut self) -> Result<Record<'a>, Defect>
        ensures { Gives record_at item self.old.rest.now self.new.rest.now result }
    {
        match self.kind()? {
            Kind::Note => Ok(Record::Note(self.label()?)),
            Kind::Tick => Ok(Record::Call(Call::Tick {
                time: self.number()?,
            })),
            Kind::Take => Ok(Record::Call(Call::Take {
                lane: self.number()?,
                ticks: self.number()?,
            })),
            Kind::Load => Ok(Record::Call(Call::Ask {
                name: self.name()?,
                request: Request::Load {
                    k: self.number()?,
                    q: self.number()?,
                    x: self.number()?,
                },
            })),
            Kind::Load32 => Ok(Record::Call(Call::Ask {
                name: self.name()?,
                request: Request::Load32 {
                    word: self.number()?,
                },
            })),
            Kind::Step => Ok(Record::Call(Call::Ask {
                name: self.name()?,
                request: Request::Step {
                    count: self.number()?,
                },
            })),
            Kind::Look => Ok(Record::Call(Call::Ask {
                name: self.name()?,
                request: Request::Look,
            })),
            Kind::Collect => Ok(Record::Collect {
                name: self.name()?,
                mode: self.number()?,
            }),
            Kind::Give => Ok(Record::Call(Call::Ask {
                name: self.name()?,
                request: Request::Give,
            })),
            Kind::Marks => Ok(Record::Marks),
        }
    }

    /// Reads the first byte of a record.
    fn kind(&mut self) -> Result<Kind, Defect>
        ensures { Gives kind_at (λ k. k) self.old.rest.now self.new.rest.now result }
    {
        let (first, rest) = first_and_rest(self.rest).ok_or(Defect::Cut)?;
        self.rest = rest;
        Kind::try_from(first)
    }

    /// Reads a label: its length, and that many bytes.
    fn label(&mut self) -> Result<&'a [u8], Defect>
        ensures { Gives labelled (λ l. l.now) self.old.rest.now self.new.rest.now result }
    {
        let count = self.number()? as usize;
        let (label, rest) = self.rest.split_at_checked(count).ok_or(Defect::Cut)?;
        self.rest = rest;
        Ok(label)
    }

    /// Reads the name of a hold: its lane and its serial.
    fn name(&mut self) -> Result<Name, Defect>
        ensures { Gives named (λ n. n) self.old.rest.now self.new.rest.now result }
    {
        Ok(Name {
            lane: self.number()?,
            serial: self.number()?,
        })
    }

    /// Reads a number; a malformed one is told by how many bytes there are from its first one on.
    fn number(&mut self) -> Result<u32, Defect>
        ensures { Gives numbered (λ n. n) self.old.rest.now self.new.rest.now result }
    {
        let left = self.left();
        let (number, rest) = read(self.rest).map_err(|fault| match fault {
            NumberFault::Malformed => Defect::Wrong(left),
            NumberFault::Cut => Defect::Cut,
        })?;
        self.rest = rest;
        Ok(number)
    }
}
