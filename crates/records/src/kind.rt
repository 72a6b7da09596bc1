ghost use Rattle.std.specs.Prelude.{◌≡◌};
ghost use Rattle.records.specs.Records.{kind_of};

use crate::defect::Defect;

/// The kind of a record, which its first byte tells.
#[derive(Clone, Copy, Drop, PartialEq, Eq, Debug)]
pub(crate) enum Kind {
    Note,
    Tick,
    Take,
    Load,
    Load32,
    Step,
    Look,
    Collect,
    Give,
    Marks,
}

impl TryFrom<u8> for Kind {
    type Error = Defect;

    ghost try_from_gives = { λ first kind. kind ≡ kind_of first };

    /// Gives the kind of record with a first byte.
    fn try_from(first: u8) -> Result<Kind, Defect> {
        match first {
            0 => Ok(Kind::Note),
            1 => Ok(Kind::Tick),
            2 => Ok(Kind::Take),
            3 => Ok(Kind::Load),
            4 => Ok(Kind::Load32),
            5 => Ok(Kind::Step),
            6 => Ok(Kind::Look),
            7 => Ok(Kind::Collect),
            8 => Ok(Kind::Give),
            9 => Ok(Kind::Marks),
            _ => Err(Defect::Unknown),
        }
    }
}
