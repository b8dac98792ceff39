// The kinds of records, by their numbers.
ghost use Rattle.landmark.specs.Records.{Numbered, kind_number};
ghost use Rattle.landmark.specs.declared.refusal.Refusal.TheVariants.{UnknownRecord};
ghost use Rattle.std.specs.Prelude.{◌≡◌};

use crate::refusal::Refusal;

// What a record is, by the number behind its length.
#[derive(Clone, Copy, PartialEq, Eq, Debug)]
pub(crate) enum Kind {
    Start = 1,
    Run = 2,
    Gap = 3,
    Star = 4,
    Any = 5,
}

impl Kind {
    // The number that stands in the record.
    pub(crate) fn number(self) -> u16
        ensures { result ≡ kind_number self }
    {
        self as u16
    }
}

impl TryFrom<u16> for Kind {
    type Error = Refusal;

    ghost try_from_gives = { Numbered kind_number UnknownRecord };

    fn try_from(number: u16) -> Result<Kind, Refusal> {
        match number {
            1 => Ok(Kind::Start),
            2 => Ok(Kind::Run),
            3 => Ok(Kind::Gap),
            4 => Ok(Kind::Star),
            5 => Ok(Kind::Any),
            _ => Err(Refusal::UnknownRecord),
        }
    }
}
