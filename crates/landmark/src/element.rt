// The elements of a list, one to a record.
ghost use Rattle.landmark.specs.Lists.{allowance};
ghost use Rattle.landmark.specs.Records.{Numbered, item, kind_number, kind_of, role_name, role_number};
ghost use Rattle.landmark.specs.Spacings.{capped};
ghost use Rattle.landmark.specs.Written.{Sized};
ghost use Rattle.landmark.specs.declared.refusal.Refusal.TheVariants.{BadValue};
ghost use Rattle.std.specs.Prelude.{◌≡◌, Some};

use crate::kind::Kind;
use crate::refusal::Refusal;
use crate::spacing::Spacing;
use std::fmt;

// The most bytes of a run.
pub const LONGEST_RUN: usize = 64;

// The most bytes that a gap may skip.
pub(crate) const WIDEST_GAP: u16 = 255;

// What a landmark is for: its end is where the image begins to run, or its presence bars the image.
#[derive(Clone, Copy, PartialEq, Eq, Debug)]
pub enum Role {
    Entry = 1,
    Bar = 2,
}

impl TryFrom<u16> for Role {
    type Error = Refusal;

    ghost try_from_gives = { Numbered role_number BadValue };

    fn try_from(number: u16) -> Result<Role, Refusal> {
        match number {
            1 => Ok(Role::Entry),
            2 => Ok(Role::Bar),
            _ => Err(Refusal::BadValue),
        }
    }
}

impl fmt::Display for Role {
    ghost output = { λ role. Some (role_name role) };

    fn fmt<W: fmt::Write>(&self, f: &mut fmt::Formatter<W>) -> fmt::Result {
        f.write_str(match self {
            Role::Entry => "entry",
            Role::Bar => "bar",
        })
    }
}

// A gap of at least `least` and at most `greatest` bytes of any value.
#[derive(Clone, Copy, PartialEq, Eq, Debug)]
pub struct Gap {
    pub least: u16,
    pub greatest: u16,
}

// One record of a list. A run is a part of the list's own bytes.
#[derive(Clone, Copy)]
pub enum Element<'a> {
    Start(Role),
    Run(&'a [u8]),
    Gap(Gap),
    Star,
    Any,
}

impl Element<'_> {
    // The size of its record's body, or why no record can stand for it.
    pub(crate) fn body_size(self) -> Result<u16, Refusal>
        ensures { Sized (item self.entry) result }
    {
        match self {
            Element::Start(_) => Ok(2),
            Element::Run(bytes) => {
                if bytes.is_empty() || bytes.len() > LONGEST_RUN {
                    return Err(Refusal::WrongBodySize);
                }
                Ok(bytes.len() as u16)
            }
            Element::Gap(gap) => {
                if gap.least > gap.greatest || gap.greatest > WIDEST_GAP {
                    return Err(Refusal::BadValue);
                }
                Ok(4)
            }
            Element::Star | Element::Any => Ok(0),
        }
    }

    // The kind of its record.
    pub(crate) fn kind(self) -> Kind
        ensures { kind_number result ≡ kind_of (item self.entry) }
    {
        match self {
            Element::Start(_) => Kind::Start,
            Element::Run(_) => Kind::Run,
            Element::Gap(_) => Kind::Gap,
            Element::Star => Kind::Star,
            Element::Any => Kind::Any,
        }
    }

    // The gap that an operator stands for, and none for a start or a run.
    #[inline(always)]
    pub fn allowance(self) -> Spacing
        ensures { result ≡ capped (allowance (item self.entry)) }
    {
        match self {
            Element::Start(_) | Element::Run(_) => Spacing::none(),
            Element::Gap(gap) => Spacing {
                least: gap.least,
                greatest: Some(gap.greatest),
            },
            Element::Star => Spacing {
                least: 0,
                greatest: None,
            },
            Element::Any => Spacing {
                least: 1,
                greatest: Some(1),
            },
        }
    }
}

// An element that was read, with the place of its record and the place after it.
#[derive(Clone, Copy)]
pub struct Read<'a> {
    pub place: usize,
    pub element: Element<'a>,
    pub next: usize,
}
