// The refusals of every layer, with their numbers.
ghost use Rattle.landmark.specs.Lists.{fault};
ghost use Rattle.landmark.specs.Refusals.{layer_of, number_of};
ghost use Rattle.std.specs.Prelude.{◌≡◌};

use std::fmt;

#[derive(Clone, Copy, PartialEq, Eq, Debug)]
pub enum Layer {
    List,
    Table,
    Scan,
}

// Why a call is refused. Each case's number is its place in the order in which a call is judged.
#[derive(Clone, Copy, PartialEq, Eq, Debug)]
pub enum Refusal {
    CutRecord = 1,
    UnknownRecord = 2,
    WrongBodySize = 3,
    BadValue = 4,
    Misplaced = 5,
    GapTooWide = 6,
    TooMany = 7,
    NoSpace = 8,
    TooManyRunBytes = 9,
    TableTooSmall = 10,
    EntryDiffers = 11,
    OrderOut = 12,
    BadLength = 13,
    OtherWords = 14,
    Idle = 15,
    WrongPlace = 16,
    Overrun = 17,
    NoSuchLandmark = 18,
    NotAnEntry = 19,
    BytesMissing = 20,
    Barred = 21,
    NoEnd = 22,
    EndAtLength = 23,
    OtherOrder = 24,
}

// A refusal with its detail: a place, a count or a number, as the refusal says.
#[derive(Clone, Copy, PartialEq, Eq, Debug)]
pub struct Fault {
    pub refusal: Refusal,
    pub detail: usize,
}

impl Refusal {
    pub fn number(self) -> u8
        ensures { result ≡ number_of self }
    {
        self as u8
    }

    pub fn layer(self) -> Layer
        ensures { result ≡ layer_of self }
    {
        // the numbers run through the layers in order, so three ranges are shorter than 24 names
        match self.number() {
            1..=8 => Layer::List,
            9..=11 => Layer::Table,
            _ => Layer::Scan,
        }
    }

    // The fault with this refusal and a detail.
    pub fn at(self, detail: usize) -> Fault
        ensures { result ≡ fault self detail }
    {
        Fault {
            refusal: self,
            detail,
        }
    }

    // What is wrong, in plain words.
    fn text(self) -> &'static str {
        match self {
            Refusal::CutRecord =>
                "the record is cut off: its length, or bytes that it counts, are missing",
            Refusal::UnknownRecord => "the record's length is below 2 or its kind is unknown",
            Refusal::WrongBodySize => "the size of the body does not fit the record's kind",
            Refusal::BadValue =>
                "the role is neither 1 nor 2, or the gap's counts are out of order or above 255",
            Refusal::Misplaced =>
                "a list begins with a start, a run follows each start, and each landmark ends with a run",
            Refusal::GapTooWide => "the operators in front of this run add up to more than 255",
            Refusal::TooMany => "a list has at most 32 landmarks and 64 runs",
            Refusal::NoSpace => "the record does not fit into the buffer",
            Refusal::TooManyRunBytes =>
                "a shift table serves at most 64 run bytes: use the link finder",
            Refusal::TableTooSmall => "the table has too few entries",
            Refusal::EntryDiffers => "the table is not the one that the list builds",
            Refusal::OrderOut => "an order is out: carry it out or strike it off first",
            Refusal::BadLength => "the announced length is 0 or above 1048576",
            Refusal::OtherWords => "the finder's words are not those of the list",
            Refusal::Idle => "the scan was not opened",
            Refusal::WrongPlace => "the block does not begin right behind the bytes taken",
            Refusal::Overrun => "the block goes past the announced length",
            Refusal::NoSuchLandmark => "the list has no such landmark",
            Refusal::NotAnEntry => "the landmark is a bar and not an entry",
            Refusal::BytesMissing => "the image is not whole yet",
            Refusal::Barred => "the image holds a barred landmark",
            Refusal::NoEnd => "the image does not hold the landmark",
            Refusal::EndAtLength => "nothing of the image lies behind the landmark",
            Refusal::OtherOrder => "this is not the order that is out",
        }
    }

    // What the detail of such a fault is.
    fn detail_is(self) -> &'static str {
        match self {
            Refusal::TooManyRunBytes => "run bytes",
            Refusal::TableTooSmall => "entries needed",
            Refusal::EntryDiffers => "first at entry",
            Refusal::OrderOut
            | Refusal::NoSuchLandmark
            | Refusal::NotAnEntry
            | Refusal::Barred
            | Refusal::NoEnd => "landmark",
            Refusal::BadLength | Refusal::Overrun => "announced",
            Refusal::OtherWords => "first at word",
            Refusal::Idle => "detail",
            Refusal::WrongPlace | Refusal::BytesMissing => "bytes taken",
            Refusal::EndAtLength => "end",
            Refusal::OtherOrder => "entry",
            _ => "at byte",
        }
    }
}

impl fmt::Display for Refusal {
    fn fmt<W: fmt::Write>(&self, f: &mut fmt::Formatter<W>) -> fmt::Result {
        f.write_str(self.text())
    }
}

// The number, the detail, and both in plain words.
impl fmt::Display for Fault {
    fn fmt<W: fmt::Write>(&self, f: &mut fmt::Formatter<W>) -> fmt::Result {
        let number = self.refusal.number();
        let detail = self.detail;
        let text = self.refusal.text();
        let is = self.refusal.detail_is();
        write!(f, "{number} {detail}: {text} ({is} {detail})")
    }
}
