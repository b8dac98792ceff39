// Where the words of a list end in an image.
use bits::SetBits;
use finder::Finder;
use landmark::Fault;
use link::{LinkFinder, Node};
use shift::ShiftFinder;
use std::fmt;
use std::str::FromStr;

// The finders that an image can be searched with.
#[derive(Clone, Copy)]
pub enum Method {
    Link,
    Shift,
    Both,
}

// A name that no method has.
#[derive(Clone, Copy, Debug)]
pub struct NoMethod;

impl FromStr for Method {
    type Err = NoMethod;

    fn from_str(name: &str) -> Result<Method, NoMethod> {
        match name {
            "link" => Ok(Method::Link),
            "shift" => Ok(Method::Shift),
            "both" => Ok(Method::Both),
            _ => Err(NoMethod),
        }
    }
}

// The words that end at a place of the image, one to each bit.
#[derive(Clone, Copy)]
pub struct Ending {
    end: usize,
    words: u64,
}

impl fmt::Display for Ending {
    fn fmt<W: fmt::Write>(&self, f: &mut fmt::Formatter<W>) -> fmt::Result {
        let end = self.end;
        write!(f, "end {end}: words")?;
        for word in SetBits(self.words) {
            write!(f, " {word}")?;
        }
        Ok(())
    }
}

// One line for each byte of the image at which words end.
fn print_endings<F: Finder>(rt: &HostRuntime, finder: &mut F, image: &[u8]) -> anyhow::Result<()> {
    finder.rest();
    for (end, byte) in (1usize..).zip(image) {
        let words = finder.take(*byte);
        if words != 0 {
            let ending = Ending { end, words };
            println!(rt; "{ending}")?;
        }
    }
    Ok(())
}

// The same by two finders in step, and whether they ever differed.
fn print_in_step<F: Finder, G: Finder>(
    rt: &HostRuntime,
    link: &mut F,
    shift: &mut G,
    image: &[u8],
) -> anyhow::Result<()> {
    link.rest();
    shift.rest();
    for (end, byte) in (1usize..).zip(image) {
        let words = link.take(*byte);
        if words != shift.take(*byte) {
            println!(rt; "the finders differ at {end}")?;
            return Ok(());
        }
        if words != 0 {
            let ending = Ending { end, words };
            println!(rt; "{ending}")?;
        }
    }
    println!(rt; "both finders agree at every byte")?;
    Ok(())
}

// A link finder of the list, whose table is built in these nodes.
fn link_finder<'a>(list: &'a [u8], nodes: &'a mut [Node]) -> Result<LinkFinder<'a>, Fault> {
    link::build(list, nodes)?;
    LinkFinder::mounted(list, nodes)
}

// A shift finder of the list, whose table is built in these numbers.
pub fn shift_finder<'a>(list: &'a [u8], numbers: &'a mut [u64]) -> Result<ShiftFinder<'a>, Fault> {
    shift::build(list, numbers)?;
    ShiftFinder::mounted(list, numbers)
}

// Both finders of the list. The shift finder's fault comes first, and behind it no link finder is made.
fn both_finders<'a>(
    list: &'a [u8],
    numbers: &'a mut [u64],
    nodes: &'a mut [Node],
) -> Result<(ShiftFinder<'a>, LinkFinder<'a>), Fault> {
    Ok((shift_finder(list, numbers)?, link_finder(list, nodes)?))
}

// A refusal is an answer.
fn print_refusal(rt: &HostRuntime, fault: Fault) -> anyhow::Result<()> {
    println!(rt; "refused {fault}")?;
    Ok(())
}

// What the finder finds in the image.
fn print_found<F: Finder + Drop>(
    rt: &HostRuntime,
    finder: Result<F, Fault>,
    image: &[u8],
) -> anyhow::Result<()> {
    match finder {
        Ok(mut finder) => print_endings(rt, &mut finder, image),
        Err(fault) => print_refusal(rt, fault),
    }
}

// The places at which words of the list end in the image.
pub fn find(rt: &HostRuntime, method: Method, list: &[u8], image: &[u8]) -> anyhow::Result<()> {
    let mut numbers = [0u64; 256];
    let mut nodes = crate::table::room(rt, list)?;
    match method {
        Method::Link => print_found(rt, link_finder(list, nodes.as_mut_slice()), image),
        Method::Shift => print_found(rt, shift_finder(list, &mut numbers), image),
        Method::Both => match both_finders(list, &mut numbers, nodes.as_mut_slice()) {
            Ok((mut shift, mut link)) => print_in_step(rt, &mut link, &mut shift, image),
            Err(fault) => print_refusal(rt, fault),
        },
    }
}
