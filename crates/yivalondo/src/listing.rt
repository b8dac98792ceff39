// What a meter reads in a list, one line an element.
use landmark::{Counts, Element, Fault, Records, Role, read_list};
use std::fmt;

// What reading the whole list answered.
#[derive(Drop)]
pub struct Verdict(pub Result<Counts, Fault>);

impl fmt::Display for Verdict {
    fn fmt<W: fmt::Write>(&self, f: &mut fmt::Formatter<W>) -> fmt::Result {
        match &self.0 {
            Ok(counts) => {
                let landmarks = counts.landmarks;
                let words = counts.words;
                let run_bytes = counts.run_bytes;
                write!(
                    f,
                    "landmarks {landmarks}, words {words}, run bytes {run_bytes}"
                )
            }
            Err(fault) => write!(f, "refused {fault}"),
        }
    }
}

// An element with its place, and the numbers of its landmark and of its word.
#[derive(Clone, Copy)]
pub struct Line<'a> {
    place: usize,
    landmark: usize,
    word: usize,
    element: Element<'a>,
}

impl fmt::Display for Line<'_> {
    fn fmt<W: fmt::Write>(&self, f: &mut fmt::Formatter<W>) -> fmt::Result {
        let place = self.place;
        let landmark = self.landmark;
        let word = self.word;
        write!(f, "byte {place}: landmark {landmark}, ")?;
        match self.element {
            Element::Start(Role::Entry) => f.write_str("start of an entry"),
            Element::Start(Role::Bar) => f.write_str("start of a bar"),
            Element::Run(bytes) => {
                write!(f, "word {word}, run")?;
                for byte in bytes {
                    write!(f, " {byte:02x}")?;
                }
                Ok(())
            }
            Element::Gap(gap) => {
                let least = gap.least;
                let greatest = gap.greatest;
                write!(f, "gap of {least} to {greatest} bytes")
            }
            Element::Star => f.write_str("star: any number of bytes"),
            Element::Any => f.write_str("any: one byte"),
        }
    }
}

// One line an element, up to the first one that is refused.
pub fn print_lines(rt: &HostRuntime, list: &[u8]) -> anyhow::Result<()> {
    let stop = read_list(list).map_or_else(|fault| fault.detail, |_| list.len());
    let mut starts = 0usize;
    let mut runs = 0usize;
    for read in Records::of(list)
        .map_while(|read| read.ok())
        .take_while(|read| read.place < stop)
    {
        match read.element {
            Element::Start(_) => starts = starts.saturating_add(1),
            Element::Run(_) => runs = runs.saturating_add(1),
            _ => {}
        }
        let line = Line {
            place: read.place,
            landmark: starts.saturating_sub(1),
            word: runs.saturating_sub(1),
            element: read.element,
        };
        println!(rt; "{line}")?;
    }
    Ok(())
}
