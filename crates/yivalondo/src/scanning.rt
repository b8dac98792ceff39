// An image scanned in blocks, and where it is entered.
use crate::find::shift_finder;
use crate::{cuts, table};
use entry::{block_to, find_entry};
use finder::Finder;
use landmark::{Fault, Role};
use link::{LinkFinder, Node};
use order_client::enter;
use plan::Plan;
use scan::{Scan, agree};
use shift::ShiftFinder;
use std::fmt;

// Images longer than this have their progress shown.
const LONG: usize = 1 << 18;

// After how many bytes progress is shown again.
const STRETCH: usize = 1 << 16;

// What is scanned: an image in blocks that end at the cuts, for the landmarks of a list; and the landmark it is entered by.
#[derive(Clone, Copy)]
pub struct Job<'a> {
    list: &'a [u8],
    plan: &'a Plan,
    image: &'a [u8],
    cuts: &'a [usize],
    landmark: usize,
}

// A landmark with its role and its end.
#[derive(Clone, Copy)]
pub struct Sighting {
    landmark: usize,
    role: Role,
    end: Option<usize>,
}

impl fmt::Display for Sighting {
    fn fmt<W: fmt::Write>(&self, f: &mut fmt::Formatter<W>) -> fmt::Result {
        let landmark = self.landmark;
        let role = self.role;
        match self.end {
            Some(end) => write!(f, "landmark {landmark} {role}: end {end}"),
            None => write!(f, "landmark {landmark} {role}: no end"),
        }
    }
}

// A refusal in plain words, and then by its numbers alone.
fn print_refusal(rt: &HostRuntime, fault: Fault) -> anyhow::Result<()> {
    let number = fault.refusal.number();
    let detail = fault.detail;
    println!(rt; "{fault}")?;
    println!(rt; "refused {number} {detail}")?;
    Ok(())
}

// One line for each landmark whose end is known now and was not before.
fn print_new_ends<F: Finder>(
    rt: &HostRuntime,
    scan: &Scan<F>,
    plan: &Plan,
    known: &mut [bool],
) -> anyhow::Result<()> {
    for (landmark, known) in known.iter_mut().enumerate() {
        if *known {
            continue;
        }
        if let (Some(role), Ok(Some(end))) = (plan.role(landmark), scan.ask(landmark)) {
            let sighting = Sighting {
                landmark,
                role,
                end: Some(end),
            };
            println!(rt; "{sighting}")?;
            *known = true;
        }
    }
    Ok(())
}

// One line for each landmark without an end.
fn print_missing_ends(rt: &HostRuntime, plan: &Plan, known: &[bool]) -> anyhow::Result<()> {
    for (landmark, known) in known.iter().enumerate() {
        if let (Some(role), false) = (plan.role(landmark), *known) {
            let sighting = Sighting {
                landmark,
                role,
                end: None,
            };
            println!(rt; "{sighting}")?;
        }
    }
    Ok(())
}

// How far the scan of a long image is.
fn show_progress(
    rt: &HostRuntime,
    before: usize,
    taken: usize,
    length: usize,
) -> anyhow::Result<()> {
    if length > LONG && before / STRETCH < taken / STRETCH {
        eprintln!(rt; "{taken} of {length} bytes")?;
    }
    Ok(())
}

// Whether two scans that took the same blocks agree.
fn print_agreement<F: Finder, G: Finder>(
    rt: &HostRuntime,
    left: &Scan<F>,
    right: &Scan<G>,
) -> anyhow::Result<()> {
    if agree(left, right) {
        println!(rt; "both scans agree")?;
    } else {
        println!(rt; "the scans differ, which cannot happen")?;
    }
    Ok(())
}

// Offers the blocks of an image to two scans, and prints the ends as they are found.
fn offer_blocks<F: Finder, G: Finder>(
    rt: &HostRuntime,
    link: &mut Scan<F>,
    shift: &mut Scan<G>,
    job: Job<'_>,
) -> anyhow::Result<()> {
    let mut known = vec![in rt.alloc(); false; job.plan.landmarks()]?;
    let mut taken = 0;
    for cut in job.cuts {
        let block = block_to(job.image, taken, *cut);
        let _ = shift.offer(taken, block);
        let Ok(now) = link.offer(taken, block) else {
            break;
        };
        print_new_ends(rt, link, job.plan, known.as_mut_slice())?;
        show_progress(rt, taken, now, job.image.len())?;
        taken = now;
    }
    print_missing_ends(rt, job.plan, known.as_slice())
}

// Scans an image in step with two finders, the second one where its words are the list's, and holds the order of the
// first scan to the answer.
fn scan_in_step<F: Finder + Drop, G: Finder + Drop>(
    rt: &HostRuntime,
    link: F,
    shift: G,
    job: Job<'_>,
    answer: Result<usize, Fault>,
) -> anyhow::Result<()> {
    let mut link = Scan::new(link);
    let mut shift = Scan::new(shift);
    if link.open(job.list, job.image.len()).is_err() {
        return Ok(());
    }
    let both = shift.open(job.list, job.image.len()).is_ok();
    offer_blocks(rt, &mut link, &mut shift, job)?;
    if both {
        print_agreement(rt, &link, &shift)?;
    } else {
        println!(rt; "one scan: the shift finder serves at most 64 run bytes")?;
    }
    if enter(&mut link, job.landmark) != answer {
        println!(rt; "the scan's own order differs, which cannot happen")?;
    }
    Ok(())
}

// Where the image is entered, or why it is not.
fn print_answer(rt: &HostRuntime, answer: Result<usize, Fault>) -> anyhow::Result<()> {
    match answer {
        Ok(entry) => println!(rt; "enter {entry}")?,
        Err(fault) => print_refusal(rt, fault)?,
    }
    Ok(())
}

// Two link finders of the list, whose table is built in these nodes.
fn two_links<'a>(
    list: &'a [u8],
    nodes: &'a mut [Node],
) -> Result<(LinkFinder<'a>, LinkFinder<'a>), Fault> {
    link::build(list, nodes)?;
    Ok((
        LinkFinder::mounted(list, nodes)?,
        LinkFinder::mounted(list, nodes)?,
    ))
}

// The first entry landmark, and 0 where there is none.
fn first_entry(plan: &Plan) -> usize {
    (0..plan.landmarks())
        .find(|landmark| plan.role(*landmark) == Some(Role::Entry))
        .unwrap_or(0)
}

// The landmark that is entered by: the one asked for, or the list's first entry landmark.
fn entry_landmark(plan: &Plan, asked: Option<&str>) -> anyhow::Result<usize> {
    match asked {
        Some(text) => cuts::read_number("--entry", text),
        None => Ok(first_entry(plan)),
    }
}

// Scans an image in blocks of these sizes. The answer is that of `find_entry`.
pub fn scan_image(
    rt: &HostRuntime,
    row: &[usize],
    asked: Option<&str>,
    list: &[u8],
    image: &[u8],
) -> anyhow::Result<()> {
    let plan = match Plan::read(list) {
        Ok(plan) => plan,
        Err(fault) => return print_refusal(rt, fault),
    };
    let landmark = entry_landmark(&plan, asked)?;
    let cuts = cuts::cuts(rt, row, image.len().min(scan::MOST_ANNOUNCED))?;
    let job = Job {
        list,
        plan: &plan,
        image,
        cuts: cuts.as_slice(),
        landmark,
    };
    let mut nodes = table::room(rt, list)?;
    let (link, again) = match two_links(list, nodes.as_mut_slice()) {
        Ok(links) => links,
        Err(fault) => return print_refusal(rt, fault),
    };
    let mut numbers = [0u64; 256];
    let shift = shift_finder(list, &mut numbers).unwrap_or(ShiftFinder::new());
    let answer = find_entry(again, list, image, job.cuts, landmark);
    scan_in_step(rt, link, shift, job, answer)?;
    print_answer(rt, answer)
}
