// The calls of a scan in tables, each with its answer.
ghost use Rattle.scan_tests.specs.Keeping.{Keeps};

use crate::spending::{Way, enter, numbers, spend};
use finder::Finder;
use link::{LinkFinder, Node};
use scan::Scan;
use shift::ShiftFinder;
use std::process::Abort;
use std::test::Fail;

#[derive(Clone, Copy)]
pub(crate) enum Call {
    Open(&'static [u8], usize),
    Offer(usize, &'static [u8]),
    Ask(usize),
    // issuing, then carrying out or striking off
    Enter(usize),
    Strike(usize),
}

// What an accepted call answers: the bytes taken, an end, the entry of the order that was carried out, or nothing.
#[derive(Clone, Copy, PartialEq, Eq, Debug)]
pub(crate) enum Said {
    Done,
    Taken(usize),
    End(Option<usize>),
    Entry(usize),
}

// A call's answer, or the number and the detail of its refusal, by the rules' own numbers.
pub(crate) type Answer = Result<Said, (u8, usize)>;

// A call and its answer.
pub(crate) type Step = (Call, Answer);

fn answer<F: Finder>(scan: &mut Scan<F>, call: Call) -> Answer
    ensures { Keeps scan.old.out scan.new.out }
{
    match call {
        Call::Open(list, announced) => scan
            .open(list, announced)
            .map(|()| Said::Done)
            .map_err(numbers),
        Call::Offer(place, block) => scan.offer(place, block).map(Said::Taken).map_err(numbers),
        Call::Ask(landmark) => scan.ask(landmark).map(Said::End).map_err(numbers),
        Call::Enter(landmark) => enter(scan, landmark, Way::CarryOut),
        Call::Strike(landmark) => enter(scan, landmark, Way::StrikeOff),
    }
}

// Each call of the table in its turn.
pub(crate) fn answers<F: Finder>(
    rt: &impl Abort,
    scan: &mut Scan<F>,
    steps: &[Step],
) -> Result<(), Fail>
    ensures { Keeps scan.old.out scan.new.out }
{
    for (call, expected) in steps {
        assert_eq!(rt; answer(scan, *call), *expected);
    }
    Ok(())
}

// The calls of the table while an order for the landmark is out, which is then carried out with this entry.
pub(crate) fn answers_while_out<F: Finder>(
    rt: &impl Abort,
    scan: &mut Scan<F>,
    landmark: usize,
    steps: &[Step],
    entry: usize,
) -> Result<(), Fail> {
    let order = scan.issue(landmark)?;
    let answered = answers(rt, scan, steps);
    let spent = spend(scan, order, Way::CarryOut);
    answered?;
    assert_eq!(rt; spent, Said::Entry(entry));
    Ok(())
}

// The calls on new scans whose finders have the list's words.
pub(crate) fn on_each_finder(rt: &impl Abort, list: &[u8], steps: &[Step]) -> Result<(), Fail> {
    let mut nodes = [Node::ROOT; 65];
    link::build(list, &mut nodes)?;
    answers(
        rt,
        &mut Scan::new(LinkFinder::mounted(list, &nodes)?),
        steps,
    )?;
    let mut table = [0u64; 256];
    shift::build(list, &mut table)?;
    answers(
        rt,
        &mut Scan::new(ShiftFinder::mounted(list, &table)?),
        steps,
    )
}
