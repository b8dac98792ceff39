// Judging a list's records one after another.
ghost use Rattle.landmark.specs.Judging.{HasJudged, Judges, Operates};
ghost use Rattle.landmark.specs.Lists.{Row, ended, judged};
ghost use Rattle.landmark.specs.Records.{Item, item, run, start, unfit};
ghost use Rattle.std.specs.Prelude.{◌≡◌, ◌≤◌, [], length, None};

use crate::element::{Element, Role};
use crate::judge::{Judge, Sort};
use crate::list::Counts;
use crate::refusal::{Fault, Refusal};
use crate::spacing::Spacing;

// The most landmarks of a list.
pub const MOST_LANDMARKS: usize = 32;

// The most words of a list.
pub const MOST_WORDS: usize = 64;

impl Judge {
    // Before the first record.
    pub(crate) fn new() -> Judge
        ensures { HasJudged result [] }
    {
        Judge {
            counts: Counts::default(),
            newest: None,
            spacing: Spacing::none(),
        }
    }

    fn start(&mut self) -> Result<(), Refusal>
        ensures { (role : Role) → Judges self.old (start role) self.new result }
    {
        if !matches!(self.newest, None | Some(Sort::Run)) {
            return Err(Refusal::Misplaced);
        }
        if self.counts.landmarks >= MOST_LANDMARKS {
            return Err(Refusal::TooMany);
        }
        self.counts.landmarks += 1;
        self.newest = Some(Sort::Start);
        self.spacing = Spacing::none();
        Ok(())
    }

    fn run(&mut self, bytes: &[u8]) -> Result<(), Refusal>
        requires { length bytes.now ≤ 64 }
        ensures { Judges self.old (run bytes.now) self.new result }
    {
        if self.newest.is_none() {
            return Err(Refusal::Misplaced);
        }
        if self.spacing.is_too_wide() {
            return Err(Refusal::GapTooWide);
        }
        if self.counts.words >= MOST_WORDS {
            return Err(Refusal::TooMany);
        }
        self.counts.words += 1;
        self.counts.run_bytes += bytes.len();
        self.newest = Some(Sort::Run);
        self.spacing = Spacing::none();
        Ok(())
    }

    // An operator that stands for as many bytes as `allowed`.
    fn operator(&mut self, allowed: Spacing) -> Result<(), Refusal>
        ensures { (i : Item) → Operates i allowed → Judges self.old i self.new result }
    {
        if matches!(self.newest, None | Some(Sort::Start)) {
            return Err(Refusal::Misplaced);
        }
        self.newest = Some(Sort::Operator);
        self.spacing = self.spacing.plus(allowed);
        Ok(())
    }

    // One more record.
    pub(crate) fn take(&mut self, element: Element<'_>) -> Result<(), Refusal>
        requires { unfit (item element) ≡ None }
        ensures { Judges self.old (item element.entry) self.new result }
    {
        match element {
            Element::Start(_) => self.start(),
            Element::Run(bytes) => self.run(bytes),
            // One arm an operator: what each allows is then known where it is added up, and judging takes little more than half the time.
            Element::Gap(_) => self.operator(element.allowance()),
            Element::Star => self.operator(Element::Star.allowance()),
            Element::Any => self.operator(Element::Any.allowance()),
        }
    }

    // At the end of a list of so many bytes.
    pub(crate) fn finish(&self, size: usize) -> Result<Counts, Fault>
        ensures { (row : Row) → HasJudged self.now row → result ≡ judged size row ended }
    {
        match self.newest {
            Some(Sort::Run) => Ok(self.counts),
            _ => Err(Refusal::Misplaced.at(size)),
        }
    }
}
