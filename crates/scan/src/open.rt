ghost use Rattle.scan.specs.Calls.{Opened};

use crate::scan::{Progress, Scan};
use crate::words::first_other;
use finder::Finder;
use landmark::{Fault, Refusal};
use plan::Plan;
use track::Tracks;

// The greatest length that may be announced.
pub const MOST_ANNOUNCED: usize = 1 << 20;

impl<F: Finder> Scan<F> {
    // Begins anew: with the landmarks of a list, and for an image of the announced length.
    pub fn open(&mut self, list: &[u8], announced: usize) -> Result<(), Fault>
        ensures { Opened F.Finder self.old list.now announced result self.new }
    {
        let plan = Plan::read(list)?;
        if let Some(out) = self.out {
            return Err(Refusal::OrderOut.at(out.landmark));
        }
        if announced == 0 || announced > MOST_ANNOUNCED {
            return Err(Refusal::BadLength.at(announced));
        }
        if let Some(word) = first_other(&self.finder, list) {
            return Err(Refusal::OtherWords.at(word));
        }
        self.finder.rest();
        self.progress = Some(Progress {
            announced,
            plan,
            taken: 0,
            tracks: Tracks::new(),
        });
        Ok(())
    }
}
