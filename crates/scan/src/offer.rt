ghost use Rattle.std.specs.Prelude.{◌<◌};
ghost use Rattle.scan.specs.Calls.{Offered};
ghost use Rattle.scan.specs.Taking.{NextByte};

use crate::scan::{Progress, Scan};
use finder::Finder;
use landmark::{Fault, Refusal};

impl<F: Finder> Scan<F> {
    // Takes the bytes of a block in order, and answers how many are taken since opening.
    pub fn offer(&mut self, place: usize, block: &[u8]) -> Result<usize, Fault>
        ensures { Offered F.Finder self.old place block.now result self.new }
    {
        let Some(progress) = &mut self.progress else {
            return Err(Refusal::Idle.at(0));
        };
        if place != progress.taken {
            return Err(Refusal::WrongPlace.at(progress.taken));
        }
        if block.len() > progress.announced - progress.taken {
            return Err(Refusal::Overrun.at(progress.announced));
        }
        let finder = &mut self.finder;
        for b in block {
            progress.take(finder, *b);
        }
        Ok(progress.taken)
    }
}

impl Progress {
    // Takes one byte.
    fn take<F: Finder>(&mut self, finder: &mut F, b: u8)
        requires { self.old.taken < self.old.announced }
        ensures { NextByte F.Finder finder.old self.old b finder.new self.new }
    {
        let ending = finder.take(b);
        self.taken += 1;
        self.tracks.take(&self.plan, ending, self.taken);
    }
}
