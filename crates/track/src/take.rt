// One byte's step of a scan.
ghost use Rattle.track.specs.Stepping.{Takes};

use crate::tracks::Tracks;
use bits::SetBits;
use plan::Plan;

impl Tracks {
    // Takes a byte, the last of `end` bytes: the bits of `ending` are those of the words that end with it.
    pub fn take(&mut self, plan: &Plan, ending: u64, end: usize)
        ensures { Takes plan.now self.old ending end self.new }
    {
        self.forget(end);
        for word in SetBits(ending) {
            self.take_word(plan, word, end);
        }
    }
}
