// The windows forget the end that lies as far back as they reach.
ghost use Rattle.track.specs.Telling.{Forgets};

use crate::tracks::Tracks;
use bits::SetBits;

impl Tracks {
    // Before the words of an end are taken, no window says that a word was reached there.
    pub(crate) fn forget(&mut self, end: usize)
        ensures { Forgets self.old end self.new }
    {
        for word in SetBits(self.active) {
            self.windows.mark(word, end, false);
            if self.windows.is_empty(word) {
                self.active &= !(1u64 << word);
            }
        }
    }
}
