// The shift finder as a finder.
ghost use Rattle.finder.specs.Words.{mask};
ghost use Rattle.shift.specs.Halves.{halves_begun, halves_paired};
ghost use Rattle.shift.specs.Mounting.{halves_in, words_in};
ghost use Rattle.shift.specs.Table.{all_bytes, number_of};
ghost use Rattle.words.specs.Index.{indexed};
ghost use Rattle.words.specs.Sizes.{indexed-few, indexed-sized};
ghost use Rattle.std.specs.Prelude.{◌≡◌};

use crate::shift::ShiftFinder;
use bits::SetBits;
use finder::Finder;

impl<'a> ShiftFinder<'a> {
    // The number of a byte value, 0 where there are no words.
    fn number_at(&self, b: u8) -> u64
        ensures { result ≡ number_of (all_bytes (words_in self.now)) b }
    {
        self.table.get(b as usize).copied().unwrap_or(0)
    }

    // The words that are read whole, word k in bit k, by the bits of their last bytes alone.
    fn ended(&self) -> u64
        ensures { result ≡ mask (words_in self.now) (halves_in self.now) }
    {
        let mut found = 0;
        for place in SetBits(self.register & self.edges.lasts) {
            let below = (1u64 << place) - 1;
            let word = (self.edges.lasts & below).count_ones();
            found |= 1u64 << word;
        }
        found
    }
}

impl<'a> Finder for ShiftFinder<'a> {
    ghost words = { λ s. words_in s };

    ghost halves = { λ s. halves_in s };

    ghost few = { λ s. indexed-few s.words.index };

    ghost sized = { λ s. indexed-sized s.words.index };

    ghost paired = { λ s. halves_paired 0 (indexed s.words.index) s.register };

    ghost begun = { λ s. halves_begun 0 (indexed s.words.index) s.register };

    fn rest(&mut self) {
        self.register = 0;
    }

    fn take(&mut self, b: u8) -> u64 {
        let number = self.number_at(b);
        self.register = ((self.register << 1) | self.edges.firsts) & number;
        self.ended()
    }

    fn count(&self) -> usize {
        self.words.index.count()
    }

    fn length_of(&self, k: usize) -> usize {
        self.words.index.length_of(k)
    }

    fn byte_of(&self, k: usize, i: usize) -> u8 {
        self.words.index.byte_of(k, i)
    }
}
