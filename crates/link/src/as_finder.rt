// The link finder as a finder.
ghost use Rattle.link.specs.Meaning.{halves_begun, halves_in, halves_paired, string_at, words_in};
ghost use Rattle.words.specs.Sizes.{indexed-few, indexed-sized};

use crate::link::LinkFinder;
use finder::Finder;

impl<'a> Finder for LinkFinder<'a> {
    ghost words = { λ s. words_in s };

    ghost halves = { λ s. halves_in s };

    ghost few = { λ s. indexed-few s.words };

    ghost sized = { λ s. indexed-sized s.words };

    ghost paired = { λ s. halves_paired (words_in s) (string_at s) };

    ghost begun = { λ s. halves_begun (words_in s) (string_at s) };

    fn rest(&mut self) {
        self.at = 0;
    }

    fn take(&mut self, b: u8) -> u64 {
        self.at = self.next_node(b);
        self.table[self.at].mask
    }

    fn count(&self) -> usize {
        self.words.count()
    }

    fn length_of(&self, k: usize) -> usize {
        self.words.length_of(k)
    }

    fn byte_of(&self, k: usize, i: usize) -> u8 {
        self.words.byte_of(k, i)
    }
}
