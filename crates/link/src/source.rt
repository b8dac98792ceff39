// The words that are entered into a table.
ghost use Rattle.std.specs.Prelude.{◌≡◌, ℕ, ◌<◌, ◌≤◌, List, length, slice_index};
ghost use Rattle.finder.specs.Words.{WellSized, most_words, word};
ghost use Rattle.words.specs.Index.{indexed};
ghost use Rattle.words.specs.Sizes.{indexed-few, indexed-sized};

use words::Words;

// Words of symbols, numbered from 0.
pub trait Source {
    ghost entered: { Self → List (List ℕ) };

    // Facts that each implementation proves: few words, each of a word's size.
    ghost few: { (s : Self) → length (entered s) ≤ most_words };

    ghost sized: { (s : Self) (k : ℕ) → k < length (entered s) → WellSized (word (entered s) k) };

    // How many words there are.
    fn count(&self) -> usize
        ensures { result ≡ length (entered self.now) };

    // How many symbols word k has, 0 where there is no such word.
    fn length_of(&self, k: usize) -> usize
        ensures { result ≡ length (word (entered self.now) k) };

    // Symbol i of word k, 0 where there is no such symbol.
    fn symbol(&self, k: usize, i: usize) -> u8
        ensures { result ≡ slice_index (word (entered self.now) k) i };
}

// The words of a list, byte by byte.
impl<'a> Source for Words<'a> {
    ghost entered = { λ s. indexed s };

    ghost few = { λ s. indexed-few s };

    ghost sized = { λ s. indexed-sized s };

    fn count(&self) -> usize {
        self.count()
    }

    fn length_of(&self, k: usize) -> usize {
        self.length_of(k)
    }

    fn symbol(&self, k: usize, i: usize) -> u8 {
        self.byte_of(k, i)
    }
}
