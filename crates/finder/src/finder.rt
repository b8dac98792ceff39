ghost use Rattle.std.specs.Prelude.{◌≡◌, ℕ, ◌<◌, ◌≤◌, true, List, [], length, slice_index, slice_index_or};
ghost use Rattle.finder.specs.Words.{Rested, WellSized, Took, holds, most_words, word};

// How many words a finder has at most: one to each bit of a mask.
pub const MOST_WORDS: usize = 64;

// A way to find words, by what it means: its words, and for each word its half-read lengths.
pub trait Finder {
    ghost words: { Self → List (List ℕ) };

    ghost halves: { Self → List (List ℕ) };

    // Facts that each implementation proves: few words, each of a word's size, one half list a word, and 0 in each half list.
    ghost few: { (s : Self) → length (words s) ≤ most_words };

    ghost sized: { (s : Self) (k : ℕ) → k < length (words s) → WellSized (word (words s) k) };

    ghost paired: { (s : Self) → length (halves s) ≡ length (words s) };

    ghost begun: { (s : Self) (k : ℕ) → k < length (words s) → holds 0 (slice_index_or (halves s) k []) ≡ true };

    // Forgets the bytes taken so far.
    fn rest(&mut self)
        ensures { Rested words halves self.old self.new };

    // Takes one byte, and answers which words end with it, word k in bit k.
    fn take(&mut self, b: u8) -> u64
        ensures { Took words halves self.old b self.new result };

    // How many words there are.
    fn count(&self) -> usize
        ensures { result ≡ length (words self.now) };

    // How many bytes word k has, 0 where there is no such word.
    fn length_of(&self, k: usize) -> usize
        ensures { result ≡ length (word (words self.now) k) };

    // Byte i of word k, 0 where there is no such byte.
    fn byte_of(&self, k: usize, i: usize) -> u8
        ensures { result ≡ slice_index (word (words self.now) k) i };
}
