// What an index is asked.
ghost use Rattle.landmark.specs.Grammar.{sizes};
ghost use Rattle.words.specs.Index.{indexed, slices};
ghost use Rattle.std.specs.Prelude.{◌≡◌, [], length, slice_index, slice_index_or};

use crate::words::Words;

impl<'a> Words<'a> {
    // The words, in order.
    pub fn as_slice(&self) -> &[&'a [u8]]
        ensures { result.now ≡ slices self.now }
    {
        self.words.as_slice()
    }

    // How many words there are.
    pub fn count(&self) -> usize
        ensures { result ≡ length (indexed self.now) }
    {
        self.words.len()
    }

    // How many bytes all words have together.
    pub fn run_bytes(&self) -> usize
        ensures { result ≡ sizes (indexed self.now) }
    {
        self.run_bytes
    }

    // The bytes of word k, none where there is no such word.
    pub fn word(&self, k: usize) -> &'a [u8]
        ensures { result.now ≡ slice_index_or (indexed self.now) k [] }
    {
        self.as_slice().get(k).copied().unwrap_or(&[])
    }

    // How many bytes word k has, 0 where there is no such word.
    pub fn length_of(&self, k: usize) -> usize
        ensures { result ≡ length (slice_index_or (indexed self.now) k []) }
    {
        self.word(k).len()
    }

    // Byte i of word k, 0 where there is no such byte.
    pub fn byte_of(&self, k: usize, i: usize) -> u8
        ensures { result ≡ slice_index (slice_index_or (indexed self.now) k []) i }
    {
        self.word(k).get(i).copied().unwrap_or(0)
    }
}
