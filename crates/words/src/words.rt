// The words of a list, each as the bytes of the list that make it up.
ghost use Rattle.std.specs.Prelude.{◌≡◌, ℕ, ◌<◌, ◌≤◌, [], length, map, slice_index_or};
ghost use Rattle.landmark.specs.Grammar.{sizes};
ghost use Rattle.landmark.specs.Lists.{most_words};
ghost use Rattle.words.specs.RunSized.{RunSized};

use arrayvec::ArrayVec;
use landmark::MOST_WORDS;

// The words of a list, each a part of it, and how many bytes they have together.
#[derive(Drop)]
pub struct Words<'a> {
    pub(crate) words: ArrayVec<&'a [u8], MOST_WORDS>,
    // kept, since counting them anew would go over all words
    pub(crate) run_bytes: usize,
    ghost few: { length words.items ≤ most_words },
    ghost sized: { (k : ℕ) → k < length words.items → RunSized (slice_index_or (map (λ s. s.now) words.items) k []) },
    ghost total: { run_bytes ≡ sizes (map (λ s. s.now) words.items) },
}
