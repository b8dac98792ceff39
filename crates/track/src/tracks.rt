// What a scan has found so far.
ghost use Rattle.landmark.specs.Lists.{most_landmarks, most_words};
ghost use Rattle.std.specs.Prelude.{◌≡◌, length};

use landmark::{MOST_LANDMARKS, MOST_WORDS};
use window::Windows;

// The ends of landmarks, the smallest ends of words before an open gap, the last ends of words before any other gap, and
// which words have such ends.
#[derive(Drop)]
pub struct Tracks {
    pub(crate) ends: [Option<usize>; MOST_LANDMARKS],
    // Not one struct a word: a word uses either its smallest end or its window, and a byte asks and marks windows by number.
    pub(crate) firsts: [Option<usize>; MOST_WORDS],
    pub(crate) windows: Windows,
    pub(crate) active: u64,
    ghost all_ends: { length ends ≡ most_landmarks },
    ghost all_firsts: { length firsts ≡ most_words },
}
