ghost use Rattle.finder.specs.Joined.{joined, joined-begun, joined-few, joined-paired, joined-sized};

use crate::finder::{Finder, MOST_WORDS};

// Two finders as one: the words of the left, then those of the right, up to the limit.
#[derive(Drop)]
pub struct Pair<A, B> {
    pub left: A,
    pub right: B,
}

impl<A: Finder, B: Finder> Finder for Pair<A, B> {
    ghost words = { λ s. joined (A.Finder.words s.left) (B.Finder.words s.right) };

    ghost halves = { λ s. joined (A.Finder.halves s.left) (B.Finder.halves s.right) };

    ghost few = { λ s. joined-few (A.Finder.words s.left) (B.Finder.words s.right) };

    ghost sized = { λ s. joined-sized (A.Finder.words s.left) (B.Finder.words s.right) (A.Finder.sized s.left) (B.Finder.sized s.right) };

    ghost paired = { λ s. joined-paired (A.Finder.words s.left) (A.Finder.halves s.left) (B.Finder.words s.right) (B.Finder.halves s.right) (A.Finder.paired s.left) (B.Finder.paired s.right) };

    ghost begun = { λ s. joined-begun (A.Finder.words s.left) (A.Finder.halves s.left) (B.Finder.words s.right) (B.Finder.halves s.right) (A.Finder.paired s.left) (B.Finder.paired s.right) (A.Finder.begun s.left) (B.Finder.begun s.right) };

    fn rest(&mut self) {
        self.left.rest();
        self.right.rest();
    }

    // A full left side leaves no bit to the right side.
    fn take(&mut self, b: u8) -> u64 {
        let before = self.left.count();
        let left = self.left.take(b);
        let right = self.right.take(b);
        if before >= MOST_WORDS {
            return left;
        }
        left | (right << before)
    }

    fn count(&self) -> usize {
        (self.left.count() + self.right.count()).min(MOST_WORDS)
    }

    // The side of a word is chosen in place, here and in `byte_of`: naming it would take more lines than the two choices.
    fn length_of(&self, k: usize) -> usize {
        let before = self.left.count();
        if k >= MOST_WORDS {
            0
        } else if k < before {
            self.left.length_of(k)
        } else {
            self.right.length_of(k - before)
        }
    }

    fn byte_of(&self, k: usize, i: usize) -> u8 {
        let before = self.left.count();
        if k >= MOST_WORDS {
            0
        } else if k < before {
            self.left.byte_of(k, i)
        } else {
            self.right.byte_of(k - before, i)
        }
    }
}
