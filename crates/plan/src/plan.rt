ghost use Rattle.std.specs.Prelude.{◌≡◌, ◌≤◌, ⊤, length};

use landmark::{MOST_LANDMARKS, MOST_WORDS, Role, Spacing};
use std::alloc::AllocError;

// A word's place in its landmark: its front is the gap between it and the word before, where it is not its landmark's first.
#[derive(Clone, Copy)]
pub struct Spot {
    pub length: usize,
    pub landmark: usize,
    pub front: Option<Spacing>,
}

// The first `count` items of an array, in order. It is no ArrayVec, since that is not Copy and a plan is.
pub(crate) struct Row<T, const N: usize> {
    pub(crate) count: usize,
    pub(crate) items: [T; N],
    ghost few: { count ≤ N },
    ghost whole: { length items ≡ N },
}

// By hand, since a derive of Clone is refused for a generic struct with ghost fields.
impl<T: Copy, const N: usize> Clone for Row<T, N> {
    ghost is_clone = { λ x y. y ≡ x };

    ghost is_infallible = { λ _. ⊤ };

    fn clone(&self) -> Result<Row<T, N>, AllocError> {
        Ok(*self)
    }
}

impl<T: Copy, const N: usize> Copy for Row<T, N> {}

// What is kept of a list: the roles of its landmarks, and the spots of its words.
#[derive(Clone, Copy)]
pub struct Plan {
    pub(crate) roles: Row<Role, MOST_LANDMARKS>,
    pub(crate) spots: Row<Spot, MOST_WORDS>,
}
