ghost use Rattle.std.specs.Prelude.{◌/◌, ◌<◌, ◌≤◌, Decides};
ghost use Rattle.window.specs.Bits.{Masks, SomeBit, SomeBitAround, SomeBitIn};
ghost use Rattle.window.specs.Windows.{Empty, NoBit, SomeMarked, number_bits, span};

use crate::windows::{BITS, NUMBERS, SPAN, Windows};

impl Windows {
    // Whether the word is marked at some end from low to high: not where there is no such word.
    pub fn any_between(&self, word: usize, low: usize, high: usize) -> bool
        ensures { Decides result (SomeMarked self.now.numbers word low high) }
    {
        low <= high
            && self
                .numbers
                .get(word)
                .is_some_and(|window| any_around(window, low, high))
    }

    // Whether the word is marked at no end: so it is where there is no such word.
    pub fn is_empty(&self, word: usize) -> bool
        ensures { Decides result (Empty self.now.numbers word) }
    {
        self.numbers.get(word).is_none_or(has_no_bit)
    }
}

// Whether no bit of a window is set.
fn has_no_bit(window: &[u64; NUMBERS]) -> bool
    ensures { Decides result (NoBit window.now) }
{
    window.iter().all(|number| *number == 0)
}

// Whether a window has the bit of some end from low to high: the bits may go around its end.
fn any_around(window: &[u64; NUMBERS], low: usize, high: usize) -> bool
    requires { low ≤ high }
    ensures { Decides result (SomeBitAround window.now low high) }
{
    let first = low % SPAN;
    let last = high % SPAN;
    if high - low >= SPAN - 1 {
        any_in(window, 0, SPAN - 1)
    } else if first <= last {
        any_in(window, first, last)
    } else {
        any_in(window, first, SPAN - 1) || any_in(window, 0, last)
    }
}

// Whether a window has some bit from first to last.
fn any_in(window: &[u64; NUMBERS], first: usize, last: usize) -> bool
    requires { last < span }
    ensures { Decides result (SomeBit window.now first last) }
{
    // A range without its end: one with it tests at each number whether it is used up, and asking takes half as long again.
    (first / BITS..last / BITS + 1).any(|i| any_in_number(window, i, first, last))
}

// Whether a window has some bit from first to last in its number i.
fn any_in_number(window: &[u64; NUMBERS], i: usize, first: usize, last: usize) -> bool
    requires { (first / number_bits ≤ i) × (i ≤ last / number_bits) × (last < span) }
    ensures { Decides result (SomeBitIn window.now i first last) }
{
    // Only the first and the last number have a mask to work out: with a difference and a minimum in each, asking took twice as long.
    let from = if i == first / BITS { first % BITS } else { 0 };
    let to = if i == last / BITS {
        last % BITS
    } else {
        BITS - 1
    };
    window[i] & mask(from, to) != 0
}

// The mask of a number's bits from one place to another.
fn mask(from: usize, to: usize) -> u64
    requires { (from < number_bits) × (to < number_bits) }
    ensures { Masks from to result }
{
    (u64::MAX << from) & (u64::MAX >> (BITS - 1 - to))
}
