ghost use Rattle.std.specs.Prelude.{◌≡◌, ◌<◌};
ghost use Rattle.window.specs.Bits.{MakesBit};
ghost use Rattle.window.specs.Windows.{Marks, cleared, span};

use crate::windows::{BITS, NUMBERS, SPAN, WORDS, Windows};

impl Windows {
    // Windows in which nothing is marked.
    pub fn new() -> Windows
        ensures { result.numbers ≡ cleared }
    {
        Windows {
            numbers: [[0; NUMBERS]; WORDS],
        }
    }

    // Forgets every mark.
    pub fn clear(&mut self)
        ensures { self.new.numbers ≡ cleared }
    {
        *self = Windows::new();
    }

    // Makes the bit of the end in the word's window say whether the word was reached there.
    pub fn mark(&mut self, word: usize, end: usize, reached: bool)
        ensures { Marks self.old.numbers word end reached self.new.numbers }
    {
        // With `get_mut` the proof does not close: it says nothing of the other windows.
        if word < WORDS {
            let windows = &mut self.numbers;
            set_bit(&mut windows[word], end % SPAN, reached);
        }
    }
}

// Makes one bit of a window what is told.
fn set_bit(window: &mut [u64; NUMBERS], at: usize, value: bool)
    requires { at < span }
    ensures { MakesBit window.old at value window.new }
{
    let bit = 1u64 << (at % BITS);
    if value {
        window[at / BITS] |= bit;
    } else {
        window[at / BITS] &= !bit;
    }
}
