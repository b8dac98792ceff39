ghost use Rattle.window.specs.Windows.{words};
ghost use Rattle.std.specs.Prelude.{◌≡◌, length};

// How many bits a number has.
pub(crate) const BITS: usize = 64;

// How many numbers a window has.
pub const NUMBERS: usize = 5;

// How many ends a window tells apart, one to each of its bits.
pub const SPAN: usize = BITS * NUMBERS;

// How many words have a window.
pub const WORDS: usize = 64;

// The windows of all words: bit b of a window is bit b % BITS of its number b / BITS, and end e has bit e % SPAN.
#[derive(Drop)]
pub struct Windows {
    pub(crate) numbers: [[u64; NUMBERS]; WORDS],
    ghost whole: { length numbers ≡ words },
}
