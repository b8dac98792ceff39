// Windows: for each word, at which of the last ends it was reached, one bit to each end.
#![tactic(auto)]

mod ask;
mod mark;
mod windows;

pub use self::windows::{NUMBERS, SPAN, WORDS, Windows};
