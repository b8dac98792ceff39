// An index of a list's words, so that each word is at hand at once.
#![tactic(auto)]

mod ask;
mod read;
mod words;

pub use self::words::Words;
