// The shift finder: all words in the bits of one register, for lists of few run bytes.
#![tactic(auto)]

mod as_finder;
mod edges;
mod mount;
mod narrow;
mod shift;
mod table;

pub use self::shift::ShiftFinder;
pub use table::build;
