// Finders: what any way to find many words promises byte by byte, two of them side by side, and the law that ties them to the bytes.
#![tactic(auto)]

mod finder;
mod law;
mod pair;

pub use self::finder::{Finder, MOST_WORDS};
pub use law::hear;
pub use pair::Pair;
