// Landmark lists: their records, read and written, and the judging of a whole list.
#![tactic(auto)]

mod element;
mod judge;
mod judging;
mod kind;
mod list;
mod read;
mod records;
mod refusal;
mod spacing;
mod word;
mod write;

pub use element::{Element, Gap, LONGEST_RUN, Read, Role};
pub use judging::{MOST_LANDMARKS, MOST_WORDS};
pub use list::{Counts, read_list};
pub use read::read_element;
pub use records::Records;
pub use refusal::{Fault, Layer, Refusal};
pub use spacing::Spacing;
pub use word::{ListWords, Word, next_word};
pub use write::write_element;
