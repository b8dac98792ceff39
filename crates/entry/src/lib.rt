// Where an image is entered: all calls on a scan in one.
#![tactic(auto)]

mod blocks;
mod find;

pub use blocks::block_to;
pub use find::find_entry;
