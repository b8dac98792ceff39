// What a scan keeps of a list: the roles of its landmarks, and for each word its length, its landmark and the gap in front of it.
#![tactic(auto)]

mod ask;
mod plan;
mod read;
mod row;

pub use plan::{Plan, Spot};
