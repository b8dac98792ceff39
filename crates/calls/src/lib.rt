// A row of calls on one scan, with their answers.
#![tactic(auto)]

mod call;
mod holder;
mod make;
mod run;

pub use call::{Answer, Call};
pub use run::{Ran, run_calls};
