// The finders for a program in C or Rust: what the measurements call.
#![tactic(auto)]

mod checksum;
mod links;
mod scans;
mod shifts;

pub use links::{
    yivalondo_link_build, yivalondo_link_mount, yivalondo_link_run, yivalondo_link_scan,
};
pub use shifts::{yivalondo_shift_build, yivalondo_shift_mount, yivalondo_shift_run};
