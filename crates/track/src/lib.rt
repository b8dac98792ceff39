// What a scan has found so far: the tracks, and what one byte does to them.
#![tactic(auto)]

mod begin;
mod forget;
mod take;
mod tracks;
mod word;

pub use tracks::Tracks;
