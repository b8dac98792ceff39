// Scans: images taken in blocks, the ends of landmarks in them, and orders to enter.
#![tactic(auto)]

mod agreement;
mod ask;
mod issue;
mod make;
mod offer;
mod open;
mod order;
mod scan;
mod settle;
mod words;

pub use self::scan::Scan;
pub use agreement::agree;
pub use open::MOST_ANNOUNCED;
pub use order::{Numbers, Order, Returned};
