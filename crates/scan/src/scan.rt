ghost use Rattle.std.specs.Prelude.{◌≤◌};
ghost use Rattle.scan.specs.Announced.{most_announced};

use crate::order::Numbers;
use plan::Plan;
use track::Tracks;

// How far an open scan has come: the landmarks of its list, the bytes announced and taken, and what is found in them.
#[derive(Drop)]
pub(crate) struct Progress {
    pub(crate) announced: usize,
    pub(crate) plan: Plan,
    pub(crate) taken: usize,
    pub(crate) tracks: Tracks,
    ghost within: { taken ≤ announced },
    ghost small: { announced ≤ most_announced },
}

// A scan over a finder: idle until it is opened.
#[derive(Drop)]
pub struct Scan<F> {
    pub(crate) finder: F,
    pub(crate) progress: Option<Progress>,
    pub(crate) out: Option<Numbers>,
}
