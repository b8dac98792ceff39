// Tracks in which nothing is found, and what they are asked.
ghost use Rattle.track.specs.Tracking.{NothingFound};
ghost use Rattle.std.specs.Prelude.{◌≡◌, None, slice_index_or};

use crate::tracks::Tracks;
use crate::word::kept_at;
use landmark::{MOST_LANDMARKS, MOST_WORDS};
use window::Windows;

impl Tracks {
    // Nothing is found.
    pub fn new() -> Tracks
        ensures { NothingFound result }
    {
        Tracks {
            ends: [None; MOST_LANDMARKS],
            firsts: [None; MOST_WORDS],
            windows: Windows::new(),
            active: 0,
        }
    }

    // Nothing is found any more.
    pub fn clear(&mut self)
        ensures { NothingFound self.new }
    {
        *self = Tracks::new();
    }

    // The end of a landmark, where one is found.
    pub fn end_of(&self, landmark: usize) -> Option<usize>
        ensures { result ≡ slice_index_or self.now.ends landmark None }
    {
        kept_at(&self.ends, landmark)
    }
}
