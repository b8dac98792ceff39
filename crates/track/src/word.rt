// One word that ends at a byte: whether it is reached there, and where its end is kept.
ghost use Rattle.std.specs.Prelude.{◌≡◌, ◌<◌, Decides, None, slice_index_or};
ghost use Rattle.track.specs.Telling.{KeepsAfter, ReachedBy, Reaches, TakesWord, filled, rear_by_front};

use crate::tracks::Tracks;
use landmark::Spacing;
use plan::{Plan, Spot};

impl Tracks {
    // Whether a word that starts at `start` keeps the gap after some end at which the word before it was reached.
    fn keeps_after(&self, before: usize, spacing: Spacing, start: usize) -> bool
        ensures { Decides result (KeepsAfter self.now before spacing start) }
    {
        let Some(latest) = start.checked_sub(usize::from(spacing.least)) else {
            return false;
        };
        match spacing.greatest {
            Some(greatest) => {
                let earliest = start.saturating_sub(usize::from(greatest)).max(1);
                self.windows.any_between(before, earliest, latest)
            }
            None => kept_at(&self.firsts, before).is_some_and(|first| first <= latest),
        }
    }

    // Whether a word that ends at `end` is reached there.
    fn is_reached(&self, word: usize, spot: Spot, end: usize) -> bool
        ensures { Decides result (ReachedBy self.now spot word end) }
    {
        spot.front.is_none_or(|spacing| {
            word > 0 && spot.length <= end && self.keeps_after(word - 1, spacing, end - spot.length)
        })
    }

    // Keeps the end at which a word is reached, as the gap behind the word wants it.
    fn reach(&mut self, word: usize, landmark: usize, behind: Option<Spacing>, end: usize)
        requires { word < 64 }
        ensures { Reaches (rear_by_front behind) self.old word landmark end self.new }
    {
        match behind {
            None => keep_first(&mut self.ends, landmark, end),
            Some(Spacing { greatest: None, .. }) => keep_first(&mut self.firsts, word, end),
            Some(_) => {
                self.windows.mark(word, end, true);
                self.active |= 1u64 << word;
            }
        }
    }

    // Takes a word that ends at `end`.
    pub(crate) fn take_word(&mut self, plan: &Plan, word: usize, end: usize)
        ensures { TakesWord plan.now self.old word end self.new }
    {
        if let Some(spot) = plan.spot(word) {
            if self.is_reached(word, spot, end) {
                let behind = plan.spot(word + 1).and_then(|next| next.front);
                self.reach(word, spot.landmark, behind, end);
            }
        }
    }
}

// The end that is kept at a place, where there is one.
pub(crate) fn kept_at(kept: &[Option<usize>], at: usize) -> Option<usize>
    ensures { result ≡ slice_index_or kept.now at None }
{
    kept.get(at).copied().flatten()
}

// Keeps an end where none is kept yet.
fn keep_first(kept: &mut [Option<usize>], at: usize, end: usize)
    ensures { kept.new ≡ filled kept.old at end }
{
    // With `get_mut` the proof does not close: it says nothing of the other ends.
    if at < kept.len() {
        kept[at] = kept[at].or(Some(end));
    }
}
