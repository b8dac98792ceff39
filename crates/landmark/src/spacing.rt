// The gap between two neighbouring words: the sums over the operators between them.
ghost use Rattle.landmark.specs.Lists.{no_gap, plus, too_wide};
ghost use Rattle.landmark.specs.Spacings.{capped};
ghost use Rattle.occurrence.specs.Occurrence.{Gap};
ghost use Rattle.std.specs.Prelude.{◌≡◌};

use crate::element::WIDEST_GAP;

// A sum stands still at the largest number; without a greatest count the gap is open.
#[derive(Clone, Copy, PartialEq, Eq, Debug)]
pub struct Spacing {
    pub least: u16,
    pub greatest: Option<u16>,
}

impl Spacing {
    // The gap of nothing.
    pub fn none() -> Spacing
        ensures { result ≡ capped no_gap }
    {
        Spacing {
            least: 0,
            greatest: Some(0),
        }
    }

    // This gap, and one more behind it.
    pub fn plus(self, more: Spacing) -> Spacing
        ensures { (g h : Gap) → self ≡ capped g → more ≡ capped h → result ≡ capped (plus g h) }
    {
        Spacing {
            least: self.least.saturating_add(more.least),
            greatest: self
                .greatest
                .zip(more.greatest)
                .map(|(a, b)| a.saturating_add(b)),
        }
    }

    // Whether a sum is wider than a gap may be.
    pub(crate) fn is_too_wide(self) -> bool
        ensures { (g : Gap) → self ≡ capped g → result ≡ too_wide g }
    {
        self.least > WIDEST_GAP || self.greatest.is_some_and(|greatest| greatest > WIDEST_GAP)
    }
}
