ghost use Rattle.std.specs.Prelude.{◌≡◌, true, Some, Decides};
ghost use Rattle.scan.specs.Calls.{Stands, facts_by, own_facts};
ghost use Rattle.scan.specs.History.{History, status};
ghost use Rattle.scan.specs.Promise.{Alike, Promise};

use crate::scan::{Progress, Scan};
use finder::Finder;

// Whether two scans have taken as many bytes and found the same ends: so it is where both were opened alike and have since
// taken the same bytes, whatever their finders and blocks.
pub fn agree<F: Finder, G: Finder>(left: &Scan<F>, right: &Scan<G>) -> bool
    ensures exact { Decides result (Alike (own_facts left.now) (own_facts right.now)) }
    ensures always { (h i : History) → Stands F.Finder h left.now → Stands G.Finder i right.now → status h ≡ status i → result ≡ true }
    ensures promise { Promise F.Finder G.Finder }
{
    alike(left, right)
}

// Whether both scans are idle, or both are open with as many bytes taken and the same ends.
fn alike<F: Finder, G: Finder>(left: &Scan<F>, right: &Scan<G>) -> bool
    ensures { Decides result (Alike (own_facts left.now) (own_facts right.now)) }
{
    match (&left.progress, &right.progress) {
        (Some(left), Some(right)) => left.is_like(right),
        (None, None) => true,
        _ => false,
    }
}

impl Progress {
    // Whether as many bytes are taken, and the ends are the same.
    fn is_like(&self, other: &Progress) -> bool
        ensures { Decides result (Alike (Some (facts_by self.now)) (Some (facts_by other.now))) }
    {
        let count = self.plan.landmarks();
        if count != other.plan.landmarks() || self.taken != other.taken {
            return false;
        }
        (0..count).all(|k| self.tracks.end_of(k) == other.tracks.end_of(k))
    }
}
