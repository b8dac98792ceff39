// Asking a plan.
ghost use Rattle.plan.specs.Seats.{landmarks_in, roles_of, spots_of};
ghost use Rattle.std.specs.List.{slice_get};
ghost use Rattle.std.specs.Prelude.{◌≡◌};

use crate::plan::{Plan, Spot};
use landmark::Role;

impl Plan {
    // How many landmarks there are.
    pub fn landmarks(&self) -> usize
        ensures { result ≡ landmarks_in self.now }
    {
        self.roles.count
    }

    // The role of a landmark, where there is such.
    pub fn role(&self, landmark: usize) -> Option<Role>
        ensures { result ≡ slice_get (roles_of self.now) landmark }
    {
        self.roles.get(landmark)
    }

    // The spot of a word, where there is such.
    pub fn spot(&self, word: usize) -> Option<Spot>
        ensures { result ≡ slice_get (spots_of self.now) word }
    {
        self.spots.get(word)
    }
}
