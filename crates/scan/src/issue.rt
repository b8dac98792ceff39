ghost use Rattle.plan.specs.Seats.{roles_of};
ghost use Rattle.scan.specs.Calls.{Issued, Upon, ends_of, facts_by, own_facts};
ghost use Rattle.scan.specs.Rules.{bar_with_end, barred_by, barred_line, end_at, image_line, issue_refusal};
ghost use Rattle.std.specs.Prelude.{◌≡◌, Some, None, slice_index_or};
ghost use Rattle.std.specs.List.{slice_get};

use crate::order::{Numbers, Order};
use crate::scan::{Progress, Scan};
use finder::Finder;
use landmark::{Fault, Refusal, Role};

impl<F: Finder> Scan<F> {
    // Gives an order to enter behind the end of a landmark.
    pub fn issue(&mut self, landmark: usize) -> Result<Order, Fault>
        ensures { Issued F.Finder self.old landmark result self.new }
    {
        let entry = self.entry_of(landmark)?;
        let numbers = Numbers { landmark, entry };
        self.out = Some(numbers);
        Ok(Order { numbers })
    }

    // The entry of an order for the landmark, or why none is issued.
    fn entry_of(&self, landmark: usize) -> Result<usize, Fault>
        ensures { Upon (issue_refusal self.now.out (own_facts self.now) landmark) result (λ e. end_at (own_facts self.now) landmark ≡ Some e) self.now self.now }
    {
        if let Some(out) = self.out {
            return Err(Refusal::OrderOut.at(out.landmark));
        }
        let progress = self.progress.as_ref().ok_or(Refusal::Idle.at(0))?;
        progress.entry_of(landmark)
    }
}

impl Progress {
    // The entry of an order for the landmark, or why none is issued.
    fn entry_of(&self, landmark: usize) -> Result<usize, Fault>
        ensures { Upon (image_line (Some (facts_by self.now)) landmark) result (λ e. end_at (Some (facts_by self.now)) landmark ≡ Some e) self.now self.now }
    {
        let role = self
            .plan
            .role(landmark)
            .ok_or(Refusal::NoSuchLandmark.at(landmark))?;
        if let Role::Bar = role {
            return Err(Refusal::NotAnEntry.at(landmark));
        }
        if self.taken < self.announced {
            return Err(Refusal::BytesMissing.at(self.taken));
        }
        if let Some(bar) = self.first_bar() {
            return Err(Refusal::Barred.at(bar));
        }
        let end = self
            .tracks
            .end_of(landmark)
            .ok_or(Refusal::NoEnd.at(landmark))?;
        if end == self.taken {
            return Err(Refusal::EndAtLength.at(end));
        }
        Ok(end)
    }

    // The lowest bar that has an end.
    fn first_bar(&self) -> Option<usize>
        ensures { barred_line 0 (roles_of self.now.plan) (ends_of self.now.plan self.now.tracks) ≡ barred_by result }
    {
        (0..self.plan.landmarks()).find(|k| self.has_bar(*k))
    }

    // Whether a landmark is a bar that has an end.
    fn has_bar(&self, landmark: usize) -> bool
        ensures { result ≡ bar_with_end (slice_get (roles_of self.now.plan) landmark) (slice_index_or self.now.tracks.ends landmark None) }
    {
        match self.plan.role(landmark) {
            Some(Role::Bar) => self.tracks.end_of(landmark).is_some(),
            _ => false,
        }
    }
}
