ghost use Rattle.scan.specs.Calls.{Asked};

use crate::scan::Scan;
use finder::Finder;
use landmark::{Fault, Refusal};

impl<F: Finder> Scan<F> {
    // The end of a landmark, where it has one in the bytes taken so far.
    pub fn ask(&self, landmark: usize) -> Result<Option<usize>, Fault>
        ensures { Asked F.Finder self.now landmark result }
    {
        let progress = self.progress.as_ref().ok_or(Refusal::Idle.at(0))?;
        if landmark >= progress.plan.landmarks() {
            return Err(Refusal::NoSuchLandmark.at(landmark));
        }
        Ok(progress.tracks.end_of(landmark))
    }
}
