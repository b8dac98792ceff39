ghost use Rattle.scan.specs.Calls.{Made};

use crate::scan::Scan;
use finder::Finder;

impl<F: Finder> Scan<F> {
    // An idle scan that owns the finder.
    pub fn new(finder: F) -> Scan<F>
        ensures { Made finder result }
    {
        Scan {
            finder,
            progress: None,
            out: None,
        }
    }
}
