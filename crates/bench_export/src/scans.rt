// A scan of a whole image, and a checksum of what it finds.
ghost use Rattle.bench_export.specs.Scans.{Scans, asked_landmarks, ends_sum, with_end};
ghost use Rattle.scan.specs.Calls.{own_facts};
ghost use Rattle.scan.specs.Rules.{end_at};
ghost use Rattle.std.specs.Prelude.{◌≡◌, ◌+◌, ◌<◌};

use crate::checksum::join;
use finder::Finder;
use landmark::MOST_LANDMARKS;
use scan::Scan;

// Joins the end of a landmark, by its number from 1 on; no end leaves the checksum as it is.
fn with_end<F: Finder>(scan: &Scan<F>, sum: u64, landmark: usize) -> u64
    requires { landmark < 32 }
    ensures { result ≡ with_end sum (landmark + 1) (end_at (own_facts scan.now) landmark) }
{
    let end = scan.ask(landmark).unwrap_or(None);
    end.map_or(sum, |end| join(sum, end as u64, landmark as u64 + 1))
}

// The checksum of all ends that asking answers.
fn ends_sum<F: Finder>(scan: &Scan<F>) -> u64
    ensures { result ≡ ends_sum (own_facts scan.now) asked_landmarks }
{
    (0..MOST_LANDMARKS).fold(0, |sum, landmark| with_end(scan, sum, landmark))
}

// Scans an image in blocks of so many bytes, at least one, and answers the checksum of all ends, 0 where opening is refused.
pub(crate) fn scan_ends<F: Finder + Drop>(finder: F, list: &[u8], image: &[u8], block: usize) -> u64
    ensures { Scans (F.Finder.words finder) list.now image.now result }
{
    let mut scan = Scan::new(finder);
    if scan.open(list, image.len()).is_err() {
        return 0;
    }
    let mut taken = 0;
    for chunk in image.chunks(block.max(1)) {
        taken = scan.offer(taken, chunk).unwrap();
    }
    ends_sum(&scan)
}
