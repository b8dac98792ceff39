// The entry of an image.
ghost use Rattle.entry.specs.Finding.{Finds};

use crate::blocks::block_to;
use finder::Finder;
use landmark::Fault;
use order_client::enter;
use scan::Scan;

// Scans an image in blocks that end at the cuts, and answers where it is entered by the landmark, or why it is not. The
// answer depends on neither the cuts nor the finder, where its words are the list's.
pub fn find_entry<F: Finder + Drop>(
    finder: F,
    list: &[u8],
    image: &[u8],
    cuts: &[usize],
    landmark: usize,
) -> Result<usize, Fault>
    ensures { Finds (F.Finder.words finder) list.now image.now landmark result }
{
    let mut scan = Scan::new(finder);
    scan.open(list, image.len())?;
    let mut taken = 0;
    for cut in cuts {
        taken = scan.offer(taken, block_to(image, taken, *cut))?;
    }
    scan.offer(taken, block_to(image, taken, image.len()))?;
    enter(&mut scan, landmark)
}
