// The link finder. C has a name for each kind of finder, so the shift finder has the like.
ghost use Rattle.bench_export.specs.Links.{Built, Mounted, Ran, Scanned};

use crate::checksum::checksum;
use crate::scans::scan_ends;
use link::{LinkFinder, Node};

// Builds a link table, and answers how many entries are in use, 0 where building is refused.
#[unsafe(no_mangle)]
pub extern "C" fn yivalondo_link_build(list: &[u8], table: &mut [Node]) -> usize
    ensures { Built list.now table.old table.new result }
{
    link::build(list, table).unwrap_or(0)
}

// Whether mounting a link finder is accepted.
#[unsafe(no_mangle)]
pub extern "C" fn yivalondo_link_mount<'a>(list: &'a [u8], table: &'a [Node]) -> bool
    ensures { Mounted list.now table.now result }
{
    let mut finder = LinkFinder::new();
    finder.mount(list, table).is_ok()
}

// Mounts a link finder and answers the checksum of an image, 0 where mounting is refused.
#[unsafe(no_mangle)]
pub extern "C" fn yivalondo_link_run<'a>(list: &'a [u8], table: &'a [Node], image: &[u8]) -> u64
    ensures { Ran list.now table.now image.now result }
{
    let Ok(mut finder) = LinkFinder::mounted(list, table) else {
        return 0;
    };
    checksum(&mut finder, image)
}

// Mounts a link finder, scans an image in blocks of so many bytes, at least one, and answers the checksum of all ends,
// 0 where mounting or opening is refused.
#[unsafe(no_mangle)]
pub extern "C" fn yivalondo_link_scan<'a>(
    list: &'a [u8],
    table: &'a [Node],
    image: &[u8],
    block: usize,
) -> u64
    ensures { Scanned list.now table.now image.now result }
{
    let Ok(finder) = LinkFinder::mounted(list, table) else {
        return 0;
    };
    scan_ends(finder, list, image, block)
}
