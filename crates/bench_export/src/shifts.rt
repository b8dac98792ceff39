// The shift finder. C has a name for each kind of finder, so the link finder has the like.
ghost use Rattle.bench_export.specs.Shifts.{Built, Mounted, Ran};

use crate::checksum::checksum;
use shift::ShiftFinder;

// Builds a shift table, and answers how many numbers are in use, 0 where building is refused.
#[unsafe(no_mangle)]
pub extern "C" fn yivalondo_shift_build(list: &[u8], table: &mut [u64]) -> usize
    ensures { Built list.now table.old table.new result }
{
    shift::build(list, table).unwrap_or(0)
}

// Whether mounting a shift finder is accepted.
#[unsafe(no_mangle)]
pub extern "C" fn yivalondo_shift_mount<'a>(list: &'a [u8], table: &'a [u64]) -> bool
    ensures { Mounted list.now table.now result }
{
    let mut finder = ShiftFinder::new();
    finder.mount(list, table).is_ok()
}

// Mounts a shift finder and answers the checksum of an image, 0 where mounting is refused.
#[unsafe(no_mangle)]
pub extern "C" fn yivalondo_shift_run<'a>(list: &'a [u8], table: &'a [u64], image: &[u8]) -> u64
    ensures { Ran list.now table.now image.now result }
{
    let Ok(mut finder) = ShiftFinder::mounted(list, table) else {
        return 0;
    };
    checksum(&mut finder, image)
}
