// Building the table of a list.
ghost use Rattle.shift.specs.Building.{Builds, BuiltTells};

use crate::narrow::{ENTRIES, Narrow};
use landmark::Fault;

// Writes the table of the list's words, and answers how many numbers it wrote.
pub fn build(list: &[u8], table: &mut [u64]) -> Result<usize, Fault>
    ensures exact { Builds list.now table.old table.new result }
    ensures law { BuiltTells list.now table.new result }
{
    let words = Narrow::admit(list, table.len())?;
    words.write(&mut table[..ENTRIES]);
    Ok(ENTRIES)
}
