// Making a shift finder, and putting it on a list and its table.
ghost use Rattle.shift.specs.Mounting.{AcceptsBuilt, Mounts, MountsNew, words_in};
ghost use Rattle.std.specs.Prelude.{◌≡◌, []};

use crate::edges::Edges;
use crate::narrow::Narrow;
use crate::shift::ShiftFinder;
use landmark::Fault;

impl<'a> ShiftFinder<'a> {
    // A finder without words.
    pub fn new() -> ShiftFinder<'a>
        ensures { words_in result ≡ [] }
    {
        ShiftFinder {
            words: Narrow::none(),
            table: &[],
            register: 0,
            edges: Edges::default(),
        }
    }

    // Puts the finder on the list's words, at rest, if the table is the one that the list builds.
    pub fn mount(&mut self, list: &'a [u8], table: &'a [u64]) -> Result<(), Fault>
        ensures exact { Mounts list.now table.now self.old self.new result }
        ensures law { AcceptsBuilt list.now table.now result }
    {
        let words = Narrow::admit(list, table.len())?;
        words.compare(table)?;
        *self = ShiftFinder {
            edges: words.edges(),
            words,
            table,
            register: 0,
        };
        Ok(())
    }

    // A new finder on the list's words, at rest, as mounting one puts it there. The link finder has the like: a trait for
    // both would need each one's table and laws as its members, for these three lines.
    pub fn mounted(list: &'a [u8], table: &'a [u64]) -> Result<ShiftFinder<'a>, Fault>
        ensures { MountsNew list.now table.now result }
    {
        let mut finder = ShiftFinder::new();
        finder.mount(list, table)?;
        Ok(finder)
    }
}
