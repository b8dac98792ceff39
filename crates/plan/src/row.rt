// Filling a row, and asking it.
ghost use Rattle.plan.specs.Rows.{Pushes, items_in};
ghost use Rattle.std.specs.List.{slice_get};
ghost use Rattle.std.specs.Prelude.{◌≡◌, []};

use crate::plan::Row;

impl<T: Copy, const N: usize> Row<T, N> {
    // The row of no items, where all places have one that counts for nothing.
    pub(crate) fn empty(unused: T) -> Row<T, N>
        ensures { items_in result ≡ [] }
    {
        Row {
            count: 0,
            items: [unused; N],
        }
    }

    // The item at a place, where there is such.
    pub(crate) fn get(&self, at: usize) -> Option<T>
        ensures { result ≡ slice_get (items_in self.now) at }
    {
        self.items[..self.count].get(at).copied()
    }

    // One item more, where there is room.
    pub(crate) fn push(&mut self, item: T)
        ensures { Pushes self.old item self.new }
    {
        // With `get_mut` the proof does not close: it says nothing of the other items.
        if self.count < N {
            self.items[self.count] = item;
            self.count += 1;
        }
    }
}
