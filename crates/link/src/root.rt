// Where bytes lead from the root: to its child for the byte, and the root without one stays.
ghost use Rattle.std.specs.Prelude.{ℕ, List};
ghost use Rattle.link.specs.Table.{Leads, RootRow, Tree};

use crate::children::Children;
use crate::follow::child_of;
use crate::node::Node;

// How many byte values there are.
pub(crate) const BYTES: usize = 256;

// The node that a byte leads to from the root.
pub(crate) fn from_root(table: &[Node], byte: u8) -> usize
    ghost ss: { List (List ℕ) }
    requires { Tree table.now ss }
    ensures { Leads ss 0 byte result }
{
    child_of(table, 0, byte).unwrap_or(0)
}

// The same for each byte, by one walk over the root's children.
pub(crate) fn root_row(table: &[Node]) -> [u16; BYTES]
    ghost ss: { List (List ℕ) }
    requires { Tree table.now ss }
    ensures { RootRow ss result }
{
    let mut row = [0; BYTES];
    for (child, byte) in Children::of(table, 0) {
        row[byte as usize] = child;
    }
    row
}
