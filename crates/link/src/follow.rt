// Following the links of a table.
ghost use Rattle.std.specs.Prelude.{◌≡◌, ℕ, ◌<◌, List, length};
ghost use Rattle.link.specs.Children.{Chained, child_with};
ghost use Rattle.link.specs.Table.{Backed, Leads, Tree};
ghost use Rattle.nodes.specs.Nodes.{string};

use crate::node::Node;
use crate::root::from_root;

// The child of a node for a byte.
pub(crate) fn child_of(table: &[Node], at: usize, byte: u8) -> Option<usize>
    requires chained { Chained table.now }
    requires within { at < length table.now }
    ensures { result ≡ child_with table.now at byte }
{
    // With `Children::of(..).find(..)` building takes up to 1.6 times as long, and a byte that a first child has a seventh longer.
    let mut child = table[at].first as usize;
    while child != 0 {
        if table[child].byte == byte {
            return Some(child);
        }
        child = table[child].next as usize;
    }
    None
}

// That the table is a tree of some strings stands in each contract below: a struct for that fact alone could not say that they
// are the caller's, which the ghost parameter does.

// The node that a byte leads to: back links are followed until a node has a child for it; the root without one stays.
pub(crate) fn follow(table: &[Node], from: usize, byte: u8) -> usize
    ghost ss: { List (List ℕ) }
    requires tree { Tree table.now ss }
    requires backed { Backed table.now ss (length (string ss from)) }
    requires within { from < length table.now }
    ensures { Leads ss from byte result }
{
    let top = from_root(table, byte);
    follow_to_top(table, from, byte, top)
}

// The same, where the byte is known to lead to `top` from the root.
pub(crate) fn follow_to_top(table: &[Node], from: usize, byte: u8, top: usize) -> usize
    ghost ss: { List (List ℕ) }
    requires tree { Tree table.now ss }
    requires backed { Backed table.now ss (length (string ss from)) }
    requires within { from < length table.now }
    requires at_root { Leads ss 0 byte top }
    ensures { Leads ss from byte result }
{
    let mut at = from;
    let node = loop {
        if at == 0 {
            break top;
        }
        if let Some(child) = child_of(table, at, byte) {
            break child;
        }
        at = table[at].back as usize;
    };
    node
}
