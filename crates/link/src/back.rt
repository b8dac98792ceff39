// Back links, and the words that are joined along them, from the root down.
ghost use Rattle.std.specs.Prelude.{◌≡◌, ℕ, ◌+◌, ◌<◌, ◌≤◌, List, [], ◌∷◌, ◌++◌, length, slice_set};
ghost use Rattle.link.specs.Backing.{AllSized, FinishedUpto, Finishes, OpenChild, Ready, ReadyChildren, child_of, finished};
ghost use Rattle.link.specs.Entering.{Entered, most_nodes};
ghost use Rattle.link.specs.Table.{table_of};
ghost use Rattle.nodes.specs.Nodes.{back_link, string, strings};

use crate::follow::follow;
use crate::node::Node;
use landmark::LONGEST_RUN;

// The most symbols of a word, and so the greatest depth of a node.
const LONGEST_WORD: u8 = LONGEST_RUN as u8;

// The back link of a node's child for a byte: where the byte leads from the node's own back link. Below the root it is the root.
pub(crate) fn back_of(table: &[Node], at: usize, byte: u8) -> usize
    ghost ws: { List (List ℕ) }
    requires { Ready ws at table.now }
    ensures within { result < length table.now }
    ensures is { result ≡ back_link (strings ws) (string (strings ws) at ++ (byte ∷ [])) }
{
    if at == 0 {
        return 0;
    }
    follow(table, table[at].back as usize, byte)
}

// The bound on the table stands in each contract below: a struct round the slice for it alone would make none shorter.

// Links a child of a node back, and joins the words found there.
pub(crate) fn link_child(table: &mut [Node], at: usize, child: usize)
    ghost ws: { List (List ℕ) }
    requires ready { Ready ws at table.old }
    requires open { OpenChild ws at child table.old }
    requires small { length table.old ≤ most_nodes }
    ensures { table.new ≡ slice_set table.old child (finished ws child) }
{
    let node = table[child];
    let back = back_of(table, at, node.byte);
    table[child] = Node {
        back: back as u16,
        mask: node.mask | table[back].mask,
        ..node
    };
}

// Links the children of a node back.
pub(crate) fn link_children(table: &mut [Node], at: usize)
    ghost ws: { List (List ℕ) }
    requires ready { ReadyChildren ws at table.old }
    requires small { length table.old ≤ most_nodes }
    ensures { Finishes ws (child_of ws at) table.old table.new }
{
    // The table that is walked is written at each step, so no borrowed iterator can walk it.
    let mut child = table[at].first as usize;
    while child != 0 {
        link_child(table, at, child);
        child = table[child].next as usize;
    }
}

// Links the children of all nodes of a depth back.
pub(crate) fn link_depth(table: &mut [Node], depth: u8)
    ghost ws: { List (List ℕ) }
    requires upto { FinishedUpto ws depth table.old }
    requires small { length table.old ≤ most_nodes }
    ensures { FinishedUpto ws (depth + 1) table.new }
{
    // The table is written while it is walked, so the nodes go by their numbers.
    for at in 0..table.len() {
        if table[at].depth == depth {
            link_children(table, at);
        }
    }
}

// Links all nodes back, depth by depth: the table is then that of the words.
pub(crate) fn link_back(table: &mut [Node])
    ghost ws: { List (List ℕ) }
    requires sized { AllSized ws }
    requires entered { Entered ws (strings ws) table.old }
    requires small { length table.old ≤ most_nodes }
    ensures { table.new ≡ table_of ws }
{
    for depth in 0..LONGEST_WORD {
        link_depth(table, depth);
    }
}
