// The link finder.
ghost use Rattle.std.specs.Prelude.{◌≡◌, ◌<◌, length};
ghost use Rattle.link.specs.Table.{RootRow, table_of};
ghost use Rattle.nodes.specs.Nodes.{strings};
ghost use Rattle.words.specs.Index.{indexed};

use crate::node::Node;
use crate::root::BYTES;
use words::Words;

// A place in the table of some words: the node of the longest string that the bytes taken end with.
#[derive(Drop)]
pub struct LinkFinder<'a> {
    pub(crate) words: Words<'a>,
    // the entries in use
    pub(crate) table: &'a [Node],
    // the node that each byte leads to from the root: its child for the byte, 0 where it has none
    pub(crate) row: [u16; BYTES],
    pub(crate) at: usize,
    ghost right: { table.now ≡ table_of (indexed words) },
    ghost rooted: { RootRow (strings (indexed words)) row },
    ghost within: { at < length table.now },
}
