// A node of the link table.

// What a table holds of a node: the length of its string and its last byte, its lowest-numbered child, the next higher
// node with the same parent, the node of the longest proper suffix of its string, and the words that are suffixes of it.
// In `first` and `next` 0 means none. The layout is C's, so that a table can be lent by a program in another language.
#[repr(C)]
#[derive(Clone, Copy, PartialEq, Eq, Debug, Default)]
pub struct Node {
    pub depth: u8,
    pub byte: u8,
    pub first: u16,
    pub next: u16,
    pub back: u16,
    pub mask: u64,
}

impl Node {
    // The root of a table without words.
    pub const ROOT: Node = Node {
        depth: 0,
        byte: 0,
        first: 0,
        next: 0,
        back: 0,
        mask: 0,
    };
}
