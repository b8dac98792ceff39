// A walk over the children of a node.
ghost use Rattle.link.specs.Children.{Chained};
ghost use Rattle.std.specs.Prelude.{◌≡◌, ◌<◌, length};

use crate::node::Node;

// The children of a node that are left, each by its number and its byte.
#[derive(Drop)]
pub(crate) struct Children<'t> {
    table: &'t [Node],
    child: u16,
    ghost chained: { Chained table.now },
    ghost within: { child < length table.now },
}

impl<'t> Children<'t> {
    ghost use Rattle.link.specs.Children.{children};
    ghost use Rattle.link.specs.Walking.{children_left};

    // All children of a node.
    pub(crate) fn of(table: &'t [Node], at: usize) -> Children<'t>
        requires chained { Chained table.now }
        requires within { at < length table.now }
        ensures { children_left result ≡ children table.now at }
    {
        Children {
            table,
            child: table[at].first,
        }
    }
}

impl Iterator for Children<'_> {
    type Item = (u16, u8);

    ghost use Rattle.link.specs.Walking.{children_left};
    ghost use Rattle.std.specs.Iterator.{YieldsFirst, item_count};

    ghost next_gives = { YieldsFirst children_left };

    ghost remaining = { item_count children_left };

    fn next(&mut self) -> Option<(u16, u8)> {
        if self.child == 0 {
            return None;
        }
        let child = self.child;
        let node = &self.table[child as usize];
        self.child = node.next;
        Some((child, node.byte))
    }
}
