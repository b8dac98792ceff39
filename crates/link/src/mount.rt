// Making a link finder, and putting it on a list and its table.
ghost use Rattle.link.specs.Meaning.{words_in};
ghost use Rattle.link.specs.Mounting.{AcceptsBuilt, AcceptsRight, Mounts, MountsNew};
ghost use Rattle.link.specs.Table.{Leads, table_of};
ghost use Rattle.nodes.specs.Nodes.{strings};
ghost use Rattle.std.specs.Prelude.{◌≡◌, ℕ, List, []};
ghost use Rattle.words.specs.Index.{indexed};

use crate::admit::admit;
use crate::compare::compare;
use crate::follow::follow_to_top;
use crate::link::LinkFinder;
use crate::node::Node;
use crate::root::root_row;
use landmark::Fault;
use words::Words;

// The table of no words: the root alone.
static ROOT: [Node; 1] = [Node::ROOT];

impl<'a> LinkFinder<'a> {
    // A finder at rest on some words and their table.
    fn on(words: Words<'a>, table: &'a [Node]) -> LinkFinder<'a>
        ghost ss: { List (List ℕ) }
        requires right { table.now ≡ table_of (indexed words) }
        requires strings { ss ≡ strings (indexed words) }
        ensures words { result.words ≡ words.entry }
        ensures rest { result.at ≡ 0 }
    {
        LinkFinder {
            words,
            table,
            row: root_row(table),
            at: 0,
        }
    }

    // A finder without words.
    pub fn new() -> LinkFinder<'a>
        ensures { words_in result ≡ [] }
    {
        LinkFinder::on(Words::none(), &ROOT)
    }

    // Puts the finder on the list's words, at rest, if the table begins with the one that they define.
    pub fn mount(&mut self, list: &'a [u8], table: &'a [Node]) -> Result<(), Fault>
        ensures exact { Mounts list.now table.now self.old self.new result }
        ensures law { AcceptsRight list.now table.now result }
        ensures built { AcceptsBuilt list.now table.now result }
    {
        let words = Words::of(list);
        admit(list, &words, table.len())?;
        let used = compare(&words, table)?;
        *self = LinkFinder::on(words, &table[..used]);
        Ok(())
    }

    // A new finder on the list's words, at rest, as mounting one puts it there.
    pub fn mounted(list: &'a [u8], table: &'a [Node]) -> Result<LinkFinder<'a>, Fault>
        ensures { MountsNew list.now table.now result }
    {
        let mut finder = LinkFinder::new();
        finder.mount(list, table)?;
        Ok(finder)
    }

    // The node that a byte leads to from the node where the finder is.
    pub(crate) fn next_node(&self, byte: u8) -> usize
        ghost ss: { List (List ℕ) }
        requires { ss ≡ strings (words_in self.now) }
        ensures { Leads ss self.now.at byte result }
    {
        let top = self.row[byte as usize] as usize;
        follow_to_top(self.table, self.at, byte, top)
    }
}
