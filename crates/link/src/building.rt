// Building a table in one call.
ghost use Rattle.std.specs.Prelude.{◌≡◌, ℕ, ◌<◌, List, ◌++◌, length, drop, sum_by};
ghost use Rattle.link.specs.Building.{Builds};
ghost use Rattle.link.specs.Table.{table_of};
ghost use Rattle.nodes.specs.Nodes.{strings};
ghost use Rattle.words.specs.Index.{indexed};

use crate::admit::admit;
use crate::back::link_back;
use crate::enter::enter_words;
use crate::node::Node;
use landmark::Fault;
use words::Words;

// Writes the table of the words in front, and answers how many entries are in use. The others are left as they were.
pub(crate) fn fill(table: &mut [Node], words: &Words<'_>) -> usize
    ghost ws: { List (List ℕ) }
    requires entered { ws ≡ indexed words.now }
    requires room { sum_by length ws < length table.old }
    ensures count { result ≡ length (strings ws) }
    ensures nodes { table.new ≡ table_of ws ++ drop result table.old }
{
    let count = enter_words(table, words);
    link_back(&mut table[..count]);
    count
}

// Builds the table of a list's words, and answers how many entries are in use. A refused call leaves the table as it was.
pub fn build(list: &[u8], table: &mut [Node]) -> Result<usize, Fault>
    ensures { Builds list.now table.old table.new result }
{
    let words = Words::of(list);
    admit(list, &words, table.len())?;
    Ok(fill(table, &words))
}
