// Whether a table is the one that the words define.
ghost use Rattle.std.specs.Prelude.{◌<◌, ◌≤◌, length};
ghost use Rattle.link.specs.Comparing.{Compares, RightBefore, WrongUpto};
ghost use Rattle.link.specs.Shape.{base_of};
ghost use Rattle.link.specs.Shaping.{its_words};
ghost use Rattle.nodes.specs.Nodes.{strings};
ghost use Rattle.words.specs.Index.{indexed};

use crate::expect::expected_root;
use crate::node::Node;
use crate::shape::Shape;
use landmark::{Fault, Refusal};
use words::Words;

impl Shape<'_, '_> {
    // The first wrong entry of the nodes that word k makes, where those of the words before it are right.
    fn wrong_entry(&self, table: &[Node], k: usize) -> Option<usize>
        requires inside { k < length (its_words self.now) }
        requires enough { length (strings (its_words self.now)) ≤ length table.now }
        requires right { RightBefore (its_words self.now) table.now (base_of (its_words self.now) k) }
        ensures { WrongUpto (its_words self.now) table.now k result }
    {
        // By the length of each string, since the entry that is expected is asked by it: `find` would still go over lengths.
        for parent in self.part(k).shared..self.words.length_of(k) {
            let depth = parent + 1;
            let n = self.number(k, depth);
            if table[n] != self.expected(k, depth) {
                return Some(n);
            }
        }
        None
    }
}

// How many entries of a table are in use, if all of these are right; refuses it at the first that is not.
pub(crate) fn compare(words: &Words<'_>, table: &[Node]) -> Result<usize, Fault>
    requires { length (strings (indexed words.now)) ≤ length table.now }
    ensures { Compares (indexed words.now) table.now result }
{
    let shape = Shape::of(words);
    if table[0] != expected_root(words) {
        return Err(Refusal::EntryDiffers.at(0));
    }
    // No chain: a word is judged only where the entries of all words before it are right, which a closure is not told.
    for k in 0..words.count() {
        if let Some(n) = shape.wrong_entry(table, k) {
            return Err(Refusal::EntryDiffers.at(n));
        }
    }
    Ok(shape.nodes)
}
