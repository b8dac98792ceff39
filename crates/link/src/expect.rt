// The entry that the words define for a node.
ghost use Rattle.std.specs.Prelude.{◌≡◌, ◌<◌, ◌≤◌, length, take, Decides};
ghost use Rattle.finder.specs.Words.{word};
ghost use Rattle.link.specs.Shape.{Branches, Makes, branch_of, made_by};
ghost use Rattle.link.specs.Shaping.{its_words};
ghost use Rattle.link.specs.Table.{node_at, table_of};
ghost use Rattle.nodes.specs.Nodes.{back_link, first_child, strings, suffix_mask};
ghost use Rattle.words.specs.Index.{indexed};

use crate::node::Node;
use crate::shape::{Shape, first_with};
use words::Words;

impl Shape<'_, '_> {
    // Whether word i begins with the first `depth` bytes of word k, shares no more with the words before it, and goes on.
    fn branches(&self, k: usize, depth: usize, i: usize) -> bool
        requires within { depth ≤ length (word (its_words self.now) k) }
        requires inside { i < length (its_words self.now) }
        ensures { Decides result (Branches (its_words self.now) k depth i) }
    {
        let word = self.words.word(i);
        self.part(i).shared == depth
            && depth < word.len()
            && word.starts_with(&self.words.word(k)[..depth])
    }

    // The lowest-numbered child of the first `depth` bytes of word k among the nodes that words behind it make, or 0.
    fn branch(&self, k: usize, depth: usize) -> usize
        requires inside { k < length (its_words self.now) }
        requires within { depth ≤ length (word (its_words self.now) k) }
        ensures { result ≡ branch_of (its_words self.now) k depth }
    {
        // The proof of `map_or` in place of the `match` did not close.
        match (k + 1..self.words.count()).find(|i| self.branches(k, depth, *i)) {
            Some(i) => self.part(i).base,
            None => 0,
        }
    }

    // The first child of the node that word k makes of its first `depth` bytes, or 0.
    fn first_child(&self, k: usize, depth: usize) -> usize
        requires { Makes (its_words self.now) k depth }
        ensures { result ≡ first_child (strings (its_words self.now)) (take depth (word (its_words self.now) k)) }
    {
        if depth < self.words.length_of(k) {
            self.number(k, depth + 1)
        } else {
            self.branch(k, depth)
        }
    }

    // The node of the longest proper suffix of a string that some word begins with, or the root.
    fn back_of(&self, string: &[u8]) -> usize
        ensures { result ≡ back_link (strings (its_words self.now)) string.now }
    {
        // The proof of `find_map` over these places did not close: std has no lemma for it over a range.
        for from in 1..string.len() {
            let suffix = &string[from..];
            if let Some(i) = first_with(self.words, self.words.count(), suffix) {
                return self.number(i, suffix.len());
            }
        }
        0
    }

    // The entry of the node that word k makes of its first `depth` bytes.
    pub(crate) fn expected(&self, k: usize, depth: usize) -> Node
        requires { Makes (its_words self.now) k depth }
        ensures { result ≡ node_at (table_of (its_words self.now)) (made_by (its_words self.now) k depth) }
    {
        let string = &self.words.word(k)[..depth];
        // Each number is small here, so a cast keeps it; `try_from` would add a failure that cannot happen.
        Node {
            depth: depth as u8,
            byte: string[depth - 1],
            first: self.first_child(k, depth) as u16,
            next: self.branch(k, depth - 1) as u16,
            back: self.back_of(string) as u16,
            mask: mask_of(self.words, string),
        }
    }
}

// The words that a string ends with, word j in bit j.
fn mask_of(words: &Words<'_>, string: &[u8]) -> u64
    ensures { result ≡ suffix_mask (indexed words.now) string.now }
{
    let mut mask = 0;
    for (j, word) in words.as_slice().iter().enumerate() {
        if string.ends_with(word) {
            mask |= 1u64 << j;
        }
    }
    mask
}

// The root's entry: the first word makes its first child.
pub(crate) fn expected_root(words: &Words<'_>) -> Node
    ensures { result ≡ node_at (table_of (indexed words.now)) 0 }
{
    Node {
        first: u16::from(words.count() > 0),
        ..Node::ROOT
    }
}
