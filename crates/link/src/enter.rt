// Entering words: the nodes of their prefixes, with children and siblings.
ghost use Rattle.std.specs.Prelude.{◌≡◌, ℕ, ◌+◌, ◌<◌, List, [], ◌∷◌, ◌++◌, length, take, sum_by};
ghost use Rattle.link.specs.Children.{Chained, last_child};
ghost use Rattle.link.specs.Entering.{CanGrow, Holds, Reaches};
ghost use Rattle.nodes.specs.Nodes.{strings};
ghost use Rattle.std.specs.List.{ContainsAt as Has};

use crate::children::Children;
use crate::follow::child_of;
use crate::node::Node;
use crate::source::Source;

// How far entering a word has come: the node of the symbols entered, and how many nodes there are.
#[derive(Clone, Copy)]
pub(crate) struct Reached {
    pub(crate) node: usize,
    pub(crate) count: usize,
}

// The last child of a node.
pub(crate) fn last_child(table: &[Node], at: usize) -> Option<usize>
    requires chained { Chained table.now }
    requires within { at < length table.now }
    ensures { result ≡ last_child table.now at }
{
    Children::of(table, at)
        .last()
        .map(|(child, _)| child as usize)
}

// Writes the next node, as the last child of the node reached.
pub(crate) fn add_child(table: &mut [Node], from: Reached, symbol: u8)
    requires { CanGrow table.old from }
    ensures { (us : List (List ℕ)) (v : List ℕ) (before : List Node) → Reaches us v before table.old from → (Has (strings (us ++ (v ∷ []))) (v ++ (symbol ∷ [])) → ⊥)
        → Reaches us (v ++ (symbol ∷ [])) before table.new (record { node = from.count; count = from.count + 1 }) }
{
    match last_child(&table[..from.count], from.node) {
        None => table[from.node].first = from.count as u16,
        Some(last) => table[last].next = from.count as u16,
    }
    table[from.count] = Node {
        depth: table[from.node].depth + 1,
        byte: symbol,
        ..Node::ROOT
    };
}

// Enters one symbol: its node is the child of the node reached, and made where there is none.
pub(crate) fn enter_symbol(table: &mut [Node], from: Reached, symbol: u8) -> Reached
    requires { CanGrow table.old from }
    ensures { (us : List (List ℕ)) (v : List ℕ) (before : List Node) → Reaches us v before table.old from → Reaches us (v ++ (symbol ∷ [])) before table.new result }
{
    if let Some(node) = child_of(&table[..from.count], from.node, symbol) {
        return Reached { node, ..from };
    }
    add_child(table, from, symbol);
    Reached {
        node: from.count,
        count: from.count + 1,
    }
}

// Enters word k behind the words before it, and answers how many nodes there are then.
pub(crate) fn enter_word<S: Source>(table: &mut [Node], count: usize, source: &S, k: usize) -> usize
    requires held { Holds (take k (S.Source.entered source.now)) count table.old table.old }
    requires one { k < length (S.Source.entered source.now) }
    requires room { sum_by length (S.Source.entered source.now) < length table.old }
    ensures { (before : List Node) → Holds (take k (S.Source.entered source.now)) count before table.old → Holds (take (k + 1) (S.Source.entered source.now)) result before table.new }
{
    let mut reached = Reached { node: 0, count };
    // By number: the rules want one text for any alphabet, and the symbols of another one lie in no slice.
    for i in 0..source.length_of(k) {
        reached = enter_symbol(table, reached, source.symbol(k, i));
    }
    table[reached.node].mask |= 1 << k;
    reached.count
}

// Enters all words into a table, the root first, and answers how many nodes there are.
pub(crate) fn enter_words<S: Source>(table: &mut [Node], source: &S) -> usize
    requires { sum_by length (S.Source.entered source.now) < length table.old }
    ensures { Holds (S.Source.entered source.now) result table.old table.new }
{
    table[0] = Node::ROOT;
    let mut count = 1;
    // By number, as the symbols of a word are.
    for k in 0..source.count() {
        count = enter_word(table, count, source, k);
    }
    count
}
