// How the words make the nodes.
ghost use Rattle.std.specs.Prelude.{◌≡◌, ◌<◌, ◌≤◌, length};
ghost use Rattle.link.specs.Shape.{FirstWith, Shaped, made_by, part_of, shared_by};
ghost use Rattle.words.specs.Index.{indexed};

use arrayvec::ArrayVec;
use finder::MOST_WORDS;
use words::Words;

// What a word adds to the nodes: how many first bytes some word before it begins with, and the number of its first node.
#[derive(Clone, Copy, Default)]
pub(crate) struct Part {
    pub(crate) shared: usize,
    pub(crate) base: usize,
}

// Some words, the part of each, and how many nodes they make.
#[derive(Drop)]
pub(crate) struct Shape<'w, 'a> {
    pub(crate) words: &'w Words<'a>,
    pub(crate) parts: ArrayVec<Part, MOST_WORDS>,
    pub(crate) nodes: usize,
    ghost shaped: { Shaped (indexed words.now) parts.items nodes },
}

// The lowest word before word k that begins with a string.
pub(crate) fn first_with(words: &Words<'_>, k: usize, string: &[u8]) -> Option<usize>
    requires { k ≤ length (indexed words.now) }
    ensures { FirstWith (indexed words.now) string.now k result }
{
    words
        .as_slice()
        .iter()
        .take(k)
        .position(|word| word.starts_with(string))
}

// How many first bytes of word k some word before it begins with.
fn shared_by(words: &Words<'_>, k: usize) -> usize
    requires { k < length (indexed words.now) }
    ensures { result ≡ shared_by (indexed words.now) k }
{
    let word = words.word(k);
    (0..word.len())
        .find(|d| first_with(words, k, &word[..*d + 1]).is_none())
        .unwrap_or(word.len())
}

impl<'w, 'a> Shape<'w, 'a> {
    ghost use Rattle.link.specs.Shaping.{its_words};
    ghost use Rattle.link.specs.Shape.{Makes};

    // The shape of some words.
    pub(crate) fn of(words: &'w Words<'a>) -> Shape<'w, 'a>
        ensures { its_words result ≡ indexed words.now }
    {
        let mut parts = ArrayVec::new();
        let mut nodes = 1;
        for (k, word) in words.as_slice().iter().enumerate() {
            let shared = shared_by(words, k);
            parts.push(Part {
                shared,
                base: nodes,
            });
            nodes += word.len() - shared;
        }
        Shape {
            words,
            parts,
            nodes,
        }
    }

    // What word k adds.
    pub(crate) fn part(&self, k: usize) -> Part
        requires { k < length (its_words self.now) }
        ensures { result ≡ part_of (its_words self.now) k }
    {
        self.parts[k]
    }

    // The number of the node that word k makes of its first `depth` bytes.
    pub(crate) fn number(&self, k: usize, depth: usize) -> usize
        requires { Makes (its_words self.now) k depth }
        ensures { result ≡ made_by (its_words self.now) k depth }
    {
        let part = self.part(k);
        part.base + (depth - part.shared - 1)
    }
}
