// Whether a finder's words are those of a list.
ghost use Rattle.std.specs.Prelude.{◌≡◌, ◌<◌, length, Decides};
ghost use Rattle.finder.specs.Words.{word};
ghost use Rattle.landmark.specs.Grammar.{words_of};
ghost use Rattle.scan.specs.Rules.{first_other};

use finder::Finder;
use landmark::ListWords;

// Whether word k of the finder is these bytes.
fn has_word<F: Finder>(finder: &F, k: usize, bytes: &[u8]) -> bool
    ensures { Decides result ((k < length (F.Finder.words finder.now)) × (word (F.Finder.words finder.now) k ≡ bytes.now)) }
{
    if k >= finder.count() || finder.length_of(k) != bytes.len() {
        return false;
    }
    bytes
        .iter()
        .enumerate()
        .all(|(i, b)| finder.byte_of(k, i) == *b)
}

// The first word of the finder and the list that differs, or that one of them has not.
pub(crate) fn first_other<F: Finder>(finder: &F, list: &[u8]) -> Option<usize>
    ensures { result ≡ first_other 0 (F.Finder.words finder.now) (words_of list.now) }
{
    // Words are counted as they are compared, since counting them apart reads the list once more.
    let mut count = 0;
    for word in ListWords::of(list) {
        if !has_word(finder, count, word) {
            return Some(count);
        }
        count += 1;
    }
    (count < finder.count()).then_some(count)
}
