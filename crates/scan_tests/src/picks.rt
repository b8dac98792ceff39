// The end of a landmark by its definition: every pick of ends for its words is tried.

// A word, and the bytes between the word before and it: at least so many, and at most so many unless open.
#[derive(Clone, Copy)]
pub(crate) struct Word {
    pub bytes: &'static [u8],
    pub least: u8,
    pub greatest: Option<u8>,
}

fn ends_at(image: &[u8], word: &[u8], end: usize) -> bool {
    end <= image.len() && image[..end].ends_with(word)
}

// Whether a word that ends at `end` keeps its gap after the end before.
fn keeps_gap(word: &Word, before: usize, end: usize) -> bool {
    let Some(gap) = end
        .checked_sub(word.bytes.len())
        .and_then(|start| start.checked_sub(before))
    else {
        return false;
    };
    gap >= word.least as usize
        && word
            .greatest
            .is_none_or(|greatest| gap <= greatest as usize)
}

// The last word's end, if the digits of the pick, to the base of one more than the image's length, are the ends of the
// words in an occurrence.
fn last_end(image: &[u8], words: &[Word], pick: usize) -> Option<usize> {
    let base = image.len().saturating_add(1);
    let mut rest = pick;
    let mut before = None;
    for word in words {
        let end = rest % base;
        rest = rest / base;
        if !ends_at(image, word.bytes, end) {
            return None;
        }
        if let Some(last) = before
            && !keeps_gap(word, last, end)
        {
            return None;
        }
        before = Some(end);
    }
    before
}

// The smallest end of the last word over all occurrences.
pub(crate) fn end_by_picks(image: &[u8], words: &[Word]) -> Option<usize> {
    let base = image.len().saturating_add(1);
    let picks = words
        .iter()
        .fold(1usize, |picks, _| picks.wrapping_mul(base));
    (0..picks)
        .filter_map(|pick| last_end(image, words, pick))
        .min()
}

const SAMPLE: [Word; 2] = [
    Word {
        bytes: b"ab",
        least: 0,
        greatest: None,
    },
    Word {
        bytes: b"cd",
        least: 1,
        greatest: Some(2),
    },
];

#[test]
fn picks_in_known_images(rt: HostRuntime) {
    assert_eq!(rt; end_by_picks(b"abxcd", &SAMPLE), Some(5));
    assert_eq!(rt; end_by_picks(b"abcd", &SAMPLE), None);
    assert_eq!(rt; end_by_picks(b"abxxxcd", &SAMPLE), None);
    assert_eq!(rt; end_by_picks(b"ababcdxabxcd", &SAMPLE), Some(6));
}
