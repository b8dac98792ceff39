// Reading the words of a list.
ghost use Rattle.std.specs.Prelude.{◌≡◌, ◌<◌, [], ◌∷◌, ◌++◌, length};
ghost use Rattle.landmark.specs.Lists.{most_words};
ghost use Rattle.words.specs.RunSized.{RunSized};
ghost use Rattle.words.specs.Index.{Indexes, indexed, slices};

use crate::words::Words;
use arrayvec::ArrayVec;
use landmark::{Element, Records};

impl<'a> Words<'a> {
    // No words.
    pub fn none() -> Words<'a>
        ensures { indexed result ≡ [] }
    {
        Words {
            words: ArrayVec::new(),
            run_bytes: 0,
        }
    }

    // One more word.
    fn push(&mut self, word: &'a [u8])
        requires room { length (slices self.old) < most_words }
        requires sized { RunSized word.now }
        ensures { indexed self.new ≡ indexed self.old ++ (word.now ∷ []) }
    {
        self.run_bytes += word.len();
        self.words.push(word);
    }

    // The words of a list, as many as an index holds.
    pub fn of(list: &'a [u8]) -> Words<'a>
        ensures { Indexes list.now result }
    {
        let mut words = Words::none();
        for read in Records::of(list) {
            let read = match read {
                Ok(read) => read,
                Err(_) => return words,
            };
            if let Element::Run(bytes) = read.element {
                if words.words.is_full() {
                    return words;
                }
                words.push(bytes);
            }
        }
        words
    }
}
