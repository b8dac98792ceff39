// The words of a list, one after another.
ghost use Rattle.landmark.specs.Grammar.{NextWord, words_left, words_of};
ghost use Rattle.std.specs.Iterator.{YieldsFirstRef, item_count};
ghost use Rattle.std.specs.Prelude.{◌≡◌, ◌≤◌, length};

use crate::element::{Element, Read};
use crate::records::Records;

// A word of a list, and the place after its record.
#[derive(Clone, Copy)]
pub struct Word<'a> {
    pub bytes: &'a [u8],
    pub next: usize,
}

// The next word of a list from a place on.
pub fn next_word<'a>(list: &'a [u8], place: usize) -> Option<Word<'a>>
    ensures { NextWord list.now place result }
{
    Records::from_place(list, place).find_map(|read| {
        let Read { element, next, .. } = read.ok()?;
        match element {
            Element::Run(bytes) => Some(Word { bytes, next }),
            _ => None,
        }
    })
}

// What is left of a list's words.
#[derive(Drop)]
pub struct ListWords<'a> {
    list: &'a [u8],
    place: usize,
}

impl<'a> ListWords<'a> {
    // The words of a list.
    pub fn of(list: &'a [u8]) -> ListWords<'a>
        ensures all { words_left result ≡ words_of list.now }
        ensures few { length (words_left result) ≤ length list.now }
    {
        ListWords { list, place: 0 }
    }
}

impl<'a> Iterator for ListWords<'a> {
    type Item = &'a [u8];

    ghost next_gives = { YieldsFirstRef words_left };

    ghost remaining = { item_count words_left };

    fn next(&mut self) -> Option<&'a [u8]> {
        let word = next_word(self.list, self.place)?;
        self.place = word.next;
        Some(word.bytes)
    }
}
