// The records of a list, one after another.
ghost use Rattle.landmark.specs.Readings.{reading, readings_from, readings_left};
ghost use Rattle.std.specs.Iterator.{YieldsFirstBy, item_count};
ghost use Rattle.std.specs.Prelude.{◌≡◌, ◌≤◌, length};

use crate::element::Read;
use crate::read::read_element;
use crate::refusal::Fault;

// What is left of a list's records. The first fault comes last.
#[derive(Drop)]
pub struct Records<'a> {
    list: &'a [u8],
    place: usize,
}

impl<'a> Records<'a> {
    // The records of a whole list.
    pub fn of(list: &'a [u8]) -> Records<'a>
        ensures all { readings_left result ≡ readings_from list.now 0 }
        ensures few { length (readings_left result) ≤ length list.now }
    {
        Records::from_place(list, 0)
    }

    // The records of a list from a place on.
    pub fn from_place(list: &'a [u8], place: usize) -> Records<'a>
        ensures all { readings_left result ≡ readings_from list.now place }
        ensures few { length (readings_left result) ≤ length list.now }
    {
        Records { list, place }
    }
}

impl<'a> Iterator for Records<'a> {
    type Item = Result<Read<'a>, Fault>;

    ghost next_gives = { YieldsFirstBy reading readings_left };

    ghost remaining = { item_count readings_left };

    // The hints here, at `read_element` and at `allowance` are for speed: a call for each record, with its answer handed on
    // through memory, makes reading a list take twice as long.
    #[inline(always)]
    fn next(&mut self) -> Option<Result<Read<'a>, Fault>> {
        if self.place >= self.list.len() {
            return None;
        }
        let read = read_element(self.list, self.place);
        self.place = match read {
            Ok(read) => read.next,
            Err(_) => self.list.len(),
        };
        Some(read)
    }
}
