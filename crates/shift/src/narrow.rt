// Words that fit the register.
ghost use Rattle.std.specs.Prelude.{◌≡◌, ℕ, ◌<◌, ◌≤◌, [], length};
ghost use Rattle.landmark.specs.Grammar.{sizes};
ghost use Rattle.shift.specs.Table.{entries, most_run_bytes};
ghost use Rattle.words.specs.Index.{indexed};

use crate::edges::Edges;
use landmark::{Fault, Refusal, read_list};
use words::Words;

// How many numbers a table has, one to each byte value.
pub(crate) const ENTRIES: usize = 256;

// How many run bytes a table serves at most, one to each bit of a number.
const MOST_RUN_BYTES: usize = 64;

// Words with no more bytes together than a number has bits.
#[derive(Drop)]
pub(crate) struct Narrow<'a> {
    pub(crate) index: Words<'a>,
    ghost narrow: { sizes (indexed index) ≤ most_run_bytes },
}

impl<'a> Narrow<'a> {
    ghost use Rattle.shift.specs.Building.{Admits};
    ghost use Rattle.shift.specs.Comparing.{Compares, RightAt};
    ghost use Rattle.shift.specs.Register.{Marks};
    ghost use Rattle.shift.specs.Table.{all_bytes, number_of};

    // No words.
    pub(crate) fn none() -> Narrow<'a>
        ensures { indexed result.index ≡ [] }
    {
        Narrow {
            index: Words::none(),
        }
    }

    // The words of a list. Refuses a list with a fault or with too many run bytes, and a table with too few numbers.
    pub(crate) fn admit(list: &'a [u8], numbers: usize) -> Result<Narrow<'a>, Fault>
        ensures { Admits list.now numbers result }
    {
        let counts = read_list(list)?;
        if counts.run_bytes > MOST_RUN_BYTES {
            return Err(Refusal::TooManyRunBytes.at(counts.run_bytes));
        }
        if numbers < ENTRIES {
            return Err(Refusal::TableTooSmall.at(ENTRIES));
        }
        Ok(Narrow {
            index: Words::of(list),
        })
    }

    // The number that belongs at entry c of the words' table: bit p is set exactly if run byte p is c.
    pub(crate) fn number(&self, c: u8) -> u64
        ensures { result ≡ number_of (all_bytes (indexed self.now.index)) c }
    {
        let mut bits = 0;
        for word in self.index.as_slice().iter().rev() {
            for b in word.iter().rev() {
                bits = (bits << 1) | u64::from(*b == c);
            }
        }
        bits
    }

    // Writes the numbers of the words' table, from entry 0 on.
    pub(crate) fn write(&self, table: &mut [u64])
        requires { length table.old ≤ entries }
        ensures { (c : ℕ) → c < length table.new → RightAt (indexed self.now.index) table.new c }
    {
        for (c, number) in table.iter_mut().enumerate() {
            *number = self.number(c as u8);
        }
    }

    // Refuses a table at the first number that is not the one of the words' table; numbers behind the table's own do not count.
    pub(crate) fn compare(&self, table: &[u64]) -> Result<(), Fault>
        requires { entries ≤ length table.now }
        ensures { Compares (indexed self.now.index) table.now result }
    {
        let wrong = table
            .iter()
            .take(ENTRIES)
            .enumerate()
            .find(|(c, number)| **number != self.number(*c as u8));
        match wrong {
            Some((c, _)) => Err(Refusal::EntryDiffers.at(c)),
            None => Ok(()),
        }
    }

    // Where the words begin and end among the run bytes.
    pub(crate) fn edges(&self) -> Edges
        ensures { Marks (indexed self.now.index) result }
    {
        let mut firsts = 0;
        let mut lasts = 0;
        let mut p = 0usize;
        for word in self.index.as_slice() {
            firsts |= 1u64 << p;
            p += word.len();
            lasts |= 1u64 << (p - 1);
        }
        Edges { firsts, lasts }
    }
}
